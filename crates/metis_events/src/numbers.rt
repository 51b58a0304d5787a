//! The numbers of the events from which edges lead.
ghost use Rattle.std.specs.Prelude.{◌≡◌, ◌<◌, ◌^◌, length, map, IfOk, OnOk};
ghost use Rattle.std.specs.List.{All, position_or_len};
ghost use Rattle.std.specs.List.Sorted.{IsStrictlySortedBy};
ghost use Rattle.metis_lines.specs.Terms.{event_cmp, same_event};
ghost use Rattle.metis_events.specs.Terms.{IsJoined, graph_by, number_of};

use crate::edges::Edge;
use crate::rows::{EdgeRow, place_of};
use metis_ids::{Event, NoMemory, NodeIx};
use metis_sort::NodeRows;
use std::alloc::Global;

/// For each of the events, the numbers of those from which the edges into it lead, in their order.
pub fn number_rows(
    alloc: Global,
    events: &[Event],
    starts: &[usize],
    edges: &[EdgeRow],
) -> Result<NodeRows, NoMemory>
    requires few { length events.now < 2 ^ 32 }
    requires ascend { IsStrictlySortedBy event_cmp events.now }
    requires joined { IsJoined (graph_by events.now edges.now) }
    ensures { IfOk result (λ rows. rows ≡ map (map (λ e. number_of (graph_by events.now edges.now) e.from)) edges.now) }
{
    let mut rows = NodeRows::new(alloc)?;
    let mut numbers = Vec::new(alloc);
    for row in edges {
        put_numbers(&mut numbers, events, starts, row.as_slice())?;
        rows.push(&numbers)?;
    }
    Ok(rows)
}

// Puts the numbers of the events from which these edges lead in the place of others.
fn put_numbers(
    numbers: &mut Vec<NodeIx>,
    events: &[Event],
    starts: &[usize],
    edges: &[Edge],
) -> Result<(), NoMemory>
    requires few { length events.now < 2 ^ 32 }
    requires ascend { IsStrictlySortedBy event_cmp events.now }
    requires from { All (λ e. position_or_len (same_event e.from) events.now < length events.now) edges.now }
    ensures { OnOk result (numbers.new.items ≡ map (λ e. position_or_len (same_event e.from) events.now) edges.now) }
{
    numbers.clear();
    for edge in edges {
        let from = place_of(events, starts, &edge.from).unwrap();
        numbers.push(NodeIx(from as u32))?;
    }
    Ok(())
}
