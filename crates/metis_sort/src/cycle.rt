//! The cycle of a graph that has no order.
ghost use Rattle.std.specs.Prelude.{◌≡◌, ◌==◌, ◌+◌, ◌^◌, ◌<◌, ◌≤◌, IsTrue, not, length, slice_index, IfOk};
ghost use Rattle.std.specs.List.{find, range_with_len};
ghost use Rattle.metis_ids.specs.Terms.{Graph, IsGraph, before_in, befores, cycle_of, from_first, has, has_before, order_of, stuck};
ghost use Rattle.metis_sort.specs.Terms.{all_waiting};

use crate::reach::Reach;
use metis_ids::{NoMemory, NodeIx, Steps};
use std::alloc::Global;
use std::sync::ledger::Ledger;

/// The least node that waits.
pub fn first_waiting(waits: &[u32]) -> Option<NodeIx>
    requires { length waits.now < 2 ^ 32 }
    ensures { result ≡ find (λ n. not (slice_index waits.now n == 0)) (range_with_len 0 (length waits.now)) }
{
    for number in 0..waits.len() as u32 {
        if waits[number as usize] > 0 {
            return Some(NodeIx(number));
        }
    }
    None
}

/// The cycle to which the walk from the least stuck node leads.
pub fn cycle<G: Reach, L: Ledger>(
    alloc: Global,
    g: &G,
    waits: &[u32],
    start: NodeIx,
    steps: &mut Steps<L>,
) -> Result<Vec<NodeIx>, NoMemory>
    requires waits { waits.now ≡ all_waiting (G.graph g.now) (order_of (G.graph g.now)) }
    requires some { 0 < length (stuck (G.graph g.now)) }
    requires start { start ≡ slice_index (stuck (G.graph g.now)) 0 }
    ensures cycle { IfOk result (λ c. c.items ≡ cycle_of (G.graph g.now)) }
    ensures cost { steps.new ≤ steps.old + length (G.graph g.now).edges }
{
    let nodes = g.nodes();
    let mut walk = Vec::new(alloc);
    let mut seen = vec![in alloc; false; nodes as usize]?;
    let mut here = start;
    while !seen[here.0 as usize] {
        seen[here.0 as usize] = true;
        walk.push(here)?;
        here = stuck_before(g, here, waits, steps);
    }
    from_first(alloc, &walk, here)
}

// The least predecessor of the node that waits too.
fn stuck_before<G: Reach, L: Ledger>(
    g: &G,
    node: NodeIx,
    waits: &[u32],
    steps: &mut Steps<L>,
) -> NodeIx
    requires graph { IsGraph (G.graph g.now) }
    requires few { length (G.graph g.now).edges < 2 ^ 32 }
    requires node { node < (G.graph g.now).nodes }
    requires waits { waits.now ≡ all_waiting (G.graph g.now) (order_of (G.graph g.now)) }
    requires some { IsTrue (has_before (G.graph g.now) (stuck (G.graph g.now)) node) }
    ensures before { result ≡ before_in (G.graph g.now) (stuck (G.graph g.now)) node }
    ensures cost { steps.new ≤ steps.old + length (befores (G.graph g.now) node) }
{
    let mut k = 0;
    while let Some(before) = g.before_at(node, k, steps) {
        if waits[before.0 as usize] > 0 {
            return before;
        }
        k += 1;
    }
    node
}

// The nodes from the first visit of this one on.
fn from_first(alloc: Global, walk: &[NodeIx], node: NodeIx) -> Result<Vec<NodeIx>, NoMemory>
    ensures { IfOk result (λ tail. tail.items ≡ from_first node walk.now) }
{
    let mut tail = Vec::new(alloc);
    for each in walk {
        if !tail.is_empty() || *each == node {
            tail.push(*each)?;
        }
    }
    Ok(tail)
}
