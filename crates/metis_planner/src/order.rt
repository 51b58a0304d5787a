//! From lines whose events have an order to their actions.
ghost use Rattle.std.specs.Prelude.{◌≡◌, ◌<◌, IfOk, length, map};
ghost use Rattle.std.specs.List.{All};
ghost use Rattle.metis_ids.specs.Terms.{HasCycle, IsOrder};
ghost use Rattle.metis_lines.specs.Terms.{graph_over};
ghost use Rattle.metis_events.specs.Terms.{dag_of, event_at, graph_of};
ghost use Rattle.metis_emit.specs.Terms.{emission};
ghost use Rattle.metis_planner.specs.Terms.{numbered, ordered_events};

use metis_emit::emit;
use metis_events::EventGraph;
use metis_ids::{Action, Event, NoMemory, NodeIx};
use metis_lines::OverLines;
use metis_sort::{Sorted, sort};
use std::alloc::Global;

/// The actions of the events of the lines, in the order of the events, which have no cycle.
pub fn ordered_actions(alloc: Global, over: &OverLines<'_>) -> Result<Vec<Action>, NoMemory>
    requires { HasCycle (numbered (graph_over over.now)) → ⊥ }
    ensures { IfOk result (λ actions. actions.items ≡ emission over.now.universe (graph_over over.now) (ordered_events (graph_over over.now))) }
{
    over.keeps_invariant();
    let graph = EventGraph::of(alloc, over)?;
    match sort(alloc, graph.dag())? {
        Sorted::Order(nodes) => actions_of(alloc, over, &graph, &nodes),
        Sorted::Cycle(_) => unreachable!(),
    }
}

// The actions of the events of these nodes, which are the order of the graph.
fn actions_of(
    alloc: Global,
    over: &OverLines<'_>,
    graph: &EventGraph,
    nodes: &[NodeIx],
) -> Result<Vec<Action>, NoMemory>
    requires graph { graph.now ≡ graph_of (graph_over over.now) }
    requires order { IsOrder (dag_of graph.now) nodes.now }
    ensures { IfOk result (λ actions. actions.items ≡ emission over.now.universe (graph_over over.now) (ordered_events (graph_over over.now))) }
{
    over.keeps_invariant();
    let events = events_of(alloc, graph, nodes)?;
    emit(alloc, over, &events)
}

// The events of these nodes.
fn events_of(alloc: Global, graph: &EventGraph, nodes: &[NodeIx]) -> Result<Vec<Event>, NoMemory>
    requires { All (λ n. n < length graph.now.events) nodes.now }
    ensures { IfOk result (λ events. events.items ≡ map (event_at graph.now) nodes.now) }
{
    let mut events = Vec::with_capacity(alloc, nodes.len())?;
    for node in nodes {
        events.push(graph.event(*node))?;
    }
    Ok(events)
}
