//! Writes what `EventGraph` answers.
ghost use Rattle.std.specs.Prelude.{◌≡◌, ◌<◌, IfOk, length, map};
ghost use Rattle.std.specs.List.{All};
ghost use Rattle.metis_events.specs.Terms.{event_at};

use crate::lists::put;
use crate::stop::Stop;
use metis_events::{EdgeKind, EventGraph};
use metis_ids::{Event, NodeIx};
use metis_sort::Sorted;
use std::alloc::Global;

/// Writes the edges into each of so many events.
pub fn write_edges(text: &mut String, graph: &EventGraph, count: u32) -> Result<(), Stop>
    requires { count ≡ length graph.now.events }
{
    for number in 0..count {
        write_before(text, graph, &graph.event(NodeIx(number)))?;
    }
    Ok(())
}

fn write_before(text: &mut String, graph: &EventGraph, event: &Event) -> Result<(), Stop> {
    put(text, "before")?;
    write_event(text, event)?;
    put(text, ":")?;
    for edge in graph.before(*event) {
        write_event(text, &edge.from)?;
        put(text, kind_word(edge.kind))?;
    }
    put(text, "\n")
}

fn kind_word(kind: EdgeKind) -> &'static str {
    match kind {
        EdgeKind::Go => " go",
        EdgeKind::Start => " start",
        EdgeKind::Return => " return",
    }
}

/// Writes an event, with a space before it.
pub fn write_event(text: &mut String, event: &Event) -> Result<(), Stop> {
    match *event {
        Event::At(line, step) => write_step(text, line.0, step.0),
        Event::End => put(text, " end"),
    }
}

fn write_step(text: &mut String, line: u32, step: u32) -> Result<(), Stop> {
    write!(text, " {line}.{step}")?;
    Ok(())
}

/// The events of these nodes.
pub fn events_of(alloc: Global, graph: &EventGraph, nodes: &[NodeIx]) -> Result<Vec<Event>, Stop>
    requires { All (λ n. n < length graph.now.events) nodes.now }
    ensures { IfOk result (λ events. events.items ≡ map (event_at graph.now) nodes.now) }
{
    let mut events = Vec::new(alloc);
    for node in nodes {
        events.push(graph.event(*node))?;
    }
    Ok(events)
}

/// How many edges lead into so many events.
pub fn count_edges(graph: &EventGraph, count: u32) -> u64
    requires { count ≡ length graph.now.events }
{
    let mut edges = 0u64;
    for number in 0..count {
        let into = graph.before(graph.event(NodeIx(number)));
        edges = edges.saturating_add(into.len() as u64);
    }
    edges
}

/// Writes the order of so many events, or their cycle.
pub fn write_sorted(
    text: &mut String,
    graph: &EventGraph,
    count: u32,
    sorted: &Sorted,
) -> Result<(), Stop>
    requires { count ≡ length graph.now.events }
{
    match sorted {
        Sorted::Order(nodes) => write_nodes(text, graph, count, "order:", nodes),
        Sorted::Cycle(nodes) => write_nodes(text, graph, count, "cycle:", nodes),
    }
}

fn write_nodes(
    text: &mut String,
    graph: &EventGraph,
    count: u32,
    word: &str,
    nodes: &[NodeIx],
) -> Result<(), Stop>
    requires { count ≡ length graph.now.events }
{
    put(text, word)?;
    for node in nodes {
        if node.0 < count {
            write_event(text, &graph.event(*node))?;
        }
    }
    put(text, "\n")
}
