//! The graph of events.
ghost use Rattle.std.specs.Prelude.{◌≡◌, ◌<◌, ◌≤◌, ◌+◌, ◌^◌, ◌++◌, length, map, IfOk, OnOk};
ghost use Rattle.metis_lines.specs.Terms.{events, events_of, graph_over};
ghost use Rattle.metis_events.specs.Terms.{before, dag_of, edges_into, event_at, graph_of, node_of, without_supplies};

use crate::edges::{Edge, EdgeList};
use crate::gather::{add_go_edges, add_supplies, step_count};
use crate::numbers::number_rows;
use crate::rows::{EdgeRow, edge_rows, place_of};
use metis_ids::{Event, LineIx, NoMemory, NodeIx, StepIx};
use metis_lines::OverLines;
use metis_sort::Dag;
use std::alloc::Global;
use std::marker::Model;

/// The events, numbered from 0, with the edges into each.
#[derive(Drop)]
pub struct EventGraph {
    events: Vec<Event>,
    /// Where the events of each line start.
    starts: Vec<usize>,
    edges: Vec<EdgeRow>,
    /// The graph of the numbers.
    dag: Dag,
}

impl Model for EventGraph {
    ghost use Rattle.metis_events.specs.Edges as model;
    ghost use Rattle.metis_events.specs.Numbered.{IsKept};

    ghost Value = { model.EventGraph };

    ghost view = { λ a. record { events = a.events.items; edges = a.edges.items } };

    ghost invariant = { λ a. IsKept a.events.items a.edges.items a.dag };
}

impl EventGraph {
    /// The graph of the lines over a support. It goes once over the events and the supplies, sorts the edges, and goes once over them.
    pub fn of(alloc: Global, over: &OverLines<'_>) -> Result<EventGraph, NoMemory>
        ensures { IfOk result (λ g. g ≡ graph_of (graph_over over.now)) }
    {
        over.keeps_invariant();
        let events = all_events(alloc, over)?;
        let starts = line_starts(alloc, over)?;
        let edges = edges_into_all(alloc, over, &events, &starts)?;
        let befores = number_rows(alloc, &events, &starts, &edges)?;
        let last = NodeIx(events.len() as u32 - 1);
        let dag = Dag::of_befores(alloc, befores, last)?;
        Ok(EventGraph {
            events,
            starts,
            edges,
            dag,
        })
    }

    /// The edges into an event, by the events that they lead from; none into one that is not of the graph.
    pub fn before(&self, e: Event) -> &[Edge]
        ensures { result.now ≡ edges_into self.now e }
    {
        match place_of(&self.events, &self.starts, &e) {
            Some(place) => self.edges[place].as_slice(),
            None => &[],
        }
    }

    /// The number of an event; none where it is not one of the graph.
    pub fn node(&self, e: Event) -> Option<NodeIx>
        ensures { result ≡ node_of self.now e }
    {
        // For the proof alone: to name a field is to open the invariant.
        let _rows = &self.edges;
        let place = place_of(&self.events, &self.starts, &e)?;
        Some(NodeIx(place as u32))
    }

    /// The event of a number.
    pub fn event(&self, n: NodeIx) -> Event
        requires { n < length self.now.events }
        ensures { result ≡ event_at self.now n }
    {
        self.events[n.0 as usize]
    }

    /// The graph of the numbers: its nodes are those of the events, its edges lead as the edges between these, and its last node is
    /// the number of the last event.
    pub fn dag(&self) -> &Dag
        ensures { result.now ≡ dag_of self.now }
    {
        &self.dag
    }
}

// The edges into each of the events, which are all.
fn edges_into_all(
    alloc: Global,
    over: &OverLines<'_>,
    all: &[Event],
    starts: &[usize],
) -> Result<Vec<EdgeRow>, NoMemory>
    requires { all.now ≡ events (graph_over over.now) }
    ensures { IfOk result (λ rows. rows.items ≡ map (before (graph_over over.now)) all.now) }
{
    over.keeps_invariant();
    let mut gathered = EdgeList::new(alloc);
    add_go_edges(&mut gathered, over)?;
    add_supplies(&mut gathered, over)?;
    edge_rows(alloc, all, starts, &gathered)
}

// All events of the lines, in order.
fn all_events(alloc: Global, over: &OverLines<'_>) -> Result<Vec<Event>, NoMemory>
    ensures events { IfOk result (λ all. all.items ≡ events (without_supplies over.now.lines)) }
    ensures few { IfOk result (λ all. length all.items < 2 ^ 32) }
{
    let mut all = Vec::new(alloc);
    for number in 0..over.count() {
        add_events(&mut all, over, LineIx(number))?;
    }
    all.push(Event::End)?;
    Ok(all)
}

// Where the events of each line start.
fn line_starts(alloc: Global, over: &OverLines<'_>) -> Result<Vec<usize>, NoMemory> {
    let mut starts = Vec::with_capacity(alloc, over.count() as usize)?;
    let mut start: usize = 0;
    for number in 0..over.count() {
        starts.push(start)?;
        start = start.saturating_add(step_count(over, LineIx(number)) as usize);
    }
    Ok(starts)
}

// Appends the events of the line.
fn add_events(all: &mut Vec<Event>, over: &OverLines<'_>, line: LineIx) -> Result<(), NoMemory>
    requires { line < length over.now.lines.lines }
    ensures events { OnOk result (all.new.items ≡ all.old.items ++ events_of (without_supplies over.now.lines) line) }
    ensures few { OnOk result (length all.new.items ≤ length all.old.items + 65) }
{
    for step in 0..step_count(over, line) {
        all.push(Event::At(line, StepIx(step)))?;
    }
    Ok(())
}
