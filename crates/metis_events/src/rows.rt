//! The edges into each event.
ghost use Rattle.std.specs.Prelude.{◌≡◌, ◌<◌, ◌+◌, ◌^◌, ◌++◌, ◌∷◌, [], List, length, map, position, slice_get, IfOk, IfSome, OnOk};
ghost use Rattle.std.specs.List.Sorted.{IsStrictlySortedBy};
ghost use Rattle.metis_lines.specs.Terms.{event_cmp, same_event};
ghost use Rattle.metis_events.specs.Terms.{edge_of, edges_to, in_order};
ghost use Rattle.metis_events.specs.declared.edges.Edge.{Edge};
ghost use Rattle.metis_ids.specs.declared.events.Event.{Event};

use crate::edges::{
    Edge, EdgeKind, EdgeList, edges_are_ordered, edges_are_told_apart, events_are_ordered,
};
use metis_ids::{Event, NoMemory};
use std::alloc::Global;
use std::marker::Model;

/// The edges into an event.
#[derive(Drop)]
pub struct EdgeRow {
    edges: Vec<Edge>,
}

impl Model for EdgeRow {
    ghost use Rattle.std.specs.Prelude.{List};
    ghost use Rattle.metis_events.specs.declared.edges.Edge.{Edge};

    ghost Value = { List Edge };

    ghost view = { λ a. a.edges.items };
}

impl EdgeRow {
    pub fn new(alloc: Global) -> EdgeRow
        ensures { result ≡ [] }
    {
        EdgeRow {
            edges: Vec::new(alloc),
        }
    }

    pub fn push(&mut self, from: Event, kind: EdgeKind) -> Result<(), NoMemory>
        ensures { OnOk result (self.new ≡ self.old ++ edge_of from kind ∷ []) }
    {
        self.edges.push(Edge { from, kind })?;
        Ok(())
    }

    /// Puts the edges in order, each once.
    pub fn put_in_order(&mut self)
        ensures { self.new ≡ in_order self.old }
    {
        edges_are_ordered();
        edges_are_told_apart();
        self.edges.sort_unstable();
        self.edges.dedup();
    }

    pub fn as_slice(&self) -> &[Edge]
        ensures { result.now ≡ self.now }
    {
        self.edges.as_slice()
    }

    pub fn len(&self) -> usize
        ensures { result ≡ length self.now }
    {
        self.edges.len()
    }

    /// The edge of a place, and none past the end. Where there is one, the next place can be counted.
    pub fn get(&self, k: usize) -> Option<Edge>
        ensures value { result ≡ slice_get self.now k }
        ensures next { IfSome result (λ _. k + 1 < 2 ^ 64) }
    {
        self.edges.get(k).copied()
    }
}

/// The edges that lead into each of the events, which ascend: in order, each once.
pub fn edge_rows(
    alloc: Global,
    events: &[Event],
    starts: &[usize],
    edges: &EdgeList,
) -> Result<Vec<EdgeRow>, NoMemory>
    requires { IsStrictlySortedBy event_cmp events.now }
    ensures { IfOk result (λ rows. rows.items ≡ map (λ f. in_order (edges_to edges.now f)) events.now) }
{
    let mut rows = empty_rows(alloc, events)?;
    for (to, edge) in edges.as_slice() {
        add_edge(&mut rows, events, starts, to, *edge)?;
    }
    put_in_order(&mut rows);
    Ok(rows)
}

// Puts the edges of each row in order, each once.
fn put_in_order(rows: &mut Vec<EdgeRow>)
    ensures { rows.new.items ≡ map in_order rows.old.items }
{
    for place in 0..rows.len() {
        rows[place].put_in_order();
    }
}

// Adds the edge to the row of the event that it leads into.
fn add_edge(
    rows: &mut Vec<EdgeRow>,
    events: &[Event],
    starts: &[usize],
    to: &Event,
    edge: Edge,
) -> Result<(), NoMemory>
    requires ascend { IsStrictlySortedBy event_cmp events.now }
    requires each { length rows.old.items ≡ length events.now }
    ensures { (xs : List (Event × Edge)) → rows.old.items ≡ map (edges_to xs) events.now → OnOk result (rows.new.items ≡ map (edges_to (xs ++ (to.now, edge) ∷ [])) events.now) }
{
    if let Some(place) = place_of(events, starts, to) {
        rows[place].push(edge.from, edge.kind)?;
    }
    Ok(())
}

// No edge into any event.
fn empty_rows(alloc: Global, events: &[Event]) -> Result<Vec<EdgeRow>, NoMemory>
    ensures { IfOk result (λ rows. rows.items ≡ map (λ _. []) events.now) }
{
    let mut rows = Vec::with_capacity(alloc, events.len())?;
    for _event in events {
        rows.push(EdgeRow::new(alloc))?;
    }
    Ok(rows)
}

/// The place of the event among these, which ascend. It is looked for first where the starts of the lines say, then by halves.
pub fn place_of(events: &[Event], starts: &[usize], e: &Event) -> Option<usize>
    requires { IsStrictlySortedBy event_cmp events.now }
    ensures { result ≡ position (same_event e.now) events.now }
{
    let place = likely_place(events.len(), starts, e);
    if place < events.len() && is_same_event(&events[place], e) {
        return Some(place);
    }
    searched(events, e)
}

// Where the event stands, if its line starts where it is said.
fn likely_place(count: usize, starts: &[usize], e: &Event) -> usize {
    match *e {
        Event::At(line, step) => match starts.get(line.0 as usize) {
            Some(start) => start.saturating_add(step.0 as usize),
            None => count,
        },
        Event::End => count.saturating_sub(1),
    }
}

/// Whether the two are one event.
pub fn is_same_event(a: &Event, b: &Event) -> bool
    ensures { result ≡ same_event b.now a.now }
{
    match *a {
        Event::At(line, step) => match *b {
            Event::At(other, place) => other == line && place == step,
            Event::End => false,
        },
        Event::End => match *b {
            Event::At(_, _) => false,
            Event::End => true,
        },
    }
}

// The place of the event among these, by halves.
fn searched(events: &[Event], e: &Event) -> Option<usize>
    requires { IsStrictlySortedBy event_cmp events.now }
    ensures { result ≡ position (same_event e.now) events.now }
{
    events_are_ordered();
    events.binary_search(e).ok()
}
