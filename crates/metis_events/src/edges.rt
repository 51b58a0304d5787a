//! Edges of the graph of events.
ghost use Rattle.std.specs.Prelude.{◌≡◌, ◌∷◌, [], OnOk};
ghost use Rattle.metis_ids.specs.declared.events.Event.{Event};
ghost use Rattle.metis_lines.specs.Terms.{event_cmp};
ghost use Rattle.metis_events.specs.Terms.{Adds, edge_cmp, edge_of, same_edge};
ghost use Rattle.metis_events.specs.declared.edges.Edge.{Edge};

use metis_ids::{Event, NoMemory};
use std::alloc::Global;
use std::marker::Model;

/// Why one event has to come before another: it is the line's last one before it, it enters the station that the other takes
/// from, or it leaves the station that was supplied by the place which the other leaves.
#[derive(Clone, Copy, PartialEq, Eq, PartialOrd, Ord)]
pub enum EdgeKind {
    Go,
    Start,
    Return,
}

/// An edge into an event, from another.
#[derive(Clone, Copy, PartialEq, Eq, PartialOrd, Ord)]
pub struct Edge {
    pub from: Event,
    pub kind: EdgeKind,
}

/// Events are ordered by line and then by step, and the end stands last.
pub fn events_are_ordered()
    ensures { (a b : Event) → ⟦<Event as Ord>⟧.cmp a b ≡ event_cmp a b }
{}

/// Edges are ordered by the events that they lead from, and then by kind.
pub fn edges_are_ordered()
    ensures { (a b : Edge) → ⟦<Edge as Ord>⟧.cmp a b ≡ edge_cmp a b }
{}

/// Edges are equal where they are of one kind and lead from one event.
pub fn edges_are_told_apart()
    ensures { (a b : Edge) → ⟦<Edge as PartialEq>⟧.eq a b ≡ same_edge a b }
{}

/// Edges with the events that they lead into, as they were added: one may stand there again.
#[derive(Drop)]
pub struct EdgeList {
    edges: Vec<(Event, Edge)>,
}

impl Model for EdgeList {
    ghost use Rattle.std.specs.Prelude.{List};
    ghost use Rattle.metis_ids.specs.declared.events.Event.{Event};
    ghost use Rattle.metis_events.specs.declared.edges.Edge.{Edge};

    ghost Value = { List (Event × Edge) };

    ghost view = { λ s. s.edges.items };
}

impl EdgeList {
    pub fn new(alloc: Global) -> EdgeList
        ensures { result ≡ [] }
    {
        EdgeList {
            edges: Vec::new(alloc),
        }
    }

    pub fn add(&mut self, from: Event, kind: EdgeKind, to: Event) -> Result<(), NoMemory>
        ensures { OnOk result (Adds ((to, edge_of from kind) ∷ []) self.old self.new) }
    {
        self.edges.push((to, Edge { from, kind }))?;
        Ok(())
    }

    pub fn as_slice(&self) -> &[(Event, Edge)]
        ensures { result.now ≡ self.now }
    {
        self.edges.as_slice()
    }
}
