//! Walks back over stuck events, which keep what they met.
ghost use Rattle.std.specs.Prelude.{◌≡◌, ◌<◌, ◌≤◌, ◌-◌, ◌==◌, ◌&&◌, ◌++◌, ◌∷◌, [], IsTrue, IsFalse, IfNone, IfSome, IfOk, OnOk, length, nat_lt, take};
ghost use Rattle.metis_lines.specs.Terms.{is_among, same_event};
ghost use Rattle.metis_ids.specs.declared.events.Event.{Event};
ghost use Rattle.metis_rounds.specs.Terms.{IsApart, from_step, kept_steps, place_in, step_at};

use metis_events::{events_are_ordered, is_same_event};
use metis_ids::{Event, NoMemory};
use std::alloc::Global;
use std::collections::BTreeSet;
use std::marker::Model;

/// The steps of a walk, none of which stands there twice, with the set of them. Contracts see the list of the steps.
#[derive(Drop)]
pub struct Walk {
    steps: Vec<Event>,
    met: BTreeSet<Event>,
}

impl Model for Walk {
    ghost use Rattle.std.specs.Prelude.{List};
    ghost use Rattle.metis_ids.specs.declared.events.Event.{Event};
    ghost use Rattle.metis_rounds.specs.Walks.{IsMet};

    ghost Value = { List Event };

    ghost view = { λ a. a.steps.items };

    ghost invariant = { λ a. IsMet a.met.keys a.steps.items };
}

impl Walk {
    /// No step.
    pub fn new(alloc: Global) -> Walk
        ensures { result ≡ [] }
    {
        Walk {
            steps: Vec::new(alloc),
            met: BTreeSet::new(alloc),
        }
    }

    /// Whether there is no step.
    pub fn is_empty(&self) -> bool
        ensures { result ≡ (length self.now == 0) }
    {
        self.steps.is_empty()
    }

    /// The last step.
    pub fn last(&self) -> Option<Event>
        ensures none { IfNone result (self.now ≡ []) }
        ensures some { IfSome result (λ e. (0 < length self.now) × (e ≡ step_at self.now (length self.now - 1))) }
    {
        self.steps.last().copied()
    }

    /// Whether the event is a step.
    pub fn has(&self, e: Event) -> bool
        ensures { result ≡ is_among self.now e }
    {
        events_are_ordered();
        self.met.contains(&e)
    }

    /// One more step.
    pub fn push(&mut self, e: Event) -> Result<(), NoMemory>
        requires { IsFalse (is_among self.old e) }
        ensures pushed { OnOk result (self.new ≡ self.old ++ e ∷ []) }
        ensures apart { IsApart self.new }
    {
        events_are_ordered();
        let step = &e;
        self.steps.push(*step)?;
        match self.met.insert(*step) {
            Ok(_) => Ok(()),
            Err(_) => {
                self.steps.pop();
                Err(NoMemory)
            }
        }
    }

    /// One step less, if there is one.
    pub fn pop(&mut self)
        ensures { self.new ≡ take (length self.old - 1) self.old }
    {
        events_are_ordered();
        if let Some(e) = self.steps.pop() {
            self.met.remove(&e);
        }
    }

    /// Leaves the steps before `leaving`, and before `entry` unless that is the first.
    pub fn keep_for_own_line(&mut self, entry: Event, leaving: Event)
        ensures { self.new ≡ kept_steps entry leaving self.old }
    {
        self.pop_from(&leaving);
        if !self.begins_with(&entry) {
            self.pop_from(&entry);
        }
    }

    // Leaves the steps before this one, or all where it is none.
    fn pop_from(&mut self, e: &Event)
        ensures { self.new ≡ take (place_in self.old e.now) self.old }
    {
        while self.has(*e) {
            self.pop();
        }
    }

    // Whether the event is the first step.
    fn begins_with(&self, e: &Event) -> bool
        ensures { result ≡ (nat_lt 0 (length self.now) && same_event e.now (step_at self.now 0)) }
    {
        match self.steps.first() {
            Some(first) => is_same_event(first, e),
            None => false,
        }
    }

    /// The steps from this one on. It is looked for from the end.
    pub fn cycle_from(&self, alloc: Global, e: Event) -> Result<Vec<Event>, NoMemory>
        requires { IsTrue (is_among self.now e) }
        ensures { IfOk result (λ c. c.items ≡ from_step e self.now) }
    {
        let steps = self.steps.as_slice();
        let place = last_place(steps, &e);
        Ok(steps[place..].to_vec(alloc)?)
    }
}

// The place of the event among these, each of which stands there once, and their number where it has none.
fn last_place(steps: &[Event], e: &Event) -> usize
    requires { IsApart steps.now }
    ensures place { result ≡ place_in steps.now e.now }
    ensures within { result ≤ length steps.now }
{
    let mut place = steps.len();
    while place > 0 {
        place -= 1;
        if is_same_event(&steps[place], e) {
            return place;
        }
    }
    steps.len()
}
