//! Lists of events, one for each event of each line.
ghost use Rattle.std.specs.Prelude.{◌≡◌, ◌+◌, ◌<◌, ◌==◌, ◌&&◌, ◌||◌, ◌++◌, ◌∷◌, ℕ, nat_lt, [], length, replicate, slice_index_or, slice_set, IsFalse, IsTrue, IfOk, OnOk};
ghost use Rattle.metis_ids.specs.declared.events.Event.{Event as EventValue};
ghost use Rattle.metis_ids.specs.declared.events.Event.TheVariants.{At};
ghost use Rattle.metis_lines.specs.Terms.{same_event};
ghost use Rattle.metis_rounds.specs.Terms.{has_row, row_at};

use metis_ids::{Event, NoMemory, StepIx};
use std::alloc::Global;
use std::marker::Model;
use std::mem;

/// Some events. Contracts see them as their list.
#[derive(Drop)]
struct EventRow {
    events: Vec<Event>,
}

impl Model for EventRow {
    ghost use Rattle.std.specs.Prelude.{List};
    ghost use Rattle.metis_ids.specs.declared.events.Event.{Event};

    ghost Value = { List Event };

    ghost view = { λ a. a.events.items };
}

impl EventRow {
    // Appends an event.
    fn push(&mut self, item: Event) -> Result<(), NoMemory>
        ensures { OnOk result (self.new ≡ self.old ++ item ∷ []) }
    {
        self.events.push(item)?;
        Ok(())
    }

    // Puts these events in place of those that were there, and answers those.
    fn replace(&mut self, events: Vec<Event>) -> Vec<Event>
        ensures old { result.items ≡ self.old }
        ensures new { self.new ≡ events.items }
    {
        mem::replace(&mut self.events, events)
    }
}

/// The lists of one line.
#[derive(Drop)]
struct LineRows {
    rows: Vec<EventRow>,
}

impl Model for LineRows {
    ghost use Rattle.std.specs.Prelude.{List};
    ghost use Rattle.metis_ids.specs.declared.events.Event.{Event};

    ghost Value = { List (List Event) };

    ghost view = { λ a. a.rows.items };
}

impl LineRows {
    // A row of empty lists, one a step.
    #[tactic(auto, using(std::proofs::lemmas::List::replicate_more))]
    fn empty(alloc: Global, steps: u32) -> Result<LineRows, NoMemory>
        ensures { IfOk result (λ line. line ≡ replicate steps []) }
    {
        let mut rows = Vec::new(alloc);
        for _ in 0..steps {
            rows.push(EventRow {
                events: Vec::new(alloc),
            })?;
        }
        Ok(LineRows { rows })
    }

    // The list of a step.
    fn row(&self, j: StepIx) -> &[Event]
        ensures { result.now ≡ slice_index_or self.now j [] }
    {
        match self.rows.get(j.0 as usize) {
            Some(row) => row.events.as_slice(),
            None => &[],
        }
    }

    // Appends an event to the list of a step.
    fn push(&mut self, j: StepIx, item: Event) -> Result<(), NoMemory>
        requires { j < length self.old }
        ensures { OnOk result (self.new ≡ slice_set self.old j (slice_index_or self.old j [] ++ item ∷ [])) }
    {
        self.rows[j.0 as usize].push(item)
    }

    // Puts these events in place of those of a step, and answers those.
    fn replace(&mut self, j: StepIx, events: Vec<Event>) -> Vec<Event>
        requires { j < length self.old }
        ensures old { result.items ≡ slice_index_or self.old j [] }
        ensures new { self.new ≡ slice_set self.old j events.items }
    {
        self.rows[j.0 as usize].replace(events)
    }
}

/// A list of events for each event of each line. Contracts see it by line and by step.
#[derive(Drop)]
pub struct EventTable {
    lines: Vec<LineRows>,
}

impl Model for EventTable {
    ghost use Rattle.std.specs.Prelude.{List};
    ghost use Rattle.metis_ids.specs.declared.events.Event.{Event};

    ghost Value = { List (List (List Event)) };

    ghost view = { λ a. a.lines.items };
}

impl EventTable {
    /// A table of no lines.
    pub fn new(alloc: Global) -> EventTable
        ensures { result ≡ [] }
    {
        EventTable {
            lines: Vec::new(alloc),
        }
    }

    /// Adds a line with an empty list for each of so many steps.
    pub fn add_line(&mut self, alloc: Global, steps: u32) -> Result<(), NoMemory>
        ensures count { OnOk result (length self.new ≡ length self.old + 1) }
        ensures rows { OnOk result ((e : EventValue) → row_at self.new e ≡ row_at self.old e) }
        ensures has { OnOk result ((l j : ℕ) → has_row self.new (At l j) ≡ (has_row self.old (At l j) || ((l == length self.old) && nat_lt j steps))) }
    {
        self.lines.push(LineRows::empty(alloc, steps)?)?;
        Ok(())
    }

    /// The list of an event, empty where the table has none for it.
    pub fn row(&self, e: Event) -> &[Event]
        ensures { result.now ≡ row_at self.now e }
    {
        match e {
            Event::At(l, j) => match self.lines.get(l.0 as usize) {
                Some(line) => line.row(j),
                None => &[],
            },
            Event::End => &[],
        }
    }

    /// Appends an event to the list of another.
    pub fn push(&mut self, e: Event, item: Event) -> Result<(), NoMemory>
        requires { IsTrue (has_row self.old e) }
        ensures there { OnOk result (row_at self.new e ≡ row_at self.old e ++ item ∷ []) }
        ensures others { OnOk result ((f : EventValue) → IsFalse (same_event f e) → row_at self.new f ≡ row_at self.old f) }
        ensures count { OnOk result (length self.new ≡ length self.old) }
        ensures has { OnOk result ((f : EventValue) → has_row self.new f ≡ has_row self.old f) }
    {
        match e {
            Event::At(l, j) => self.lines[l.0 as usize].push(j, item),
            Event::End => Ok(()),
        }
    }

    /// Puts these events in place of the list of an event, and answers that list.
    pub fn replace(&mut self, e: Event, events: Vec<Event>) -> Vec<Event>
        requires { IsTrue (has_row self.old e) }
        ensures old { result.items ≡ row_at self.old e }
        ensures there { row_at self.new e ≡ events.items }
        ensures others { (f : EventValue) → IsFalse (same_event f e) → row_at self.new f ≡ row_at self.old f }
        ensures count { length self.new ≡ length self.old }
        ensures has { (f : EventValue) → has_row self.new f ≡ has_row self.old f }
    {
        match e {
            Event::At(l, j) => self.lines[l.0 as usize].replace(j, events),
            Event::End => events,
        }
    }

    /// Takes the list of an event out, so that it is empty.
    pub fn take(&mut self, alloc: Global, e: Event) -> Vec<Event>
        requires { IsTrue (has_row self.old e) }
        ensures old { result.items ≡ row_at self.old e }
        ensures there { row_at self.new e ≡ [] }
        ensures others { (f : EventValue) → IsFalse (same_event f e) → row_at self.new f ≡ row_at self.old f }
        ensures count { length self.new ≡ length self.old }
        ensures has { (f : EventValue) → has_row self.new f ≡ has_row self.old f }
    {
        self.replace(e, Vec::new(alloc))
    }
}
