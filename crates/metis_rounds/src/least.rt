//! The least event that an event waits for.
ghost use Rattle.std.specs.Prelude.{◌≡◌, ◌<◌, ◌≤◌, None, ℕ, IfNone, IfSome, IsTrue, length, map};
ghost use Rattle.metis_lines.specs.Terms.{graph_over, is_event, last};
ghost use Rattle.metis_events.specs.Terms.{IsSlotThere, without_supplies};
ghost use Rattle.metis_rounds.specs.Terms.{HasAllBefore, HasEnded, HasTables, IsFirstLeft, IsLeastLeft, least_left, on_line_before, taken_of, use_at, use_event, with_left};

use crate::going::{is_taken, slots_at};
use crate::returns::holder_event;
use crate::tables::Tables;
use metis_events::events_are_ordered;
use metis_ids::{Event, LineIx, PairIx, StepIx};
use metis_lines::OverLines;

/// The least of the events that have to come before this one and are not taken. All lines before `first` are in their last stations.
pub fn least_before(
    over: &OverLines<'_>,
    tables: &Tables,
    taken: &[u32],
    first: u32,
    event: Event,
) -> Option<Event>
    requires tables { HasTables over.now tables.now }
    requires taken { length taken.now ≡ length over.now.lines.lines }
    requires first { (l : ℕ) → l < first → last (graph_over over.now) l < taken_of taken.now l }
    requires event { IsTrue (is_event (graph_over over.now) event) }
    ensures some { IfSome result (IsLeastLeft (graph_over over.now) taken.now event) }
    ensures none { IfNone result (HasAllBefore (graph_over over.now) taken.now event) }
{
    over.keeps_invariant();
    match event {
        Event::At(line, step) => {
            let on_line = left_on_line(taken, line, step);
            let slots = slots_at(over, &tables.uses, line, step);
            let least = least_holder(over, slots, taken, on_line);
            least_return(tables.returns.row(Event::At(line, step)), taken, least)
        }
        Event::End => {
            let line = first_unfinished(over, taken, first)?;
            Some(Event::At(line, over.last(line)))
        }
    }
}

/// The first line that is not in its last station.
pub fn first_unfinished(over: &OverLines<'_>, taken: &[u32], first: u32) -> Option<LineIx>
    requires taken { length taken.now ≡ length over.now.lines.lines }
    requires first { (l : ℕ) → l < first → last (without_supplies over.now.lines) l < taken_of taken.now l }
    ensures some { IfSome result (IsFirstLeft (without_supplies over.now.lines) taken.now) }
    ensures none { IfNone result (HasEnded (without_supplies over.now.lines) taken.now) }
{
    for number in first..over.count() {
        let line = LineIx(number);
        if taken[number as usize] <= over.last(line).0 {
            return Some(line);
        }
    }
    None
}

// The event before this one on its line, where it is not taken.
fn left_on_line(taken: &[u32], line: LineIx, step: StepIx) -> Option<Event>
    ensures { result ≡ least_left taken.now None (on_line_before line step) }
{
    if step.0 == 0 {
        return None;
    }
    with_left(taken, None, &Event::At(line, StepIx(step.0 - 1)))
}

// The least of the event so far and of those by which these slots come to their pairs, of which taken ones do not count.
fn least_holder(
    over: &OverLines<'_>,
    slots: &[(PairIx, u32)],
    taken: &[u32],
    so_far: Option<Event>,
) -> Option<Event>
    requires there { (k : ℕ) → k < length slots.now → (1 ≤ (use_at slots.now k).1) × IsSlotThere over.now.lines (use_at slots.now k).0 (use_at slots.now k).1 }
    ensures { result ≡ least_left taken.now so_far (map (use_event over.now.lines) slots.now) }
{
    let mut least = so_far;
    for slot in slots {
        least = with_left(taken, least, &holder_event(over, slot.0, slot.1));
    }
    least
}

// The least of the event so far and of these, of which taken ones do not count.
fn least_return(row: &[Event], taken: &[u32], so_far: Option<Event>) -> Option<Event>
    ensures { result ≡ least_left taken.now so_far row.now }
{
    let mut least = so_far;
    for event in row {
        least = with_left(taken, least, event);
    }
    least
}

// The lesser of the event so far and this one, which does not count if it is taken.
fn with_left(taken: &[u32], so_far: Option<Event>, e: &Event) -> Option<Event>
    ensures { result ≡ with_left taken.now so_far e.now }
{
    events_are_ordered();
    if is_taken(taken, *e) {
        return so_far;
    }
    match so_far {
        Some(least) => Some(if least < *e { least } else { *e }),
        None => Some(*e),
    }
}
