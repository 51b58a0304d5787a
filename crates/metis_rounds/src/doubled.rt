//! Which pair a cycle doubles.
ghost use Rattle.std.specs.Prelude.{◌≡◌, ◌<◌, ◌&&◌, None, Some, IsTrue, length, nat_le, nat_lt, if◌then◌else◌};
ghost use Rattle.std.specs.List.{All};
ghost use Rattle.metis_lines.specs.Terms.{graph_over, is_among, is_cycle, is_event, is_return_into_move, line_at};
ghost use Rattle.metis_rounds.specs.Terms.{HasReturns, doubled_by, left_by, place_after, row_at};

use crate::event_table::EventTable;
use metis_ids::{Event, LineIx, PairIx, StepIx};
use metis_lines::OverLines;

/// The pair that is left by the first move of the cycle with a return edge into it from the event that follows there. Each cycle
/// has such a move.
pub fn doubled_by(over: &OverLines<'_>, returns: &EventTable, cycle: &[Event]) -> PairIx
    requires returns { HasReturns (graph_over over.now) returns.now }
    requires events { All (λ e. IsTrue (is_event (graph_over over.now) e)) cycle.now }
    requires cycle { IsTrue (is_cycle (graph_over over.now) cycle.now) }
    ensures { doubled_by (graph_over over.now) cycle.now ≡ Some result }
{
    over.keeps_invariant();
    match first_left(over, returns, cycle) {
        Some(pair) => pair,
        None => unreachable!(),
    }
}

// The first pair that a move among these events leaves by a return, if there is such a move.
fn first_left(over: &OverLines<'_>, returns: &EventTable, events: &[Event]) -> Option<PairIx>
    requires returns { HasReturns (graph_over over.now) returns.now }
    requires events { All (λ e. IsTrue (is_event (graph_over over.now) e)) events.now }
    ensures { result ≡ doubled_by (graph_over over.now) events.now }
{
    for place in 0..events.len() {
        let next = events[place_after(events.len(), place)];
        let left = left_after(over, returns, next, events[place]);
        if left.is_some() {
            return left;
        }
    }
    None
}

// The place that follows around a list of so many.
fn place_after(count: usize, place: usize) -> usize
    requires { place < count }
    ensures next { result ≡ place_after count place }
    ensures low { result < count }
{
    if place + 1 < count { place + 1 } else { 0 }
}

// The pair that the second event leaves, where it is a move with a return edge from the first.
fn left_after(over: &OverLines<'_>, returns: &EventTable, from: Event, to: Event) -> Option<PairIx>
    requires returns { HasReturns (graph_over over.now) returns.now }
    requires event { IsTrue (is_event (graph_over over.now) to) }
    ensures { result ≡ (if is_return_into_move (graph_over over.now) from to then left_by (graph_over over.now) to else None) }
{
    over.keeps_invariant();
    let Event::At(line, step) = to else {
        return None;
    };
    if is_move(over, line, step) && returns_into(returns, from, to) {
        return Some(over.station(line, StepIx(step.0 - 1)));
    }
    None
}

// Whether the step enters a station from another.
fn is_move(over: &OverLines<'_>, line: LineIx, step: StepIx) -> bool
    requires { line < length over.now.lines.lines }
    ensures { result ≡ (nat_le 1 step && nat_lt step (length (line_at over.now.lines line))) }
{
    1 <= step.0 && step.0 <= over.last(line).0
}

// Whether a return edge leads from the first event into the second.
fn returns_into(returns: &EventTable, from: Event, to: Event) -> bool
    ensures { result ≡ is_among (row_at returns.now to) from }
{
    returns.row(to).iter().any(|event| *event == from)
}
