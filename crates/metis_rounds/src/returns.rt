//! Tables of return edges.
ghost use Rattle.std.specs.Prelude.{◌≡◌, ◌+◌, ◌<◌, ◌≤◌, ◌&&◌, ◌||◌, ℕ, [], length, IfOk, IsTrue, OnOk};
ghost use Rattle.std.specs.List.{list_any, slice_index_or};
ghost use Rattle.metis_ids.specs.declared.events.Event.{Event as EventValue};
ghost use Rattle.metis_ids.specs.declared.events.Event.TheVariants.{At};
ghost use Rattle.metis_lines.specs.Terms.{AbstractPlan, graph_over, is_end, is_return_of, leaving, line_at, line_supplies, same_event, slot_holding};
ghost use Rattle.metis_events.specs.Terms.{IsSlotThere, without_supplies};
ghost use Rattle.metis_rounds.specs.Terms.{Brings, HasGrown, HasMoved, HasReturns, HasRows, HasUses, IsUse, IsWithOwnLine, has_row, is_brought, row_at};

use crate::event_table::EventTable;
use crate::uses::Uses;
use metis_events::{leaving, step_count};
use metis_ids::{Event, LineIx, NoMemory, PairIx, StepIx};
use metis_lines::OverLines;
use std::alloc::Global;

/// The entry of a slot's line into the station that is the slot.
pub fn holder_event(over: &OverLines<'_>, p: PairIx, k: u32) -> Event
    requires low { 1 ≤ k }
    requires there { IsSlotThere over.now.lines p k }
    ensures { result ≡ At (slot_holding over.now.lines p k).0 (slot_holding over.now.lines p k).1 }
{
    let (line, step) = holder(over, p, k);
    Event::At(line, step)
}

// The line that is a slot, and the station there.
fn holder(over: &OverLines<'_>, p: PairIx, k: u32) -> (LineIx, StepIx)
    requires low { 1 ≤ k }
    requires there { IsSlotThere over.now.lines p k }
    ensures { result ≡ slot_holding over.now.lines p k }
{
    over.holder(p, k).unwrap()
}

/// For each event, those from which return edges lead into it. It goes twice over the lines, and once over the slots that
/// their stations take.
pub fn returns_of(alloc: Global, over: &OverLines<'_>, uses: &Uses) -> Result<EventTable, NoMemory>
    requires uses { HasUses over.now.universe over.now.support uses.now }
    ensures { IfOk result (HasReturns (graph_over over.now)) }
{
    let mut table = empty_table(alloc, over)?;
    for number in 0..over.count() {
        add_line_returns(&mut table, over, uses, LineIx(number))?;
    }
    Ok(table)
}

/// The table of returns after one more line, a line of its own for a station, from the table for the lines before it. What led to the
/// holder's leaving the station leads to the new line's; the rest is what the new line's own stations bring.
pub fn move_returns(
    alloc: Global,
    over: &OverLines<'_>,
    uses: &Uses,
    held: (LineIx, StepIx),
    table: &mut EventTable,
) -> Result<(), NoMemory>
    requires uses { HasUses over.now.universe over.now.support uses.now }
    requires before { (w : AbstractPlan) × HasReturns w table.old × IsWithOwnLine w (graph_over over.now) held.0 held.1 × HasMoved w (graph_over over.now) held.0 held.1 }
    ensures returns { OnOk result (HasReturns (graph_over over.now) table.new) }
    ensures grown { OnOk result (HasGrown table.old table.new (At held.0 (held.1 + 1))) }
{
    over.keeps_invariant();
    let line = LineIx(over.count() - 1);
    let (holder, place) = held;
    table.add_line(alloc, step_count(over, line))?;
    let moved = table.take(alloc, leaving(over, holder, place));
    table.replace(leaving(over, line, place), moved);
    add_line_returns(table, over, uses, line)
}

// A table with an empty list for each event of each line.
fn empty_table(alloc: Global, over: &OverLines<'_>) -> Result<EventTable, NoMemory>
    ensures rows { IfOk result (HasRows (without_supplies over.now.lines)) }
    ensures empty { IfOk result (λ t. (f : EventValue) → row_at t f ≡ []) }
{
    let mut table = EventTable::new(alloc);
    for number in 0..over.count() {
        table.add_line(alloc, step_count(over, LineIx(number)))?;
    }
    Ok(table)
}

// Adds what the line's stations bring.
fn add_line_returns(
    table: &mut EventTable,
    over: &OverLines<'_>,
    uses: &Uses,
    line: LineIx,
) -> Result<(), NoMemory>
    requires uses { HasUses over.now.universe over.now.support uses.now }
    requires line { line < length over.now.lines.lines }
    requires rows { HasRows (without_supplies over.now.lines) table.old }
    ensures { OnOk result (Brings (λ e f. list_any (is_return_of (without_supplies over.now.lines) e f) (line_supplies over.now.universe over.now.support over.now.lines line)) table.old table.new) }
{
    over.keeps_invariant();
    for station in 0..over.last(line).0 + 1 {
        let station = StepIx(station);
        let taken = uses.of_pair(over.station(line, station));
        add_station_returns(table, over, line, station, taken)?;
    }
    Ok(())
}

// Adds what one station brings, which takes these slots.
fn add_station_returns(
    table: &mut EventTable,
    over: &OverLines<'_>,
    line: LineIx,
    station: StepIx,
    taken: &[(PairIx, u32)],
) -> Result<(), NoMemory>
    requires line { line < length over.now.lines.lines }
    requires station { station < length (line_at over.now.lines line) }
    requires rows { HasRows (without_supplies over.now.lines) table.old }
    requires uses { (i : ℕ) → i < length taken.now → IsUse over.now.lines (slice_index_or taken.now i (0, 0)) }
    ensures { OnOk result (Brings (λ e f. list_any (is_brought over.now.lines (leaving (without_supplies over.now.lines) line station) e f) taken.now) table.old table.new) }
{
    for (provider, slot) in taken {
        let (other, place) = holder(over, *provider, *slot);
        let from = leaving(over, line, station);
        push_return(table, from, leaving(over, other, place))?;
    }
    Ok(())
}

// Adds an event to the list of another, unless that is the end.
fn push_return(table: &mut EventTable, from: Event, to: Event) -> Result<(), NoMemory>
    requires { IsTrue (is_end to || has_row table.old to) }
    ensures { OnOk result (Brings (λ e f. same_event from e && same_event to f) table.old table.new) }
{
    match to {
        Event::At(_, _) => table.push(to, from),
        Event::End => Ok(()),
    }
}
