//! All edges of the graph of life lines.
ghost use Rattle.std.specs.Prelude.{◌≡◌, ◌<◌, ◌≤◌, ℕ, OnOk, length, map};
ghost use Rattle.std.specs.List.{flat_map, range_with_len};
ghost use Rattle.metis_lines.specs.Terms.{leaving, line_at, line_supplies, slot_holding, station_supplies, step_count, supplies_of, supply_from};
ghost use Rattle.metis_events.specs.Terms.{Adds, IsSlotThere, go_edges, return_edges, supply_edges, without_supplies};

use crate::edges::{EdgeKind, EdgeList};
use metis_ids::{Event, LineIx, NoMemory, PairIx, StepIx};
use metis_lines::OverLines;

/// How many events the line has.
pub fn step_count(over: &OverLines<'_>, line: LineIx) -> u32
    requires { line < length over.now.lines.lines }
    ensures count { result ≡ step_count (without_supplies over.now.lines) line }
    ensures some { 1 ≤ result }
    ensures few { result ≤ 65 }
{
    let stations = over.last(line).0 + 1;
    if over.is_target(line) {
        stations
    } else {
        stations + 1
    }
}

/// What the line leaves the station by.
pub fn leaving(over: &OverLines<'_>, line: LineIx, station: StepIx) -> Event
    requires line { line < length over.now.lines.lines }
    requires station { station < length (line_at over.now.lines line) }
    ensures { result ≡ leaving (without_supplies over.now.lines) line station }
{
    let last = over.last(line);
    if over.is_target(line) && station == last {
        Event::End
    } else {
        Event::At(line, StepIx(station.0 + 1))
    }
}

/// Adds the go edges of all lines.
pub fn add_go_edges(edges: &mut EdgeList, over: &OverLines<'_>) -> Result<(), NoMemory>
    ensures { OnOk result (Adds (flat_map (go_edges (without_supplies over.now.lines)) (range_with_len 0 (length over.now.lines.lines))) edges.old edges.new) }
{
    for number in 0..over.count() {
        add_go_edges_of(edges, over, LineIx(number))?;
    }
    Ok(())
}

// From each event of the line to its next one, and from the entry into its last station to the end.
fn add_go_edges_of(edges: &mut EdgeList, over: &OverLines<'_>, line: LineIx) -> Result<(), NoMemory>
    requires { line < length over.now.lines.lines }
    ensures { OnOk result (Adds (go_edges (without_supplies over.now.lines) line) edges.old edges.new) }
{
    for step in 0..step_count(over, line) - 1 {
        let next = Event::At(line, StepIx(step + 1));
        edges.add(Event::At(line, StepIx(step)), EdgeKind::Go, next)?;
    }
    edges.add(Event::At(line, over.last(line)), EdgeKind::Go, Event::End)?;
    Ok(())
}

/// Adds the start and return edges of all supplies.
pub fn add_supplies(edges: &mut EdgeList, over: &OverLines<'_>) -> Result<(), NoMemory>
    ensures { OnOk result (Adds (flat_map (supply_edges (without_supplies over.now.lines)) (supplies_of over.now.universe over.now.support over.now.lines)) edges.old edges.new) }
{
    for number in 0..over.count() {
        add_line_supplies(edges, over, LineIx(number))?;
    }
    Ok(())
}

// Adds those of the supplies of the line's stations.
fn add_line_supplies(
    edges: &mut EdgeList,
    over: &OverLines<'_>,
    line: LineIx,
) -> Result<(), NoMemory>
    requires { line < length over.now.lines.lines }
    ensures { OnOk result (Adds (flat_map (supply_edges (without_supplies over.now.lines)) (line_supplies over.now.universe over.now.support over.now.lines line)) edges.old edges.new) }
{
    for station in 0..over.last(line).0 + 1 {
        add_station_supplies(edges, over, line, StepIx(station))?;
    }
    Ok(())
}

// Adds those of the supplies of one station.
fn add_station_supplies(
    edges: &mut EdgeList,
    over: &OverLines<'_>,
    line: LineIx,
    station: StepIx,
) -> Result<(), NoMemory>
    requires line { line < length over.now.lines.lines }
    requires station { station < length (line_at over.now.lines line) }
    ensures { OnOk result (Adds (flat_map (supply_edges (without_supplies over.now.lines)) (station_supplies over.now.universe over.now.support over.now.lines line station)) edges.old edges.new) }
{
    over.keeps_invariant();
    let universe = over.universe();
    let pair = over.station(line, station);
    for port in universe.requires_(pair) {
        if let Some(provider) = over.support().provider(*port) {
            let demand = universe.demand(pair, *port);
            add_slot_supplies(edges, over, line, station, provider, demand)?;
        }
    }
    Ok(())
}

// Adds those of the supplies of one port: one for each slot of its provider up to what the station demands.
fn add_slot_supplies(
    edges: &mut EdgeList,
    over: &OverLines<'_>,
    line: LineIx,
    station: StepIx,
    provider: PairIx,
    demand: u32,
) -> Result<(), NoMemory>
    requires line { line < length over.now.lines.lines }
    requires station { station < length (line_at over.now.lines line) }
    requires slots { (k : ℕ) → 1 ≤ k → k ≤ demand → IsSlotThere over.now.lines provider k }
    ensures { (r : ℕ) → OnOk result (Adds (flat_map (supply_edges (without_supplies over.now.lines)) (map (λ k. supply_from line station r k (slot_holding over.now.lines provider k)) (range_with_len 1 demand))) edges.old edges.new) }
{
    for slot in 0..demand {
        let holder = over.holder(provider, slot + 1).unwrap();
        add_supply(edges, over, (line, station), holder)?;
    }
    Ok(())
}

// Adds the edges of a supply: the station starts after the place is entered, and the place is left after the station.
fn add_supply(
    edges: &mut EdgeList,
    over: &OverLines<'_>,
    taker: (LineIx, StepIx),
    holder: (LineIx, StepIx),
) -> Result<(), NoMemory>
    requires taker { taker.0 < length over.now.lines.lines }
    requires station { taker.1 < length (line_at over.now.lines taker.0) }
    requires holder { holder.0 < length over.now.lines.lines }
    requires place { holder.1 < length (line_at over.now.lines holder.0) }
    ensures { (r k : ℕ) → OnOk result (Adds (supply_edges (without_supplies over.now.lines) (supply_from taker.0 taker.1 r k holder)) edges.old edges.new) }
{
    let (line, station) = taker;
    let (other, place) = holder;
    let entry = Event::At(line, station);
    edges.add(Event::At(other, place), EdgeKind::Start, entry)?;
    add_return(
        edges,
        leaving(over, line, station),
        leaving(over, other, place),
    )?;
    Ok(())
}

// Adds the return edge, but not one into the end.
fn add_return(edges: &mut EdgeList, from: Event, to: Event) -> Result<(), NoMemory>
    ensures { OnOk result (Adds (return_edges from to) edges.old edges.new) }
{
    match to {
        Event::At(_, _) => edges.add(from, EdgeKind::Return, to),
        Event::End => Ok(()),
    }
}
