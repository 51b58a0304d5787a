//! The first fault of rows.
ghost use Rattle.std.specs.Prelude.{◌≡◌, ◌+◌, ◌<◌, ◌≤◌, ◌^◌, [], length, not, position, flat_map, option_map, IfOk};
ghost use Rattle.std.specs.List.{All};
ghost use Rattle.std.specs.Option.{option_or};
ghost use Rattle.std.specs.Str.{bytes_eq};
ghost use Rattle.std.specs.String.{string_bytes};
ghost use Rattle.metis_universe.specs.Terms.{AreNamed, RowsFit, StateFits, TypeFits, demand_fault, fault_after, first_fault, first_from, has_state, head_fault, is_between, is_name, limit_fault, link_fault, names_needed, names_of, next_fault, port_fault, ports_of, ports_of_state, ports_of_type, require_total, state_fault, state_total, state_twice, texts, type_fault, unless};
ghost use Rattle.metis_universe.specs.declared.faults.RowFault.TheVariants.{TypeTwice};
ghost use Rattle.metis_universe.specs.declared.faults.LimitKind.TheVariants.{Requires};

use crate::faults::{LimitKind, RowFault};
use crate::limits::{MOST_DEMANDED, MOST_PAIRS, MOST_PORTS, MOST_REQUIRED, MOST_STATES};
use crate::names::is_name;
use crate::needs::{count_total, require_total};
use crate::rows::{NeedRow, StateRow, TypeRow};
use crate::seen::SeenNames;
use std::alloc::{AllocError, Global};

/// The fault, unless the test passed.
fn unless(passes: bool, fault: RowFault) -> Option<RowFault>
    ensures { result ≡ unless passes fault }
{
    if passes { None } else { Some(fault) }
}

/// A fault where more are counted than the limit allows.
fn fault_of_count(kind: LimitKind, most: u64, count: u64) -> Option<RowFault>
    ensures { result ≡ limit_fault kind most count }
{
    if most < count {
        Some(RowFault::Limit(kind, count))
    } else {
        None
    }
}

/// Whether a state of the type has the name.
fn has_state(row: &TypeRow, name: &str) -> bool
    ensures { result ≡ has_state row.now name.now }
{
    row.states.iter().any(|state| name == state.name.as_str())
}

/// The place of the first that is no name.
fn place_of_no_name(names: &[String]) -> Option<usize>
    ensures { result ≡ position (λ name. not (is_name (string_bytes name))) names.now }
{
    names.iter().position(|name| !is_name(name.as_str()))
}

/// The place of the first entry whose port's name is none.
fn place_of_no_port(needs: &[NeedRow]) -> Option<usize>
    ensures { result ≡ position (λ n. not (is_name n.port)) needs.now }
{
    needs.iter().position(|need| !is_name(need.port.as_str()))
}

/// The place of the first entry whose count is not 1 to 16.
fn place_of_bad_count(needs: &[NeedRow]) -> Option<usize>
    ensures { result ≡ position (λ n. not (is_between 1 16 n.count)) needs.now }
{
    needs
        .iter()
        .position(|need| need.count < 1 || MOST_DEMANDED < need.count)
}

/// The place of the first name that no state of the type has.
fn place_of_unknown(row: &TypeRow, names: &[String]) -> Option<usize>
    ensures { result ≡ position (λ name. not (has_state row.now (string_bytes name))) names.now }
{
    names.iter().position(|name| !has_state(row, name.as_str()))
}

/// The place of the first state of this name.
pub fn place_of_state(states: &[StateRow], name: &str) -> Option<usize>
    ensures { result ≡ position (λ state. bytes_eq name.now state.name) states.now }
{
    states.iter().position(|state| name == state.name.as_str())
}

/// The first of these ports whose name is none, where they are counted from the place on.
fn fault_of_ports(t: u32, s: u32, place: u32, names: &[String]) -> Option<RowFault>
    requires { place + length names.now < 2 ^ 32 }
    ensures { result ≡ first_from place (port_fault t s) (texts names.now) }
{
    let k = place_of_no_name(names)?;
    Some(RowFault::PortName(t, s, place + k as u32))
}

/// The first of these entries whose port's name is none, where they are counted from the place on.
fn fault_of_needed(t: u32, s: u32, place: u32, needs: &[NeedRow]) -> Option<RowFault>
    requires { place + length needs.now < 2 ^ 32 }
    ensures { result ≡ first_from place (port_fault t s) (names_needed needs.now) }
{
    let k = place_of_no_port(needs)?;
    Some(RowFault::PortName(t, s, place + k as u32))
}

/// The first of these entries whose count is not 1 to 16.
fn fault_of_demands(t: u32, s: u32, needs: &[NeedRow]) -> Option<RowFault>
    requires { length needs.now < 2 ^ 32 }
    ensures { result ≡ first_from 0 (demand_fault t s) needs.now }
{
    let k = place_of_bad_count(needs)?;
    Some(RowFault::Demand(t, s, k as u32))
}

/// A state before this place has the state's name.
fn fault_of_earlier_state(row: &TypeRow, t: u32, s: u32, state: &StateRow) -> Option<RowFault>
    requires fits { TypeFits row.now }
    requires place { s ≤ length row.now.states }
    ensures { result ≡ state_twice row.now t s state.now }
{
    let earlier = &row.states[..s as usize];
    let first = place_of_state(earlier, state.name.as_str())?;
    Some(RowFault::StateTwice(t, s, first as u32))
}

/// The first of the state's ports whose name is none. There is nothing to look for where all ports are known to be named by names.
fn fault_of_port_names(t: u32, s: u32, state: &StateRow, named: bool) -> Option<RowFault>
    requires state { StateFits state.now }
    requires named { AreNamed named (ports_of_state state.now) }
    ensures { result ≡ option_or (first_from 0 (port_fault t s) state.now.provide) (first_from (length state.now.provide) (port_fault t s) (names_needed state.now.require)) }
{
    if named {
        return None;
    }
    let provided = fault_of_ports(t, s, 0, &state.provide);
    let required = fault_of_needed(t, s, state.provide.len() as u32, &state.require);
    provided.or(required)
}

/// The first fault of a state, its next states aside.
fn fault_of_state(row: &TypeRow, t: u32, s: u32, state: &StateRow, named: bool) -> Option<RowFault>
    requires row { TypeFits row.now }
    requires place { s ≤ length row.now.states }
    requires state { StateFits state.now }
    requires named { AreNamed named (ports_of_state state.now) }
    ensures { result ≡ state_fault row.now t s state.now }
{
    let name = unless(is_name(state.name.as_str()), RowFault::StateName(t, s));
    let twice = fault_of_earlier_state(row, t, s, state);
    let ports = fault_of_port_names(t, s, state, named);
    let demands = fault_of_demands(t, s, &state.require);
    name.or(twice.or(ports.or(demands)))
}

/// The first fault of the type's states, their next states aside.
fn fault_of_states(row: &TypeRow, t: u32, named: bool) -> Option<RowFault>
    requires fits { TypeFits row.now }
    requires named { AreNamed named (ports_of_type row.now) }
    ensures { result ≡ first_from 0 (state_fault row.now t) row.now.states }
{
    for (s, state) in row.states.iter().enumerate() {
        let fault = fault_of_state(row, t, s as u32, state, named);
        if fault.is_some() {
            return fault;
        }
    }
    None
}

/// The first next state of the state that is none of the type's states.
fn fault_of_next(row: &TypeRow, t: u32, s: u32, state: &StateRow) -> Option<RowFault>
    requires { StateFits state.now }
    ensures { result ≡ next_fault row.now t s state.now }
{
    let k = place_of_unknown(row, &state.next)?;
    Some(RowFault::UnknownNext(t, s, k as u32))
}

/// The first next state of any state that is none of the type's states.
fn fault_of_nexts(row: &TypeRow, t: u32) -> Option<RowFault>
    requires { TypeFits row.now }
    ensures { result ≡ first_from 0 (next_fault row.now t) row.now.states }
{
    for (s, state) in row.states.iter().enumerate() {
        let fault = fault_of_next(row, t, s as u32, state);
        if fault.is_some() {
            return fault;
        }
    }
    None
}

/// The initial state is none of the type's states, or a next state is none.
fn fault_of_links(row: &TypeRow, t: u32) -> Option<RowFault>
    requires { TypeFits row.now }
    ensures { result ≡ link_fault t row.now }
{
    let initial = unless(has_state(row, row.initial.as_str()), RowFault::NoInitial(t));
    initial.or(fault_of_nexts(row, t))
}

/// A type before this one has the type's name.
fn fault_of_earlier_type(row: &TypeRow, t: u32, seen: &SeenNames) -> Option<RowFault>
    requires { length seen.now < 2 ^ 32 }
    ensures { result ≡ option_map (λ first. TypeTwice t first) (position (bytes_eq row.now.name) seen.now) }
{
    let first = seen.number_of(row.name.as_str())?;
    Some(RowFault::TypeTwice(t, first as u32))
}

/// The type itself: its name, an earlier type of that name, and how many states it has.
fn fault_of_head(row: &TypeRow, t: u32, seen: &SeenNames) -> Option<RowFault>
    requires fits { TypeFits row.now }
    requires earlier { length seen.now < 2 ^ 32 }
    ensures { result ≡ head_fault (position (bytes_eq row.now.name) seen.now) t row.now }
{
    let name = unless(is_name(row.name.as_str()), RowFault::TypeName(t));
    let twice = fault_of_earlier_type(row, t, seen);
    let states = fault_of_count(LimitKind::States, MOST_STATES, row.states.len() as u64);
    name.or(twice.or(states))
}

/// More providers are demanded than a type may. Repeated entries are looked for only where all entries ask for more than that.
fn fault_of_required(alloc: Global, row: &TypeRow) -> Result<Option<RowFault>, AllocError>
    requires fits { TypeFits row.now }
    requires few { length row.now.states ≤ 64 }
    requires counts { All (λ state. All (λ n. n.count ≤ 16) state.require) row.now.states }
    ensures { IfOk result (λ found. found ≡ limit_fault Requires 128 (require_total row.now)) }
{
    if count_total(row) <= MOST_REQUIRED {
        return Ok(None);
    }
    let total = require_total(alloc, row)?;
    Ok(fault_of_count(LimitKind::Requires, MOST_REQUIRED, total))
}

/// The fault of a type, where the set has the names of the types before it.
fn fault_of_type(
    alloc: Global,
    row: &TypeRow,
    t: u32,
    seen: &SeenNames,
    named: bool,
) -> Result<Option<RowFault>, AllocError>
    requires fits { TypeFits row.now }
    requires earlier { length seen.now < 2 ^ 32 }
    requires named { AreNamed named (ports_of_type row.now) }
    ensures { IfOk result (λ found. found ≡ fault_after (position (bytes_eq row.now.name) seen.now) t row.now) }
{
    let head = fault_of_head(row, t, seen);
    if head.is_some() {
        return Ok(head);
    }
    let states = fault_of_states(row, t, named);
    if states.is_some() {
        return Ok(states);
    }
    let required = fault_of_required(alloc, row)?;
    Ok(required.or(fault_of_links(row, t)))
}

/// The first fault of any type, where no name is seen yet. Where there is none, all types' names are seen.
fn fault_of_types(
    alloc: Global,
    rows: &[TypeRow],
    seen: &mut SeenNames,
    named: bool,
) -> Result<Option<RowFault>, AllocError>
    requires none { seen.old ≡ [] }
    requires fits { RowsFit rows.now }
    requires named { AreNamed named (flat_map ports_of_type rows.now) }
    ensures fault { IfOk result (λ found. found ≡ first_from 0 (type_fault rows.now) rows.now) }
    ensures names { IfOk result (λ found. found ≡ None → seen.new ≡ names_of rows.now) }
{
    for (t, row) in rows.iter().enumerate() {
        let fault = fault_of_type(alloc, row, t as u32, seen, named)?;
        if fault.is_some() {
            return Ok(fault);
        }
        let _number = seen.see(alloc, row.name.as_str())?;
    }
    Ok(None)
}

/// How many states all types have.
fn state_total(rows: &[TypeRow]) -> u64
    requires { state_total rows.now < 2 ^ 64 }
    ensures { result ≡ state_total rows.now }
{
    rows.iter().map(|row| row.states.len() as u64).sum()
}

/// The first fault of the rows, whose ports are these, where no type's name is seen yet. Where there is none, all types' names are seen.
pub fn first_fault(
    alloc: Global,
    rows: &[TypeRow],
    ports: &SeenNames,
    kinds: &mut SeenNames,
) -> Result<Option<RowFault>, AllocError>
    requires fits { RowsFit rows.now }
    requires ports { ports.now ≡ ports_of rows.now }
    requires none { kinds.old ≡ [] }
    ensures fault { IfOk result (λ found. found ≡ first_fault rows.now) }
    ensures names { IfOk result (λ found. found ≡ None → kinds.new ≡ names_of rows.now) }
{
    let unnamed = place_of_no_name(ports.as_slice());
    let types = fault_of_types(alloc, rows, kinds, unnamed.is_none())?;
    let pairs = fault_of_count(LimitKind::Pairs, MOST_PAIRS, state_total(rows));
    let ports = fault_of_count(LimitKind::Ports, MOST_PORTS, ports.count() as u64);
    Ok(types.or(pairs.or(ports)))
}
