//! The tables of rows that have no fault.
ghost use Rattle.std.specs.Prelude.{◌≡◌, ◌+◌, ◌≤◌, ◌<◌, ◌^◌, ◌++◌, ◌∷◌, [], ℕ, List, length, map, flat_map, replicate, None, IfOk, OnOk};
ghost use Rattle.std.specs.List.{All};
ghost use Rattle.metis_universe.specs.Terms.{IsBySight, IsOfVersion, IsTable, ascending, first_fault, initial_from, initials_from, kinds_of, names_of, number_of, number_within, pair_from, pairs_from, pairs_of_type, port_rows, ports_of, ports_of_state, ports_of_type, rows_from, state_number, texts, universe_from, universe_of, unnamed, with_names, with_pair};

use super::{PairRow, PortRow, Universe};
use crate::check::place_of_state;
use crate::needs::further_numbers;
use crate::numbered::NumberedNames;
use crate::rows::{StateRow, TypeRow};
use crate::seen::SeenNames;
use crate::sights::Sights;
use metis_ids::{PairIx, PortIx, TypeIx};
use std::alloc::{AllocError, Global};

/// The numbers, ascending and each once.
fn in_order(mut numbers: Vec<PortIx>) -> Vec<PortIx>
    ensures { result.items ≡ ascending numbers.items }
{
    numbers.sort_unstable();
    numbers.dedup();
    numbers
}

/// The pairs, ascending and each once.
fn pairs_in_order(mut pairs: Vec<PairIx>) -> Vec<PairIx>
    ensures { result.items ≡ ascending pairs.items }
{
    pairs.sort_unstable();
    pairs.dedup();
    pairs
}

/// The numbers of these ports, ascending and each once.
fn port_numbers(alloc: Global, entries: &[PortIx]) -> Result<Vec<PortIx>, AllocError>
    ensures { IfOk result (λ numbers. numbers.items ≡ ascending entries.now) }
{
    Ok(in_order(entries.to_vec(alloc)?))
}

/// The place of the state of this name in its type.
fn state_number(row: &TypeRow, name: &str) -> u32
    requires { length row.now.states < 2 ^ 32 }
    ensures { result ≡ state_number row.now name.now }
{
    place_of_state(&row.states, name).unwrap_or(0) as u32
}

/// The pairs of these states, ascending, where the type's first pair is this one.
fn next_numbers(
    alloc: Global,
    row: &TypeRow,
    first: u32,
    names: &[String],
) -> Result<Vec<PairIx>, AllocError>
    requires { first + length row.now.states < 2 ^ 32 }
    ensures { IfOk result (λ numbers. numbers.items ≡ ascending (map (λ name. first + state_number row.now name) (texts names.now))) }
{
    let mut numbers = Vec::with_capacity(alloc, names.len())?;
    for name in names {
        numbers.push(PairIx(first + state_number(row, name.as_str())))?;
    }
    Ok(pairs_in_order(numbers))
}

/// A type whose pairs are made.
#[derive(Clone, Copy)]
struct Block<'a> {
    kind: TypeIx,
    /// Its first pair.
    first: u32,
    row: &'a TypeRow,
}

/// The pair of a type and one of its states, whose entries have the ports of these numbers. It has no name yet.
fn pair_of(
    alloc: Global,
    ports: &NumberedNames,
    block: &Block,
    state: &StateRow,
    entries: &[PortIx],
) -> Result<PairRow, AllocError>
    requires first { block.now.first + length block.now.row.now.states < 2 ^ 32 }
    requires entries { entries.now ≡ map (number_of ports.now) (ports_of_state state.now) }
    ensures { IfOk result (λ pair. pair ≡ unnamed (pair_from ports.now block.now.kind block.now.first block.now.row.now state.now)) }
{
    let (provided, required) = entries.split_at(state.provide.len());
    let required = port_numbers(alloc, required)?;
    Ok(PairRow {
        kind: block.kind,
        state: String::new(alloc),
        provided: port_numbers(alloc, provided)?,
        further: further_numbers(alloc, ports, &state.require, &required)?,
        required,
        next: next_numbers(alloc, block.row, block.first, &state.next)?,
    })
}

/// Adds the pairs of a type, with no names yet. Its entries come first of these, and it gives the entries behind them.
fn add_pairs<'e>(
    alloc: Global,
    pairs: &mut Vec<PairRow>,
    ports: &NumberedNames,
    t: TypeIx,
    row: &TypeRow,
    entries: &'e [PortIx],
) -> Result<&'e [PortIx], AllocError>
    requires first { length pairs.old.items + length row.now.states < 2 ^ 32 }
    requires entries { (later : List (List ℕ)) × (entries.now ≡ map (number_of ports.now) (ports_of_type row.now ++ later)) }
    ensures pairs { OnOk result (pairs.new.items ≡ pairs.old.items ++ map (λ state. unnamed (pair_from ports.now t (length pairs.old.items) row.now state)) row.now.states) }
    ensures rest { IfOk result (λ rest. (later : List (List ℕ)) → entries.now ≡ map (number_of ports.now) (ports_of_type row.now ++ later) → rest.now ≡ map (number_of ports.now) later) }
{
    let block = Block {
        kind: t,
        first: pairs.len() as u32,
        row,
    };
    let mut rest = entries;
    for state in &row.states {
        let (own, later) = rest.split_at(state.provide.len() + state.require.len());
        pairs.push(pair_of(alloc, ports, &block, state, own)?)?;
        rest = later;
    }
    Ok(rest)
}

/// Adds an empty row, with room for so many pairs.
fn add_empty_row(alloc: Global, rows: &mut Vec<PortRow>, room: usize) -> Result<(), AllocError>
    ensures { OnOk result (rows.new.items ≡ rows.old.items ++ [] ∷ []) }
{
    let pairs = Vec::with_capacity(alloc, room)?;
    rows.push(PortRow { pairs })?;
    Ok(())
}

/// An empty row for each of so many ports, with room for so many pairs.
#[tactic(auto, using(std::proofs::lemmas::List::replicate_more))]
fn empty_rows(alloc: Global, count: usize, room: usize) -> Result<Vec<PortRow>, AllocError>
    ensures { IfOk result (λ rows. rows.items ≡ replicate count []) }
{
    let mut rows = Vec::with_capacity(alloc, count)?;
    for _ in 0..count {
        add_empty_row(alloc, &mut rows, room)?;
    }
    Ok(rows)
}

/// How many providers a port has on average, and how many requirers: so much room each row gets at first.
fn room_of_rows(pairs: &[PairRow], count: usize) -> (usize, usize) {
    let mut provided: usize = 0;
    let mut required: usize = 0;
    for pair in pairs {
        provided = provided.saturating_add(pair.provided.len());
        required = required.saturating_add(pair.required.len());
    }
    (
        provided.checked_div(count).unwrap_or(0),
        required.checked_div(count).unwrap_or(0),
    )
}

/// Adds the pair to the port's row.
fn add_to_row(row: &mut PortRow, p: PairIx) -> Result<(), AllocError>
    ensures { OnOk result (row.new ≡ row.old ++ p ∷ []) }
{
    row.pairs.push(p)?;
    Ok(())
}

/// Adds the pair to the rows of these ports.
fn add_to_rows(rows: &mut Vec<PortRow>, p: PairIx, ports: &[PortIx]) -> Result<(), AllocError>
    requires { All (λ r. r < length rows.old.items) ports.now }
    ensures { OnOk result (rows.new.items ≡ with_pair p rows.old.items ports.now) }
{
    for r in ports {
        add_to_row(&mut rows[r.0 as usize], p)?;
    }
    Ok(())
}

/// Adds each pair to the rows of the ports that it provides, and to those of the ports that it requires.
fn fill_rows(
    providers: &mut Vec<PortRow>,
    requirers: &mut Vec<PortRow>,
    pairs: &[PairRow],
) -> Result<(), AllocError>
    requires provided { All (λ pair. All (λ r. r < length providers.old.items) pair.provided) pairs.now }
    requires required { All (λ pair. All (λ r. r < length requirers.old.items) pair.required) pairs.now }
    requires few { length pairs.now < 2 ^ 32 }
    ensures providers { OnOk result (providers.new.items ≡ rows_from (λ x. x.provided) 0 providers.old.items pairs.now) }
    ensures requirers { OnOk result (requirers.new.items ≡ rows_from (λ x. x.required) 0 requirers.old.items pairs.now) }
{
    for (p, pair) in pairs.iter().enumerate() {
        add_to_rows(providers, PairIx(p as u32), &pair.provided)?;
        add_to_rows(requirers, PairIx(p as u32), &pair.required)?;
    }
    Ok(())
}

/// The providers of each of so many ports, and its requirers.
fn index_rows(
    alloc: Global,
    pairs: &[PairRow],
    count: usize,
) -> Result<(Vec<PortRow>, Vec<PortRow>), AllocError>
    requires provided { All (λ pair. All (λ r. r < count) pair.provided) pairs.now }
    requires required { All (λ pair. All (λ r. r < count) pair.required) pairs.now }
    requires few { length pairs.now < 2 ^ 32 }
    ensures providers { IfOk result (λ rows. rows.0.items ≡ port_rows (λ x. x.provided) count pairs.now) }
    ensures requirers { IfOk result (λ rows. rows.1.items ≡ port_rows (λ x. x.required) count pairs.now) }
{
    let (provided, required) = room_of_rows(pairs, count);
    let mut providers = empty_rows(alloc, count, provided)?;
    let mut requirers = empty_rows(alloc, count, required)?;
    fill_rows(&mut providers, &mut requirers, pairs)?;
    Ok((providers, requirers))
}

/// Moves the names of these states to their pairs, of which the first is this one.
fn name_pairs(pairs: &mut Vec<PairRow>, first: u32, states: Vec<StateRow>)
    requires { first + length states.items ≤ length pairs.old.items }
    ensures { pairs.new.items ≡ with_names first pairs.old.items states.items }
{
    let mut p = first as usize;
    for state in states {
        let pair = &mut pairs[p];
        pair.state = state.name;
        p += 1;
    }
}

/// Adds the type of a row and its pairs. Its entries come first of these, and it gives the entries behind them.
fn add_type<'e>(
    alloc: Global,
    initials: &mut Vec<PairIx>,
    pairs: &mut Vec<PairRow>,
    ports: &NumberedNames,
    row: TypeRow,
    entries: &'e [PortIx],
) -> Result<&'e [PortIx], AllocError>
    requires few { length initials.old.items < 2 ^ 32 }
    requires first { length pairs.old.items + length row.states < 2 ^ 32 }
    requires entries { (later : List (List ℕ)) × (entries.now ≡ map (number_of ports.now) (ports_of_type row ++ later)) }
    ensures initials { OnOk result (initials.new.items ≡ initials.old.items ++ initial_from (length pairs.old.items) row ∷ []) }
    ensures pairs { OnOk result (pairs.new.items ≡ pairs.old.items ++ pairs_of_type ports.now (length initials.old.items) (length pairs.old.items) row) }
    ensures rest { IfOk result (λ rest. (later : List (List ℕ)) → entries.now ≡ map (number_of ports.now) (ports_of_type row ++ later) → rest.now ≡ map (number_of ports.now) later) }
{
    let first = pairs.len() as u32;
    let kind = TypeIx(initials.len() as u32);
    let initial = PairIx(first + state_number(&row, row.initial.as_str()));
    let rest = add_pairs(alloc, pairs, ports, kind, &row, entries)?;
    name_pairs(pairs, first, row.states);
    initials.push(initial)?;
    Ok(rest)
}

/// Adds the types of the rows and their pairs, where there are none yet. The entries have the ports of these numbers.
fn add_types(
    alloc: Global,
    initials: &mut Vec<PairIx>,
    pairs: &mut Vec<PairRow>,
    ports: &NumberedNames,
    rows: Vec<TypeRow>,
    entries: &[PortIx],
) -> Result<(), AllocError>
    requires no_types { initials.old.items ≡ [] }
    requires no_pairs { pairs.old.items ≡ [] }
    requires sound { first_fault rows.items ≡ None }
    requires ports { ports.now ≡ ports_of rows.items }
    requires entries { entries.now ≡ map (number_of ports.now) (flat_map ports_of_type rows.items) }
    ensures initials { OnOk result (initials.new.items ≡ initials_from 0 rows.items) }
    ensures pairs { OnOk result (pairs.new.items ≡ pairs_from (ports_of rows.items) 0 0 rows.items) }
{
    let mut rest = entries;
    for row in rows {
        rest = add_type(alloc, initials, pairs, ports, row, rest)?;
    }
    Ok(())
}

/// The initial pair of the type of each row, and the pairs of these. The entries have the ports of these numbers.
fn type_tables(
    alloc: Global,
    rows: Vec<TypeRow>,
    ports: &NumberedNames,
    entries: &[PortIx],
) -> Result<(Vec<PairIx>, Vec<PairRow>), AllocError>
    requires sound { first_fault rows.items ≡ None }
    requires ports { ports.now ≡ ports_of rows.items }
    requires entries { entries.now ≡ map (number_of ports.now) (flat_map ports_of_type rows.items) }
    ensures initials { IfOk result (λ made. made.0.items ≡ initials_from 0 rows.items) }
    ensures pairs { IfOk result (λ made. made.1.items ≡ pairs_from (ports_of rows.items) 0 0 rows.items) }
{
    let mut initials = Vec::with_capacity(alloc, rows.len())?;
    let mut pairs = Vec::with_capacity(alloc, 2 * rows.len())?;
    add_types(alloc, &mut initials, &mut pairs, ports, rows, entries)?;
    Ok((initials, pairs))
}

/// The universe of these types, pairs and ports.
pub fn indexed(
    alloc: Global,
    version: u32,
    kinds: NumberedNames,
    initials: Vec<PairIx>,
    pairs: Vec<PairRow>,
    ports: NumberedNames,
) -> Result<Universe, AllocError>
    requires { IsTable (universe_of version (kinds_of kinds initials.items) pairs.items ports) }
    ensures { IfOk result (λ u. u ≡ universe_of version (kinds_of kinds initials.items) pairs.items ports) }
{
    let (providers, requirers) = index_rows(alloc, &pairs, ports.count())?;
    Ok(Universe {
        version,
        kinds,
        initials,
        pairs,
        ports,
        providers,
        requirers,
    })
}

/// The universe of rows that have no fault, with the names of their types and with their ports.
pub fn tables(
    alloc: Global,
    version: u32,
    rows: Vec<TypeRow>,
    kinds: SeenNames,
    found: Sights,
) -> Result<Universe, AllocError>
    requires version { IsOfVersion version rows.items }
    requires sound { first_fault rows.items ≡ None }
    requires kinds { kinds ≡ names_of rows.items }
    requires ports { found.ports ≡ ports_of rows.items }
    requires numbers { found.numbers.items ≡ map (number_within (ports_of rows.items)) (flat_map ports_of_type rows.items) }
    ensures made { IfOk result (λ u. u ≡ universe_from version rows.items) }
    ensures by_sight { IfOk result IsBySight }
{
    let Sights { ports, numbers } = found;
    let types = kinds.numbered(alloc)?;
    let ports = ports.numbered(alloc)?;
    let (initials, pairs) = type_tables(alloc, rows, &ports, &numbers)?;
    indexed(alloc, version, types, initials, pairs, ports)
}
