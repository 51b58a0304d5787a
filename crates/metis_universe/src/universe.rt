//! A universe: its types, its pairs in document order, and its ports.
ghost use Rattle.std.specs.Prelude.{◌≡◌, ◌≤◌, ◌<◌, ◌==◌, ◌+◌, ◌&&◌, [], length, fold, max, nat_lt, position, take, drop, IfOk, IsTrue, ◌↔◌, if◌then◌else◌};
ghost use Rattle.std.specs.List.{All, filter, list_any, position_or_len, slice_index_or};
ghost use Rattle.std.specs.List.Sorted.{IsStrictlyIncreasing, IsNonDecreasingBy};
ghost use Rattle.std.specs.Str.{bytes_eq};
ghost use Rattle.metis_universe.specs.Terms.{IsBySight, IsMade, IsOf, IsOfVersion, IsTable, RowsFit, demand_of, greatest_demand, has, initial_of, is_free, is_initial, kind_in, next_of, pair_count, pair_named, port_count, port_name_of, port_named, provided_of, providers_of, provides, required_of, requirers_of, state_name_of, state_named, state_place_of, states_of_type, type_count, type_name_of, type_named, type_of, type_provides, type_requires};

mod build;
mod residual;

use crate::check::first_fault;
use crate::faults::RowFault;
use crate::numbered::NumberedNames;
use crate::rows::TypeRow;
use crate::seen::SeenNames;
use crate::sights::ports_of;
use metis_ids::{Action, PairIx, PortIx, StateIx, TypeIx};
use std::alloc::Global;
use std::marker::Model;

/// A pair.
#[derive(Drop)]
struct PairRow {
    kind: TypeIx,
    state: String,
    provided: Vec<PortIx>,
    required: Vec<PortIx>,
    /// Of each required port, how many providers it needs besides one.
    further: Vec<u64>,
    next: Vec<PairIx>,
}

impl Model for PairRow {
    ghost use Rattle.std.specs.String.{string_bytes};
    ghost use Rattle.metis_universe.specs.Universe.{Pair};

    ghost Value = { Pair };

    ghost view = { λ a. record { kind = a.kind; state = string_bytes a.state; provided = a.provided.items; required = a.required.items; further = a.further.items; next = a.next.items } };
}

/// The pairs that provide a port, or those that require it, ascending.
#[derive(Drop)]
struct PortRow {
    pairs: Vec<PairIx>,
}

impl Model for PortRow {
    ghost use Rattle.std.specs.Prelude.{List, ℕ};

    ghost Value = { List ℕ };

    ghost view = { λ a. a.pairs.items };
}

/// Component types and their states.
#[derive(Drop)]
pub struct Universe {
    version: u32,
    kinds: NumberedNames,
    /// The initial pair of each type.
    initials: Vec<PairIx>,
    pairs: Vec<PairRow>,
    ports: NumberedNames,
    /// Who provides each port.
    providers: Vec<PortRow>,
    /// Who requires each port.
    requirers: Vec<PortRow>,
}

impl Model for Universe {
    ghost use Rattle.metis_universe.specs.Kinds.{kinds_of};
    ghost use Rattle.metis_universe.specs.Universe as tables;

    ghost Value = { tables.Universe };

    ghost view = { λ a. tables.universe_of a.version (kinds_of a.kinds a.initials.items) a.pairs.items a.ports };

    ghost invariant = { λ a. tables.IsIndexedTable (tables.universe_of a.version (kinds_of a.kinds a.initials.items) a.pairs.items a.ports) a.providers.items a.requirers.items };
}

impl Universe {
    /// The universe that the rows stand for. Types, pairs and ports are numbered from 0: types in the order of the rows,
    /// pairs by types in order and then states in order, ports by first sight (for each state what it provides, then
    /// what it requires). In version 1 each port is required of one provider, in version 2 of 1 to 16.
    /// The error is the first fault of the rows: type after type, and of all types together at last.
    pub fn new(alloc: Global, version: u32, rows: Vec<TypeRow>) -> Result<Universe, RowFault>
        requires version { IsOfVersion version rows.items }
        requires fits { RowsFit rows.items }
        ensures made { IsMade result version rows.items }
        ensures by_sight { IfOk result IsBySight }
    {
        let found = ports_of(alloc, &rows)?;
        let mut kinds = SeenNames::with_capacity(alloc, rows.len())?;
        if let Some(fault) = first_fault(alloc, &rows, &found.ports, &mut kinds)? {
            return Err(fault);
        }
        Ok(build::tables(alloc, version, rows, kinds, found)?)
    }

    /// What every universe keeps. A call does nothing when it runs: a proof that needs the fact makes it.
    pub fn keeps_invariant(&self)
        ensures { IsTable self.now }
    {
        // For the proof alone: to name a field is to open the invariant.
        let _tables = &self.kinds;
    }

    /// The version, 1 or 2. In version 1 each demand is 1.
    pub fn version(&self) -> u32
        ensures { result ≡ self.now.version }
    {
        // For the proof alone: to name a field is to open the invariant.
        let _tables = &self.pairs;
        self.version
    }

    /// The largest demand of any pair, and 1 where none requires a port.
    pub fn greatest_demand(&self) -> u32
        ensures { result ≡ greatest_demand self.now }
    {
        1 + most_further(&self.pairs) as u32
    }

    /// How many pairs there are.
    pub fn pairs(&self) -> u32
        ensures count { result ≡ pair_count self.now }
        ensures most { result ≤ 2000 }
    {
        self.pairs.len() as u32
    }

    /// How many types there are.
    pub fn types(&self) -> u32
        ensures { result ≡ type_count self.now }
    {
        self.kinds.count() as u32
    }

    /// The pair's type.
    pub fn type_of(&self, p: PairIx) -> TypeIx
        requires { p < pair_count self.now }
        ensures kind { result ≡ type_of self.now p }
        ensures within { result < type_count self.now }
    {
        let row = &self.pairs[p.0 as usize];
        row.kind
    }

    /// The place of the pair's state among the states of its type.
    pub fn state_of(&self, p: PairIx) -> StateIx
        requires { p < pair_count self.now }
        ensures { result ≡ state_place_of self.now p }
    {
        let start = start_of(&self.pairs, self.type_of(p));
        StateIx(p.0 - start as u32)
    }

    /// The first pair of the type. Its pairs stand together, so those of its states, as many as `states` says, begin here.
    pub fn first_of(&self, t: TypeIx) -> PairIx
        requires { t < type_count self.now }
        ensures { states_of_type self.now t ≡ take (length (states_of_type self.now t)) (drop result self.now.pairs) }
    {
        // For the proof alone: to name a field is to open the invariant.
        let _tables = &self.kinds;
        PairIx(start_of(&self.pairs, t) as u32)
    }

    /// How many states the type has, at most 64.
    pub fn states(&self, t: TypeIx) -> u32
        ensures { result ≡ length (states_of_type self.now t) }
    {
        // For the proof alone: to name a field is to open the invariant.
        let _tables = &self.kinds;
        block_of(&self.pairs, t).len() as u32
    }

    /// The type's initial pair.
    pub fn initial(&self, t: TypeIx) -> PairIx
        requires { t < type_count self.now }
        ensures pair { result ≡ initial_of self.now t }
        ensures within { result < pair_count self.now }
    {
        // For the proof alone: to name a field is to open the invariant.
        let _tables = &self.pairs;
        initial_among(&self.initials, t)
    }

    /// Whether the pair is a type's initial pair.
    pub fn is_initial(&self, p: PairIx) -> bool
        requires { p < pair_count self.now }
        ensures { result ≡ is_initial self.now p }
    {
        // For the proof alone: to name a field is to open the invariant.
        let _tables = &self.kinds;
        self.initial(self.type_of(p)) == p
    }

    /// Whether the pair is its type's initial pair and requires nothing.
    pub fn is_free(&self, p: PairIx) -> bool
        requires { p < pair_count self.now }
        ensures { result ≡ is_free self.now p }
    {
        self.is_initial(p) && self.requires_(p).is_empty()
    }

    /// The pairs that the pair may go to, ascending.
    pub fn next(&self, p: PairIx) -> &[PairIx]
        requires { p < pair_count self.now }
        ensures pairs { result.now ≡ next_of self.now p }
        ensures within { All (λ q. q < pair_count self.now) result.now }
    {
        let row = &self.pairs[p.0 as usize];
        row.next.as_slice()
    }

    /// How many ports there are, at most 4,000.
    pub fn ports(&self) -> u32
        ensures { result ≡ port_count self.now }
    {
        self.ports.count() as u32
    }

    /// The ports that the pair provides, ascending.
    pub fn provided(&self, p: PairIx) -> &[PortIx]
        requires { p < pair_count self.now }
        ensures ports { result.now ≡ provided_of self.now p }
        ensures ascending { IsStrictlyIncreasing result.now }
        ensures within { All (λ r. r < port_count self.now) result.now }
    {
        let row = &self.pairs[p.0 as usize];
        row.provided.as_slice()
    }

    /// The ports that the pair requires, ascending.
    pub fn requires_(&self, p: PairIx) -> &[PortIx]
        requires { p < pair_count self.now }
        ensures ports { result.now ≡ required_of self.now p }
        ensures ascending { IsStrictlyIncreasing result.now }
        ensures within { All (λ r. r < port_count self.now) result.now }
    {
        let row = &self.pairs[p.0 as usize];
        row.required.as_slice()
    }

    /// How many different providers of the port the pair needs, at most 16: 0 where it does not require the port.
    pub fn demand(&self, p: PairIx, r: PortIx) -> u32
        requires { p < pair_count self.now }
        ensures { result ≡ demand_of self.now p r }
    {
        let row = &self.pairs[p.0 as usize];
        demand_among(&row.required, &row.further, r)
    }

    /// How many different providers the pair needs of the port at this place of those that it requires, at most 16.
    pub fn demand_at(&self, p: PairIx, place: usize) -> u32
        requires pair { p < pair_count self.now }
        requires place { place < length (required_of self.now p) }
        ensures { result ≡ demand_of self.now p (slice_index_or (required_of self.now p) place 0) }
    {
        let row = &self.pairs[p.0 as usize];
        1 + row.further[place] as u32
    }

    /// Whether the pair provides the port.
    pub fn provides(&self, p: PairIx, r: PortIx) -> bool
        requires { p < pair_count self.now }
        ensures { result ≡ provides self.now p r }
    {
        place_among(self.provided(p), r).is_some()
    }

    /// All pairs that provide the port, ascending.
    pub fn providers(&self, r: PortIx) -> &[PairIx]
        requires { r < port_count self.now }
        ensures { result.now ≡ providers_of self.now r }
    {
        let row = &self.providers[r.0 as usize];
        row.pairs.as_slice()
    }

    /// All pairs that require the port, ascending.
    pub fn requirers(&self, r: PortIx) -> &[PairIx]
        requires { r < port_count self.now }
        ensures { result.now ≡ requirers_of self.now r }
    {
        let row = &self.requirers[r.0 as usize];
        row.pairs.as_slice()
    }

    /// Whether some pair of the type requires the port.
    pub fn type_requires(&self, t: TypeIx, r: PortIx) -> bool
        ensures { result ≡ type_requires self.now t r }
    {
        // For the proof alone: to name a field is to open the invariant.
        let _tables = &self.kinds;
        some_of_type(&self.pairs, pairs_at(&self.requirers, r), t)
    }

    /// Whether some pair of the type provides the port.
    pub fn type_provides(&self, t: TypeIx, r: PortIx) -> bool
        ensures { result ≡ type_provides self.now t r }
    {
        // For the proof alone: to name a field is to open the invariant.
        let _tables = &self.kinds;
        some_of_type(&self.pairs, pairs_at(&self.providers, r), t)
    }

    /// Whether the action's type, pairs and port are the universe's.
    pub fn has_numbers(&self, a: &Action) -> bool
        ensures { IsTrue result ↔ IsOf self.now a.now }
    {
        match *a {
            Action::New { kind, .. } => kind.0 < self.types(),
            Action::Delete { .. } => true,
            Action::Bind { port, .. } => port.0 < self.ports(),
            Action::Unbind { port, .. } => port.0 < self.ports(),
            Action::Move { from, to, .. } => from.0 < self.pairs() && to.0 < self.pairs(),
        }
    }

    /// The type of this name.
    pub fn type_named(&self, name: &str) -> Option<TypeIx>
        ensures { result ≡ type_named self.now name.now }
    {
        let index = self.kinds.number_of(name)?;
        Some(TypeIx(index as u32))
    }

    /// The pair of the type and its state of this name.
    pub fn state_named(&self, t: TypeIx, name: &str) -> Option<PairIx>
        ensures { result ≡ state_named self.now t name.now }
    {
        let place = place_named(block_of(&self.pairs, t), name)?;
        Some(PairIx((start_of(&self.pairs, t) + place) as u32))
    }

    /// The pair of the type and the state of these names.
    pub fn pair_named(&self, kind: &str, state: &str) -> Option<PairIx>
        ensures { result ≡ pair_named self.now kind.now state.now }
    {
        self.state_named(self.type_named(kind)?, state)
    }

    /// The port of this name.
    pub fn port_named(&self, name: &str) -> Option<PortIx>
        ensures { result ≡ port_named self.now name.now }
    {
        let index = self.ports.number_of(name)?;
        Some(PortIx(index as u32))
    }

    /// The name of the type.
    pub fn type_name(&self, t: TypeIx) -> &str
        requires { t < type_count self.now }
        ensures { result.now ≡ type_name_of self.now t }
    {
        self.kinds.name(t.0 as usize)
    }

    /// The name of the pair's state.
    pub fn state_name(&self, p: PairIx) -> &str
        requires { p < pair_count self.now }
        ensures { result.now ≡ state_name_of self.now p }
    {
        let row = &self.pairs[p.0 as usize];
        row.state.as_str()
    }

    /// The name of the port.
    pub fn port_name(&self, r: PortIx) -> &str
        requires { r < port_count self.now }
        ensures { result.now ≡ port_name_of self.now r }
    {
        self.ports.name(r.0 as usize)
    }
}

/// The pair at the type's place, and the first where none stands there.
fn initial_among(initials: &[PairIx], t: TypeIx) -> PairIx
    ensures { result ≡ slice_index_or initials.now t 0 }
{
    match initials.get(t.0 as usize) {
        Some(p) => *p,
        None => PairIx(0),
    }
}

/// How many pairs have a lower type. Behind them begin those of the type.
fn start_of(pairs: &[PairRow], t: TypeIx) -> usize
    requires { IsNonDecreasingBy (λ p. p.kind) pairs.now }
    ensures { result ≡ length (filter (λ p. nat_lt p.kind t) pairs.now) }
{
    pairs.partition_point(|pair| pair.kind < t)
}

/// The pairs of the type, which stand together.
fn block_of(pairs: &[PairRow], t: TypeIx) -> &[PairRow]
    requires { IsNonDecreasingBy (λ p. p.kind) pairs.now }
    ensures { result.now ≡ filter (λ p. p.kind == t) pairs.now }
{
    let start = pairs.partition_point(|pair| pair.kind < t);
    let end = pairs.partition_point(|pair| pair.kind <= t);
    &pairs[start..end]
}

/// The place of the port among these, which ascend.
fn place_among(ports: &[PortIx], r: PortIx) -> Option<usize>
    requires { IsStrictlyIncreasing ports.now }
    ensures { result ≡ position (λ s. s == r) ports.now }
{
    ports.binary_search(&r).ok()
}

/// One, and as many more as the other list has at the port's place; 0 where the port is none of these.
fn demand_among(ports: &[PortIx], further: &[u64], r: PortIx) -> u32
    requires ascending { IsStrictlyIncreasing ports.now }
    requires places { length further.now ≡ length ports.now }
    requires few { All (λ n. n < 16) further.now }
    ensures { result ≡ (if has ports.now r then 1 + slice_index_or further.now (position_or_len (λ s. s == r) ports.now) 0 else 0) }
{
    match place_among(ports, r) {
        Some(place) => 1 + further[place] as u32,
        None => 0,
    }
}

/// The largest of these numbers and the start.
fn largest(start: u64, counts: &[u64]) -> u64
    ensures { result ≡ fold max start counts.now }
{
    let mut most = start;
    for n in counts {
        most = most.max(*n);
    }
    most
}

/// The largest number that any of the pairs needs besides one.
fn most_further(pairs: &[PairRow]) -> u64
    ensures { result ≡ fold (λ most p. fold max most p.further) 0 pairs.now }
{
    let mut most = 0;
    for pair in pairs {
        most = largest(most, &pair.further);
    }
    most
}

/// The pairs of the port's row, none where there is no such row.
fn pairs_at(rows: &[PortRow], r: PortIx) -> &[PairIx]
    ensures { result.now ≡ slice_index_or rows.now r [] }
{
    match rows.get(r.0 as usize) {
        Some(row) => row.pairs.as_slice(),
        None => &[],
    }
}

/// The type of the pair.
fn kind_in(pairs: &[PairRow], p: PairIx) -> TypeIx
    ensures { result ≡ kind_in pairs.now p }
{
    match pairs.get(p.0 as usize) {
        Some(pair) => pair.kind,
        None => TypeIx(0),
    }
}

/// Whether one of these pairs is of the type, where their types do not fall.
fn some_of_type(pairs: &[PairRow], among: &[PairIx], t: TypeIx) -> bool
    requires { IsNonDecreasingBy (kind_in pairs.now) among.now }
    ensures { result ≡ list_any (λ p. kind_in pairs.now p == t) among.now }
{
    let place = among.partition_point(|p| kind_in(pairs, *p) < t);
    match among.get(place) {
        Some(p) => kind_in(pairs, *p) == t,
        None => false,
    }
}

/// The place of the first of the pairs with this state.
fn place_named(pairs: &[PairRow], name: &str) -> Option<usize>
    ensures { result ≡ position (λ p. bytes_eq name.now p.state) pairs.now }
{
    pairs.iter().position(|pair| name == pair.state.as_str())
}
