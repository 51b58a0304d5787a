//! What is to be planned for.
ghost use Rattle.std.specs.Prelude.{◌≡◌, ◌<◌, ◌++◌, ◌-◌, ◌&&◌, ◌||◌, ℕ, List, IfOk, OnOk, length, nat_lt, replicate, if◌then◌else◌};
ghost use Rattle.std.specs.List.{All, count_by, filter_map, find, range_with_len};
ghost use Rattle.metis_config.specs.Terms.{IsOver, demanded};
ghost use Rattle.metis_universe.specs.Terms.{IsGoalOf, Universe, has, pair_count, port_count, provides};
ghost use Rattle.metis_reconfigure.specs.Terms.{AreMet, AreTables, HasRequired, IfTargets, IfUnmet, IsGivenAt, IsUnmet, is_lacking, is_unserved_by, lack, lack_by, pair_for, pair_in, short_by, targets_behind, wanted_by, wants};

use metis_completion::Given;
use metis_config::Config;
use metis_ids::{Goal, InstNo, NoMemory, PairIx, PortIx};
use metis_layers::table::Layers;
use metis_universe::Universe;
use std::alloc::Global;
use std::collections::BTreeSet;

/// What is to be planned for, where nothing prevents it.
#[derive(Drop)]
pub enum Targets {
    /// The pairs for the missing goals, and then the provider of each port as often as is short.
    Pairs(Vec<PairIx>),
    /// The least port that is short and has no provider, and the least instance that lacks it and wants more providers than there are.
    Unmet(InstNo, PortIx),
}

/// Where providers come from.
#[derive(Clone, Copy)]
pub struct Sources<'a> {
    /// The settled instances that provide each port.
    pub given: &'a Given,
    /// The layers of what is left to plan over, which say what can be made.
    pub layers: &'a Layers,
}

/// The pairs for the missing goals, and then, port by port, the provider of each that those to be bound anew lack, as often as is short
/// where there are the given instances and the targets so far; or the first port that is short and has no provider, with the first
/// instance that lacks it and wants more than these.
pub fn targets_of(
    alloc: Global,
    u: &Universe,
    c: &Config,
    sources: &Sources,
    rebound: &[InstNo],
    missing: &[Goal],
) -> Result<Targets, NoMemory>
    requires over { IsOver u.now c.now }
    requires within { All (IsGoalOf u.now) missing.now }
    ensures targets { (left : Universe) → (leaving : List ℕ) → AreTables u.now left c.now leaving sources.now.given.now sources.now.layers.now
        → IfTargets result (λ ts. ts ≡ targets_behind u.now left c.now leaving rebound.now (filter_map (pair_for left) missing.now) (range_with_len 0 (port_count u.now))) }
    ensures met { (left : Universe) → (leaving : List ℕ) → AreTables u.now left c.now leaving sources.now.given.now sources.now.layers.now
        → IfTargets result (λ _. AreMet u.now left c.now leaving rebound.now (filter_map (pair_for left) missing.now) (range_with_len 0 (port_count u.now))) }
    ensures unmet { (left : Universe) → (leaving : List ℕ) → AreTables u.now left c.now leaving sources.now.given.now sources.now.layers.now
        → IfUnmet result (IsUnmet u.now left c.now leaving rebound.now (filter_map (pair_for left) missing.now)) }
{
    let mut targets = pairs_for(alloc, sources.layers, missing)?;
    let ports = ports_required(alloc, u, c, rebound)?;
    for number in 0..u.ports() {
        let port = PortIx(number);
        let standing = sources.given.of(port);
        if first_lacking(u, c, standing, rebound, &ports, port).is_none() {
            continue;
        }
        if let Some(pair) = sources.layers.first_provider(port) {
            let short = short_of(u, c, standing, rebound, port, &targets);
            push_times(pair, short, &mut targets)?;
        } else if let Some(z) = first_unserved(u, c, standing, rebound, port, &targets) {
            return Ok(Targets::Unmet(z, port));
        }
    }
    Ok(Targets::Pairs(targets))
}

/// How many settled providers of the port the instance has too few.
pub fn lack_of(u: &Universe, c: &Config, given: &Given, z: InstNo, r: PortIx) -> u32
    requires { IsOver u.now c.now }
    ensures { (leaving : List ℕ) → IsGivenAt u.now c.now leaving given.now r → result ≡ lack u.now c.now leaving z r }
{
    lack_among(u, c, given.of(r), z, r)
}

// The pair that each goal is, or the provider of the port that it is.
fn pairs_for(alloc: Global, v: &Layers, missing: &[Goal]) -> Result<Vec<PairIx>, NoMemory>
    ensures { IfOk result (λ pairs. pairs.items ≡ filter_map (pair_in v.now) missing.now) }
{
    let mut pairs = Vec::new(alloc);
    for goal in missing {
        if let Some(pair) = pair_in(v, *goal) {
            pairs.push(pair)?;
        }
    }
    Ok(pairs)
}

// The pair that the goal is, or the provider of the port that it is.
fn pair_in(v: &Layers, goal: Goal) -> Option<PairIx>
    ensures { result ≡ pair_in v.now goal }
{
    match goal {
        Goal::Pair(pair) => Some(pair),
        Goal::Port(port) => v.first_provider(port),
    }
}

// How many providers of the port are too few, where there are the given ones and the targets.
fn short_of(
    u: &Universe,
    c: &Config,
    standing: &[InstNo],
    rebound: &[InstNo],
    port: PortIx,
    targets: &[PairIx],
) -> u64
    requires { IsOver u.now c.now }
    ensures { result ≡ short_by u.now c.now standing.now rebound.now targets.now port }
{
    let wanted = wanted_of(u, c, standing, rebound, port);
    wanted
        .saturating_sub(standing.len() as u64)
        .saturating_sub(providing(u, targets, port))
}

// The first of the instances that lacks the port, and wants more providers of it than there are with the targets.
fn first_unserved(
    u: &Universe,
    c: &Config,
    standing: &[InstNo],
    rebound: &[InstNo],
    port: PortIx,
    targets: &[PairIx],
) -> Option<InstNo>
    requires { IsOver u.now c.now }
    ensures { result ≡ find (is_unserved_by u.now c.now standing.now targets.now port) rebound.now }
{
    let planned = providing(u, targets, port);
    for z in rebound {
        if wants_more(u, c, standing, *z, port, planned) {
            return Some(*z);
        }
    }
    None
}

// Whether the instance lacks the port, and wants more providers of it than the standing ones and so many that are planned.
fn wants_more(
    u: &Universe,
    c: &Config,
    standing: &[InstNo],
    z: InstNo,
    port: PortIx,
    planned: u64,
) -> bool
    requires { IsOver u.now c.now }
    ensures { result ≡ (is_lacking u.now c.now standing.now port z && nat_lt planned (wants u.now c.now port z - length standing.now)) }
{
    let lacks = lack_among(u, c, standing, z, port) > 0;
    lacks && wants(u, c, port, z).saturating_sub(standing.len() as u64) > planned
}

// How many providers of the port have to be there for these instances.
fn wanted_of(u: &Universe, c: &Config, standing: &[InstNo], rebound: &[InstNo], port: PortIx) -> u64
    requires { IsOver u.now c.now }
    ensures { result ≡ wanted_by u.now c.now standing.now rebound.now port }
{
    let mut most = 0;
    for z in rebound {
        if lack_among(u, c, standing, *z, port) > 0 {
            most = most.max(wants(u, c, port, *z));
        }
    }
    most
}

// The demand of the instance, and one more where it provides the port itself.
fn wants(u: &Universe, c: &Config, port: PortIx, z: InstNo) -> u64
    requires { IsOver u.now c.now }
    ensures { result ≡ wants u.now c.now port z }
{
    match c.pair_of(z) {
        Some(pair) => u.demand(pair, port) as u64 + own(u, pair, port),
        None => 0,
    }
}

// One where the pair provides the port.
fn own(u: &Universe, pair: PairIx, port: PortIx) -> u64
    requires { pair < pair_count u.now }
    ensures { result ≡ (if provides u.now pair port then 1 else 0) }
{
    if u.provides(pair, port) { 1 } else { 0 }
}

// How many of the pairs provide the port.
fn providing(u: &Universe, pairs: &[PairIx], port: PortIx) -> u64
    ensures { result ≡ count_by (λ p. provides u.now p port) pairs.now }
{
    pairs
        .iter()
        .filter(|pair| u.serves(**pair, Goal::Port(port)))
        .count() as u64
}

// The first of the instances that lacks the port, which is one of those that they require.
fn first_lacking(
    u: &Universe,
    c: &Config,
    standing: &[InstNo],
    rebound: &[InstNo],
    ports: &BTreeSet<PortIx>,
    port: PortIx,
) -> Option<InstNo>
    requires over { IsOver u.now c.now }
    requires required { HasRequired u.now c.now rebound.now ports.now.keys }
    ensures { result ≡ find (is_lacking u.now c.now standing.now port) rebound.now }
{
    if !has_port(ports, port) {
        return None;
    }
    for z in rebound {
        if lack_among(u, c, standing, *z, port) > 0 {
            return Some(*z);
        }
    }
    None
}

// The ports that these instances require.
fn ports_required(
    alloc: Global,
    u: &Universe,
    c: &Config,
    instances: &[InstNo],
) -> Result<BTreeSet<PortIx>, NoMemory>
    requires { IsOver u.now c.now }
    ensures { IfOk result (λ ports. HasRequired u.now c.now instances.now ports.keys) }
{
    let mut ports = BTreeSet::new(alloc);
    for z in instances {
        if let Some(pair) = c.pair_of(*z) {
            add_ports(u.requires_(pair), &mut ports)?;
        }
    }
    Ok(ports)
}

// Puts these ports into the set too.
fn add_ports(required: &[PortIx], ports: &mut BTreeSet<PortIx>) -> Result<(), NoMemory>
    ensures { OnOk result ((r : ℕ) → has ports.new.keys r ≡ (has required.now r || has ports.old.keys r)) }
{
    for port in required {
        ports.insert(*port)?;
    }
    Ok(())
}

// Whether the set has the port.
fn has_port(ports: &BTreeSet<PortIx>, port: PortIx) -> bool
    ensures { result ≡ has ports.now.keys port }
{
    ports.contains(&port)
}

// How many of these providers of the port the instance has too few.
fn lack_among(u: &Universe, c: &Config, standing: &[InstNo], z: InstNo, port: PortIx) -> u32
    requires { IsOver u.now c.now }
    ensures { result ≡ lack_by u.now c.now standing.now z port }
{
    let mut lack = demanded(u, c, z, port);
    if lack > 0 {
        for y in standing {
            if c.bound(port, z, *y) {
                lack = lack.saturating_sub(1);
            }
        }
    }
    lack
}

// How many providers of the port the instance's pair demands.
fn demanded(u: &Universe, c: &Config, z: InstNo, port: PortIx) -> u32
    requires { IsOver u.now c.now }
    ensures { result ≡ demanded u.now c.now z port }
{
    match c.pair_of(z) {
        Some(pair) => u.demand(pair, port),
        None => 0,
    }
}

// Adds the pair so many times.
fn push_times(pair: PairIx, times: u64, targets: &mut Vec<PairIx>) -> Result<(), NoMemory>
    ensures { OnOk result (targets.new.items ≡ targets.old.items ++ replicate times pair) }
{
    for _ in 0..times {
        targets.push(pair)?;
    }
    Ok(())
}
