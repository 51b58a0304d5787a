//! Instances that are bound to other providers.
ghost use Rattle.std.specs.Prelude.{◌≡◌, ◌==◌, ◌≤◌, ◌++◌, ◌&&◌, ℕ, List, IfOk, OnOk, flat_map, length, map, not, take};
ghost use Rattle.std.specs.List.{filter};
ghost use Rattle.metis_completion.specs.Terms.{given_in};
ghost use Rattle.metis_config.specs.Terms.{IsOver};
ghost use Rattle.metis_ids.specs.declared.actions.Action.TheVariants.{Bind};
ghost use Rattle.metis_rollout.specs.Terms.{members, named};
ghost use Rattle.metis_universe.specs.Terms.{has, is_bound};
ghost use Rattle.metis_reconfigure.specs.Terms.{candidates, given, named_targets, rebinds_of};

use crate::reach::holds;
use crate::targets::lack_of;
use metis_completion::Given;
use metis_config::Config;
use metis_ids::{Action, Goal, InstNo, NoMemory, PairIx, PortIx};
use metis_rollout::name_of;
use metis_universe::Universe;
use std::alloc::Global;
use std::collections::{BTreeMap, BTreeSet};

/// The instances that may be bound anew and stand, ascending.
pub fn rebound_in(
    alloc: Global,
    c: &Config,
    free: &BTreeSet<InstNo>,
) -> Result<Vec<InstNo>, NoMemory>
    ensures { IfOk result (λ zs. zs.items ≡ filter (has free.now.keys) (members c.now)) }
{
    let mut zs = Vec::new(alloc);
    for (z, _) in c.instances() {
        if holds(free, z) {
            zs.push(z)?;
        }
    }
    Ok(zs)
}

/// Who may give a port to an instance that is bound anew: the given instances, and those of the targets, with their pairs.
#[derive(Drop)]
pub struct Givers<'a> {
    given: &'a Given,
    fresh: Vec<(InstNo, PairIx)>,
}

impl<'a> Givers<'a> {
    /// Target number n is made as instance n, and named anew.
    pub fn new(
        alloc: Global,
        given: &'a Given,
        targets: &[PairIx],
        names: &BTreeMap<InstNo, InstNo>,
    ) -> Result<Givers<'a>, NoMemory>
        requires { length targets.now ≤ 256 }
        ensures given { IfOk result (λ givers. givers.given.now ≡ given.now) }
        ensures fresh { IfOk result (λ givers. givers.fresh.items ≡ named_targets (named names.now.entries) targets.now) }
    {
        let mut fresh = Vec::new(alloc);
        for (number, pair) in targets.iter().enumerate() {
            fresh.push((name_of(names, InstNo(number as u32)), *pair))?;
        }
        Ok(Givers { given, fresh })
    }
}

/// Appends, for each of these instances, binds at each port of which it lacks providers, as many as it lacks.
pub fn rebind_all(
    alloc: Global,
    u: &Universe,
    c: &Config,
    givers: &Givers,
    rebound: &[InstNo],
    actions: &mut Vec<Action>,
) -> Result<(), NoMemory>
    requires { IsOver u.now c.now }
    ensures { (leaving ts : List ℕ) (name : ℕ → ℕ) → ((r : ℕ) → given_in givers.now.given.now r ≡ given u.now c.now leaving r)
        → givers.now.fresh.items ≡ named_targets name ts
        → OnOk result (actions.new.items ≡ actions.old.items ++ flat_map (rebinds_of u.now c.now leaving ts name) rebound.now) }
{
    for z in rebound {
        rebind(alloc, u, c, givers, *z, actions)?;
    }
    Ok(())
}

// Appends those of one instance.
fn rebind(
    alloc: Global,
    u: &Universe,
    c: &Config,
    givers: &Givers,
    z: InstNo,
    actions: &mut Vec<Action>,
) -> Result<(), NoMemory>
    requires { IsOver u.now c.now }
    ensures { (leaving ts : List ℕ) (name : ℕ → ℕ) → ((r : ℕ) → given_in givers.now.given.now r ≡ given u.now c.now leaving r)
        → givers.now.fresh.items ≡ named_targets name ts
        → OnOk result (actions.new.items ≡ actions.old.items ++ rebinds_of u.now c.now leaving ts name z) }
{
    if let Some(pair) = c.pair_of(z) {
        for port in u.requires_(pair) {
            let lack = lack_of(u, c, givers.given, z, *port);
            if lack > 0 {
                let others = candidates(alloc, u, c, givers, z, *port)?;
                bind_first(z, *port, lack, &others, actions)?;
            }
        }
    }
    Ok(())
}

// Binds the instance at the port to the first so many of these.
fn bind_first(
    z: InstNo,
    port: PortIx,
    count: u32,
    others: &[InstNo],
    actions: &mut Vec<Action>,
) -> Result<(), NoMemory>
    ensures { OnOk result (actions.new.items ≡ actions.old.items ++ map (λ y. Bind port z y) (take count others.now)) }
{
    let count = (count as usize).min(others.len());
    for to in &others[..count] {
        actions.push(Action::Bind {
            port,
            inst: z,
            to: *to,
        })?;
    }
    Ok(())
}

// To which the instance may be bound at the port: the given instances, and then those of the targets that provide it, but itself and
// those to which it is bound.
fn candidates(
    alloc: Global,
    u: &Universe,
    c: &Config,
    givers: &Givers,
    z: InstNo,
    port: PortIx,
) -> Result<Vec<InstNo>, NoMemory>
    ensures { (leaving ts : List ℕ) (name : ℕ → ℕ) → given_in givers.now.given.now port ≡ given u.now c.now leaving port
        → givers.now.fresh.items ≡ named_targets name ts
        → IfOk result (λ ys. ys.items ≡ candidates u.now c.now leaving ts name z port) }
{
    let mut others = Vec::new(alloc);
    for y in givers.given.of(port) {
        if is_other(c, port, z, *y) {
            others.push(*y)?;
        }
    }
    for (fresh, pair) in &givers.fresh {
        if u.serves(*pair, Goal::Port(port)) && is_other(c, port, z, *fresh) {
            others.push(*fresh)?;
        }
    }
    Ok(others)
}

// Whether y is not the instance, and not bound to it.
fn is_other(c: &Config, port: PortIx, z: InstNo, y: InstNo) -> bool
    ensures { result ≡ (not (y == z) && not (is_bound c.now port z y)) }
{
    y != z && !c.bound(port, z, y)
}
