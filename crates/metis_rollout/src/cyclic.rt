//! The removal of instances that are bound in cycles.
ghost use Rattle.std.specs.Prelude.{◌≡◌, ◌+◌, ◌<◌, ◌≤◌, ◌^◌, ◌++◌, ℕ, IfOk, IsSome, OnOk, length, map};
ghost use Rattle.std.specs.List.{All};
ghost use Rattle.metis_universe.specs.Terms.{layer_of, pair_count};
ghost use Rattle.metis_layers.specs.Terms.{IsLayers};
ghost use Rattle.metis_rollout.specs.Terms.{AreFew, bind, cycle_removal, deletes, downward, free_number, holder_at, members, named, pairs_in, scaffold_bindings, unbind};

use crate::lines::{holder_in, slots_needed_by};
use crate::names::{FreeNumbers, name_of, names_for, push_renumbered};
use crate::scaffolding::scaffold_for;
use metis_config::Config;
use metis_ids::{Action, InstNo, IxVec, NoMemory, PairIx, PortIx};
use metis_layers::table::Layers;
use metis_universe::Universe;
use std::alloc::Global;
use std::collections::BTreeMap;

/// Removes all instances: a scaffold under free numbers is made, they are bound to it, unbound from one another and deleted, and then
/// the scaffold is.
pub fn remove_cycles(
    alloc: Global,
    u: &Universe,
    l: &Layers,
    free: &mut FreeNumbers,
    c: &Config,
    actions: &mut Vec<Action>,
) -> Result<(), NoMemory>
    requires layers { IsLayers u.now l.now }
    requires layered { All (λ p. IsSome (layer_of u.now p)) (pairs_in c.now) }
    requires next { (n : ℕ) × (free.old.next ≡ free_number free.old.used.keys n)
        × (length free.old.used.keys + length free.old.used.keys + n < 2 ^ 31) }
    ensures { OnOk result ((n : ℕ) → free.old.next ≡ free_number free.old.used.keys n
        → actions.new.items ≡ actions.old.items ++ cycle_removal u.now (λ k. free_number free.old.used.keys (n + k)) c.now) }
{
    u.keeps_invariant();
    let pairs = pairs_of(alloc, c)?;
    let scaffold = scaffold_for(alloc, u, l, &pairs)?;
    let names = names_for(alloc, free, &scaffold.actions)?;
    push_renumbered(&names, &scaffold.actions, actions)?;
    bind_all(alloc, u, c, &scaffold.firsts, &names, actions)?;
    unbind_all(c, actions)?;
    delete_all(c, actions)?;
    delete_downward(scaffold.count, &names, actions)
}

// The pairs of the instances, in the instances' order.
fn pairs_of(alloc: Global, c: &Config) -> Result<Vec<PairIx>, NoMemory>
    ensures { IfOk result (λ pairs. pairs.items ≡ pairs_in c.now) }
{
    let mut pairs = Vec::new(alloc);
    for (_, p) in c.instances() {
        pairs.push(p)?;
    }
    Ok(pairs)
}

// Binds each instance to the scaffold's, at each slot that it needs.
fn bind_all(
    alloc: Global,
    u: &Universe,
    c: &Config,
    firsts: &IxVec<PortIx, u32>,
    names: &BTreeMap<InstNo, InstNo>,
    actions: &mut Vec<Action>,
) -> Result<(), NoMemory>
    requires within { All (λ p. p < pair_count u.now) (pairs_in c.now) }
    requires firsts { AreFew firsts.now }
    ensures { OnOk result (actions.new.items ≡ actions.old.items ++ map bind (scaffold_bindings u.now (λ r k. named names.now.entries (holder_at firsts.now r k)) c.now)) }
{
    for (z, p) in c.instances() {
        let slots = slots_needed_by(alloc, u, p)?;
        bind_slots(z, &slots, firsts, names, actions)?;
    }
    Ok(())
}

// Binds the instance at each of these slots.
fn bind_slots(
    z: InstNo,
    slots: &[(PortIx, u32)],
    firsts: &IxVec<PortIx, u32>,
    names: &BTreeMap<InstNo, InstNo>,
    actions: &mut Vec<Action>,
) -> Result<(), NoMemory>
    requires firsts { AreFew firsts.now }
    requires low { All (λ s. s.1 ≤ 16) slots.now }
    ensures { OnOk result (actions.new.items ≡ actions.old.items ++ map bind (map (λ s. (s.0, z, named names.now.entries (holder_at firsts.now s.0 s.1))) slots.now)) }
{
    for slot in slots {
        actions.push(Action::Bind {
            port: slot.0,
            inst: z,
            to: name_of(names, holder_in(firsts, slot.0, slot.1)),
        })?;
    }
    Ok(())
}

// Ends all bindings.
fn unbind_all(c: &Config, actions: &mut Vec<Action>) -> Result<(), NoMemory>
    ensures { OnOk result (actions.new.items ≡ actions.old.items ++ map unbind c.now.bindings) }
{
    for tie in c.bindings() {
        let (port, inst, to) = tie;
        actions.push(Action::Unbind { port, inst, to })?;
    }
    Ok(())
}

// Deletes all instances.
fn delete_all(c: &Config, actions: &mut Vec<Action>) -> Result<(), NoMemory>
    ensures { OnOk result (actions.new.items ≡ actions.old.items ++ deletes (members c.now)) }
{
    for (z, _) in c.instances() {
        actions.push(Action::Delete { inst: z })?;
    }
    Ok(())
}

// Deletes so many instances under their names, the last first.
fn delete_downward(
    count: u32,
    names: &BTreeMap<InstNo, InstNo>,
    actions: &mut Vec<Action>,
) -> Result<(), NoMemory>
    ensures { OnOk result (actions.new.items ≡ actions.old.items ++ deletes (map (named names.now.entries) (downward count))) }
{
    for done in 0..count {
        let number = count - 1 - done;
        actions.push(Action::Delete {
            inst: name_of(names, InstNo(number)),
        })?;
    }
    Ok(())
}
