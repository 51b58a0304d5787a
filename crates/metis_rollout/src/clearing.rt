//! The removal of what goes: first the bindings that nothing requires and those from what stays, then the instances to which
//! nothing is bound.
ghost use Rattle.std.specs.Prelude.{◌≡◌, ◌++◌, ◌∷◌, [], ℕ, IfOk, OnOk, IsTrue, map};
ghost use Rattle.std.specs.List.{All, filter};
ghost use Rattle.std.specs.List.Sorted.{IsStrictlySortedBy};
ghost use Rattle.metis_config.specs.Terms.{IsOver};
ghost use Rattle.metis_universe.specs.Terms.{Universe, after_all, binding_cmp, is_bound, untie};
ghost use Rattle.metis_rollout.specs.Terms.{all_but, cleared_of, ends_first, first_unbinds, is_idle, left_of, unbind, unreferenced_deletes, untied_of};

use crate::staying::goes;
use crate::unreferenced::{let_go, unreferenced_of};
use metis_config::Config;
use metis_ids::{Action, InstNo, NoMemory, PortIx};
use metis_universe::Universe;
use std::alloc::Global;
use std::collections::BTreeSet;

/// Takes down what goes, until each such instance that is left has a binding to it.
pub fn clear(
    alloc: Global,
    u: &Universe,
    stays: &BTreeSet<InstNo>,
    c: &mut Config,
    actions: &mut Vec<Action>,
) -> Result<(), NoMemory>
    requires { IsOver u.now c.old }
    ensures actions { OnOk result (actions.new.items ≡ actions.old.items ++ cleared_of u.now (all_but stays.now.keys) c.old) }
    ensures config { OnOk result (c.new ≡ left_of u.now (all_but stays.now.keys) c.old) }
{
    unbind_first(alloc, u, stays, c, actions)?;
    delete_unreferenced(alloc, stays, c, actions)
}

// Ends each binding whose port its requirer does not require, and each from an instance that stays to one that goes.
fn unbind_first(
    alloc: Global,
    u: &Universe,
    stays: &BTreeSet<InstNo>,
    c: &mut Config,
    actions: &mut Vec<Action>,
) -> Result<(), NoMemory>
    requires { IsOver u.now c.old }
    ensures actions { OnOk result (actions.new.items ≡ actions.old.items ++ first_unbinds u.now (all_but stays.now.keys) c.old) }
    ensures config { OnOk result (c.new ≡ untied_of u.now (all_but stays.now.keys) c.old) }
{
    c.keeps_invariant();
    let ties = first_ties(alloc, u, stays, c)?;
    untie_all(c, &ties, actions)
}

// These bindings.
fn first_ties(
    alloc: Global,
    u: &Universe,
    stays: &BTreeSet<InstNo>,
    c: &Config,
) -> Result<Vec<(PortIx, InstNo, InstNo)>, NoMemory>
    requires { IsOver u.now c.now }
    ensures { IfOk result (λ ties. ties.items ≡ filter (ends_first u.now (all_but stays.now.keys) c.now) c.now.bindings) }
{
    let mut ties = Vec::new(alloc);
    for tie in c.bindings() {
        if ends_first(u, stays, c, tie.0, tie.1, tie.2) {
            ties.push(tie)?;
        }
    }
    Ok(ties)
}

// Whether it is one of them.
fn ends_first(
    u: &Universe,
    stays: &BTreeSet<InstNo>,
    c: &Config,
    r: PortIx,
    z: InstNo,
    y: InstNo,
) -> bool
    requires { IsOver u.now c.now }
    ensures { result ≡ ends_first u.now (all_but stays.now.keys) c.now (r, z, y) }
{
    (!goes(stays, z) && goes(stays, y)) || is_idle(u, c, r, z)
}

// Whether the instance does not require the port.
fn is_idle(u: &Universe, c: &Config, r: PortIx, z: InstNo) -> bool
    requires { IsOver u.now c.now }
    ensures { (y : ℕ) → result ≡ is_idle u.now c.now (r, z, y) }
{
    match c.pair_of(z) {
        Some(p) => !u.requires_(p).contains(&r),
        None => true,
    }
}

// Ends these bindings, one after the other.
fn untie_all(
    c: &mut Config,
    ties: &[(PortIx, InstNo, InstNo)],
    actions: &mut Vec<Action>,
) -> Result<(), NoMemory>
    requires ascending { IsStrictlySortedBy binding_cmp ties.now }
    requires bound { All (λ b. IsTrue (is_bound c.old b.0 b.1 b.2)) ties.now }
    ensures actions { OnOk result (actions.new.items ≡ actions.old.items ++ map unbind ties.now) }
    ensures config { OnOk result ((u : Universe) → c.new ≡ after_all u c.old (map unbind ties.now)) }
{
    for tie in ties {
        end(c, *tie, actions)?;
    }
    Ok(())
}

// Ends the binding.
fn end(
    c: &mut Config,
    tie: (PortIx, InstNo, InstNo),
    actions: &mut Vec<Action>,
) -> Result<(), NoMemory>
    requires { IsTrue (is_bound c.old tie.0 tie.1 tie.2) }
    ensures actions { OnOk result (actions.new.items ≡ actions.old.items ++ unbind tie ∷ []) }
    ensures config { OnOk result (c.new ≡ untie c.old tie.0 tie.1 tie.2) }
{
    let (port, inst, to) = tie;
    actions.push(Action::Unbind { port, inst, to })?;
    c.untie(port, inst, to);
    Ok(())
}

// Again and again removes the least instance that goes and to which no binding points. Each removal looks at the bindings of the
// one that goes, and not at the other instances.
fn delete_unreferenced(
    alloc: Global,
    stays: &BTreeSet<InstNo>,
    c: &mut Config,
    actions: &mut Vec<Action>,
) -> Result<(), NoMemory>
    ensures actions { OnOk result (actions.new.items ≡ actions.old.items ++ unreferenced_deletes (all_but stays.now.keys) c.old) }
    ensures config { OnOk result ((u : Universe) → c.new ≡ after_all u c.old (unreferenced_deletes (all_but stays.now.keys) c.old)) }
{
    let mut unreferenced = unreferenced_of(alloc, stays, c)?;
    for _ in 0..c.count() {
        let Some(z) = unreferenced.pop_first() else {
            return Ok(());
        };
        c.keeps_invariant();
        actions.push(Action::Delete { inst: z })?;
        let_go(stays, c, &mut unreferenced, z)?;
    }
    Ok(())
}
