//! Does an action, or says why not.
ghost use Rattle.std.specs.Prelude.{◌≡◌, ◌≢◌, ◌<◌, ◌&&◌, OnOk, IfErr};
ghost use Rattle.metis_ids.specs.declared.actions.Action.TheVariants.{New, Delete, Bind, Unbind, Move};
ghost use Rattle.metis_universe.specs.Terms.{Allows, Correct, IsOf, Step, after, pair_count, port_count, type_count, type_of, type_provides, type_requires};
ghost use Rattle.metis_config.specs.Terms.{IsOver};
ghost use Rattle.metis_actions.specs.Terms.{Answers, IsFaultOf};

use crate::AFault;
use metis_config::Config;
use metis_ids::{Action, InstNo, PairIx, PortIx, TypeIx};
use metis_universe::Universe;

/// Does the action where it leads to a correct configuration. Else the configuration stays as it was, and the fault is the first
/// reason. Only an instance or a binding that comes takes memory.
pub fn apply(u: &Universe, c: &mut Config, a: &Action) -> Result<(), AFault>
    requires over { IsOver u.now c.old }
    requires correct { Correct u.now c.old }
    requires action { IsOf u.now a.now }
    ensures answers { Answers u.now c.old a.now c.new result }

    // It is done exactly where the definitions allow a step to a correct configuration, and memory lasts.
    ensures step { OnOk result (Step u.now c.old a.now c.new) }
    ensures refused { IfErr result (λ f. f ≢ AFault.NoMemory → Allows u.now c.old a.now → Correct u.now (after u.now c.old a.now) → ⊥) }
    ensures correct { Correct u.now c.new }
    ensures over { IsOver u.now c.new }

    // A fault's numbers are the universe's.
    ensures fault { IfErr result (λ f. f ≢ AFault.NoMemory → IsFaultOf u.now f) }
{
    u.keeps_invariant();
    c.keeps_invariant();
    act(u, c, a)
}

fn act(u: &Universe, c: &mut Config, a: &Action) -> Result<(), AFault>
    requires over { IsOver u.now c.old }
    requires correct { Correct u.now c.old }
    requires action { IsOf u.now a.now }
    ensures { Answers u.now c.old a.now c.new result }
{
    match *a {
        Action::New { inst, kind } => make(u, c, inst, kind),
        Action::Delete { inst } => delete(u, c, inst),
        Action::Bind { port, inst, to } => bind(u, c, port, inst, to),
        Action::Unbind { port, inst, to } => unbind(u, c, port, inst, to),
        Action::Move { inst, from, to } => shift(u, c, inst, from, to),
    }
}

fn make(u: &Universe, c: &mut Config, z: InstNo, t: TypeIx) -> Result<(), AFault>
    requires over { IsOver u.now c.old }
    requires correct { Correct u.now c.old }
    requires kind { t < type_count u.now }
    ensures { Answers u.now c.old (New z t) c.new result }
{
    if c.pair_of(z).is_some() {
        return Err(AFault::InUse(z));
    }
    let initial = u.initial(t);
    if let Some((w, r)) = c.unmet_from(u, z, None, Some(initial)) {
        return Err(AFault::Unmet(w, r));
    }
    c.put(z, initial)?;
    Ok(())
}

fn delete(u: &Universe, c: &mut Config, z: InstNo) -> Result<(), AFault>
    requires over { IsOver u.now c.old }
    requires correct { Correct u.now c.old }
    ensures { Answers u.now c.old (Delete z) c.new result }
{
    let Some(pair) = c.pair_of(z) else {
        return Err(AFault::NoInstance(z));
    };
    if let Some((w, r)) = c.unmet_from(u, z, Some(pair), None) {
        return Err(AFault::Unmet(w, r));
    }
    c.remove(z);
    Ok(())
}

fn bind(u: &Universe, c: &mut Config, r: PortIx, z: InstNo, y: InstNo) -> Result<(), AFault>
    requires over { IsOver u.now c.old }
    requires port { r < port_count u.now }
    ensures { Answers u.now c.old (Bind r z y) c.new result }
{
    let Some(p) = c.pair_of(z) else {
        return Err(AFault::NoInstance(z));
    };
    let Some(q) = c.pair_of(y) else {
        return Err(AFault::NoInstance(y));
    };
    if z == y {
        return Err(AFault::SameInstance);
    }
    if !fits_between(u, p, q, r) {
        return Err(AFault::NoSuchPort);
    }
    if c.bound(r, z, y) {
        return Err(AFault::Bound);
    }
    c.tie_to(r, z, y, q)?;
    Ok(())
}

/// Whether a state of the one pair's type requires the port, and a state of the other's provides it.
fn fits_between(u: &Universe, p: PairIx, q: PairIx, r: PortIx) -> bool
    requires requirer { p < pair_count u.now }
    requires provider { q < pair_count u.now }
    ensures { result ≡ (type_requires u.now (type_of u.now p) r && type_provides u.now (type_of u.now q) r) }
{
    u.type_requires(u.type_of(p), r) && u.type_provides(u.type_of(q), r)
}

fn unbind(u: &Universe, c: &mut Config, r: PortIx, z: InstNo, y: InstNo) -> Result<(), AFault>
    requires over { IsOver u.now c.old }
    requires correct { Correct u.now c.old }
    ensures { Answers u.now c.old (Unbind r z y) c.new result }
{
    if !c.bound(r, z, y) {
        return Err(AFault::NotBound);
    }
    if let Some((w, s)) = c.unmet_untied(u, r, z, y) {
        return Err(AFault::Unmet(w, s));
    }
    c.untie(r, z, y);
    Ok(())
}

fn shift(u: &Universe, c: &mut Config, z: InstNo, from: PairIx, to: PairIx) -> Result<(), AFault>
    requires over { IsOver u.now c.old }
    requires correct { Correct u.now c.old }
    requires from { from < pair_count u.now }
    requires to { to < pair_count u.now }
    ensures { Answers u.now c.old (Move z from to) c.new result }
{
    let Some(actual) = c.pair_of(z) else {
        return Err(AFault::NoInstance(z));
    };
    if actual != from {
        return Err(AFault::NoState(z, actual));
    }
    if !u.next(from).contains(&to) {
        return Err(AFault::NoTransition);
    }
    if let Some((w, r)) = c.unmet_from(u, z, Some(from), Some(to)) {
        return Err(AFault::Unmet(w, r));
    }
    c.set_pair(z, to);
    Ok(())
}
