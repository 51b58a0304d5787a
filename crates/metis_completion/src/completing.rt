//! Fresh actions with the bindings of their instances to given ones.
ghost use Rattle.std.specs.Prelude.{◌≡◌, ◌≤◌, ◌<◌, ◌++◌, OnOk, length, map};
ghost use Rattle.std.specs.List.{All};
ghost use Rattle.metis_universe.specs.Terms.{IsOf, pair_count};
ghost use Rattle.metis_layers.specs.Terms.{slots_above};
ghost use Rattle.metis_completion.specs.Terms.{completed, completed_action, given_demand, given_gained, given_holder, given_in, slot_ties};

use crate::given::Given;
use metis_ids::{Action, NoMemory, PairIx, PortIx, Tie};
use metis_universe::Universe;

/// Appends the fresh actions, where around each move the instance is bound to the given instances that its new pair demands, and
/// unbound from those that it demands no longer. It goes once over the fresh actions, and for each move over what its pairs require.
pub fn complete(
    u: &Universe,
    given: &Given,
    fresh: &[Action],
    actions: &mut Vec<Action>,
) -> Result<(), NoMemory>
    requires { All (IsOf u.now) fresh.now }
    ensures { OnOk result (actions.new.items ≡ actions.old.items ++ completed u.now (given_in given.now) fresh.now) }
{
    for action in fresh {
        complete_one(u, given, *action, actions)?;
    }
    Ok(())
}

// Appends one of them.
fn complete_one(
    u: &Universe,
    given: &Given,
    action: Action,
    actions: &mut Vec<Action>,
) -> Result<(), NoMemory>
    requires { IsOf u.now action }
    ensures { OnOk result (actions.new.items ≡ actions.old.items ++ completed_action u.now (given_in given.now) action) }
{
    if let Action::Move { inst, from, to } = action {
        add_ties(&Tie::Bound(inst), u, given, from, to, actions)?;
        actions.push(Action::Move { inst, from, to })?;
        return add_ties(&Tie::Unbound(inst), u, given, to, from, actions);
    }
    actions.push(action)?;
    Ok(())
}

// Binds the instance to the given instances that `to` takes and `from` does not, by port and then in order, or unbinds it.
fn add_ties(
    tie: &Tie,
    u: &Universe,
    given: &Given,
    from: PairIx,
    to: PairIx,
    actions: &mut Vec<Action>,
) -> Result<(), NoMemory>
    requires from { from < pair_count u.now }
    requires to { to < pair_count u.now }
    ensures { let standing = given_in given.now in OnOk result
        (actions.new.items ≡ actions.old.items ++ slot_ties tie.now (given_holder standing) (given_gained u.now standing from to)) }
{
    for port in u.requires_(to) {
        let held = taken(u, given, from, *port);
        let needed = taken(u, given, to, *port);
        tie_above(tie, given, *port, held, needed, actions)?;
    }
    Ok(())
}

// How many of the port's given instances an instance in the pair is bound to.
fn taken(u: &Universe, given: &Given, pair: PairIx, port: PortIx) -> u32
    requires { pair < pair_count u.now }
    ensures { result ≡ given_demand u.now (given_in given.now) pair port }
{
    if u.is_initial(pair) {
        return 0;
    }
    let demand = u.demand(pair, port);
    let standing = given.of(port);
    if standing.len() < demand as usize {
        standing.len() as u32
    } else {
        demand
    }
}

// Binds the instance to the port's given instances above number `held` up to `needed`, counted from 1, or unbinds it.
fn tie_above(
    tie: &Tie,
    given: &Given,
    port: PortIx,
    held: u32,
    needed: u32,
    actions: &mut Vec<Action>,
) -> Result<(), NoMemory>
    requires { needed ≤ length (given_in given.now port) }
    ensures { let standing = given_in given.now in OnOk result
        (actions.new.items ≡ actions.old.items ++ slot_ties tie.now (given_holder standing) (map (λ k. (port, k)) (slots_above held needed))) }
{
    let standing = given.of(port);
    for below in held..needed {
        actions.push(tie.action(port, standing[below as usize]))?;
    }
    Ok(())
}
