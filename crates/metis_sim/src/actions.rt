//! Reads an action from the tokens of a line.
ghost use Rattle.std.specs.Prelude.{◌≡◌, ◌<◌, IfOk, IsTrue, Some, map};
ghost use Rattle.metis_universe.specs.Terms.{IsOf, pair_count, pair_of, port_named, state_named, type_named};
ghost use Rattle.metis_config.specs.Terms.{IsOver};
ghost use Rattle.metis_sim.specs.Terms.{action_in, between, bind_args, delete_args, delete_in, ends_in, formed, known, move_args, move_in, move_states, named, new_args, new_in, number_of, present, tie_args, tie_ends, unbind_args};

use crate::misread::Misread;
use metis_config::Config;
use metis_ids::{Action, InstNo, PairIx, PortIx, TypeIx};
use metis_tokens::bytes::is;
use metis_tokens::number_in;
use metis_universe::{Universe, name_in};

// A number.
fn number(token: &[u8]) -> Result<u32, Misread>
    ensures { result ≡ formed (number_of token.now) }
{
    match number_in(token) {
        Ok(number) => Ok(number),
        Err(_) => Err(Misread::Form),
    }
}

// What a name stands for, if it is there.
fn known<A: Drop>(looked: Option<A>) -> Result<A, Misread>
    ensures { result ≡ known looked }
{
    looked.ok_or(Misread::Name)
}

fn type_in(u: &Universe, token: &[u8]) -> Result<TypeIx, Misread>
    ensures { result ≡ named (type_named u.now) token.now }
{
    match name_in(token) {
        Some(name) => known(u.type_named(name)),
        None => Err(Misread::Form),
    }
}

fn port_in(u: &Universe, token: &[u8]) -> Result<PortIx, Misread>
    ensures { result ≡ named (port_named u.now) token.now }
{
    match name_in(token) {
        Some(name) => known(u.port_named(name)),
        None => Err(Misread::Form),
    }
}

// The pair of the instance, if it is there.
fn present(c: &Config, z: InstNo) -> Result<PairIx, Misread>
    ensures { result ≡ present z (pair_of c.now z) }
{
    c.pair_of(z).ok_or(Misread::Absent(z))
}

fn new_in(u: &Universe, z: &[u8], kind: &[u8]) -> Result<Action, Misread>
    ensures { result ≡ new_in u.now z.now kind.now }
{
    let inst = number(z)?;
    let kind = type_in(u, kind)?;
    Ok(Action::New {
        inst: InstNo(inst),
        kind,
    })
}

fn delete_in(z: &[u8]) -> Result<Action, Misread>
    ensures { result ≡ delete_in z.now }
{
    let inst = number(z)?;
    Ok(Action::Delete { inst: InstNo(inst) })
}

// A port, the instance that requires it and the one that provides it.
#[tactic(auto, unfolding(crate::specs::Orders::ends_in))]
fn ends_in(u: &Universe, r: &[u8], z: &[u8], y: &[u8]) -> Result<(PortIx, u32, u32), Misread>
    ensures { result ≡ ends_in u.now r.now z.now y.now }
{
    let inst = number(z)?;
    let to = number(y)?;
    let port = port_in(u, r)?;
    Ok((port, inst, to))
}

// The move of an instance between two states of its type.
fn between(u: &Universe, c: &Config, z: InstNo, from: &str, to: &str) -> Result<Action, Misread>
    requires { IsOver u.now c.now }
    ensures { result ≡ between u.now c.now z from.now to.now }
{
    let pair = present(c, z)?;
    let kind = u.type_of(pair);
    let from = known(state_near(u, kind, pair, from))?;
    let to = known(state_near(u, kind, beside(u, pair), to))?;
    Ok(Action::Move { inst: z, from, to })
}

// The pair of the type and its state of this name. The pair `near` is tried first. It may be any: if it is the one that is
// meant, none is looked for.
fn state_near(u: &Universe, kind: TypeIx, near: PairIx, name: &str) -> Option<PairIx>
    ensures { result ≡ state_named u.now kind name.now }
{
    if is_state(u, kind, near, name) {
        Some(near)
    } else {
        u.state_named(kind, name)
    }
}

// Whether the pair is of the type, and has a state of this name.
fn is_state(u: &Universe, kind: TypeIx, pair: PairIx, name: &str) -> bool
    ensures { IsTrue result → state_named u.now kind name.now ≡ Some pair }
{
    u.keeps_invariant();
    pair.0 < u.pairs() && u.type_of(pair) == kind && name == u.state_name(pair)
}

// A pair that may be moved to from this one, as a guess.
fn beside(u: &Universe, pair: PairIx) -> PairIx
    requires { pair < pair_count u.now }
{
    u.next(pair).first().copied().unwrap_or(pair)
}

fn move_in(u: &Universe, c: &Config, z: &[u8], from: &[u8], to: &[u8]) -> Result<Action, Misread>
    requires { IsOver u.now c.now }
    ensures { result ≡ move_in u.now c.now z.now from.now to.now }
{
    let inst = number(z)?;
    match (name_in(from), name_in(to)) {
        (Some(from), Some(to)) => between(u, c, InstNo(inst), from, to),
        _ => Err(Misread::Form),
    }
}

fn new_args(u: &Universe, args: &[&[u8]]) -> Result<Action, Misread>
    ensures { result ≡ new_args u.now (map (λ t. t.now) args.now) }
{
    match args {
        [z, kind] => new_in(u, z, kind),
        _ => Err(Misread::Form),
    }
}

fn delete_args(args: &[&[u8]]) -> Result<Action, Misread>
    ensures { result ≡ delete_args (map (λ t. t.now) args.now) }
{
    match args {
        [z] => delete_in(z),
        _ => Err(Misread::Form),
    }
}

// A port, and its two ends.
fn tie_ends(u: &Universe, r: &[u8], ends: &[&[u8]]) -> Result<(PortIx, u32, u32), Misread>
    ensures { result ≡ tie_ends u.now r.now (map (λ t. t.now) ends.now) }
{
    match ends {
        [z, y] => ends_in(u, r, z, y),
        _ => Err(Misread::Form),
    }
}

fn tie_args(u: &Universe, args: &[&[u8]]) -> Result<(PortIx, u32, u32), Misread>
    ensures { result ≡ tie_args u.now (map (λ t. t.now) args.now) }
{
    match args {
        [r, ends @ ..] => tie_ends(u, r, ends),
        [] => Err(Misread::Form),
    }
}

fn bind_args(u: &Universe, args: &[&[u8]]) -> Result<Action, Misread>
    ensures { result ≡ bind_args u.now (map (λ t. t.now) args.now) }
{
    let (port, inst, to) = tie_args(u, args)?;
    Ok(Action::Bind {
        port,
        inst: InstNo(inst),
        to: InstNo(to),
    })
}

fn unbind_args(u: &Universe, args: &[&[u8]]) -> Result<Action, Misread>
    ensures { result ≡ unbind_args u.now (map (λ t. t.now) args.now) }
{
    let (port, inst, to) = tie_args(u, args)?;
    Ok(Action::Unbind {
        port,
        inst: InstNo(inst),
        to: InstNo(to),
    })
}

// The two states of a move.
fn move_states(u: &Universe, c: &Config, z: &[u8], states: &[&[u8]]) -> Result<Action, Misread>
    requires { IsOver u.now c.now }
    ensures { result ≡ move_states u.now c.now z.now (map (λ t. t.now) states.now) }
{
    match states {
        [from, to] => move_in(u, c, z, from, to),
        _ => Err(Misread::Form),
    }
}

fn move_args(u: &Universe, c: &Config, args: &[&[u8]]) -> Result<Action, Misread>
    requires { IsOver u.now c.now }
    ensures { result ≡ move_args u.now c.now (map (λ t. t.now) args.now) }
{
    match args {
        [z, states @ ..] => move_states(u, c, z, states),
        [] => Err(Misread::Form),
    }
}

/// The action of the verb and the tokens behind it, or why they ask for none.
pub fn action_in(u: &Universe, c: &Config, verb: &[u8], args: &[&[u8]]) -> Result<Action, Misread>
    requires { IsOver u.now c.now }
    ensures action { result ≡ action_in u.now c.now verb.now (map (λ t. t.now) args.now) }
    ensures numbers { IfOk result (IsOf u.now) }
{
    action_of(u, c, verb, args)
}

fn action_of(u: &Universe, c: &Config, verb: &[u8], args: &[&[u8]]) -> Result<Action, Misread>
    requires { IsOver u.now c.now }
    ensures { result ≡ action_in u.now c.now verb.now (map (λ t. t.now) args.now) }
{
    if is(verb, "new") {
        new_args(u, args)
    } else if is(verb, "delete") {
        delete_args(args)
    } else if is(verb, "bind") {
        bind_args(u, args)
    } else if is(verb, "unbind") {
        unbind_args(u, args)
    } else if is(verb, "move") {
        move_args(u, c, args)
    } else {
        Err(Misread::Form)
    }
}
