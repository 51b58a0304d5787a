//! What a line asks of a session.
ghost use Rattle.std.specs.Prelude.{◌≡◌, ◌||◌, IfOk, IsFalse, OnErr, codes, map};
ghost use Rattle.std.specs.Str.{bytes_eq};
ghost use Rattle.metis_universe.specs.Terms.{IsOf};
ghost use Rattle.metis_config.specs.Terms.{IsOver};
ghost use Rattle.metis_sim.specs.Terms.{IsAskedOf, asked_by, asked_in, asked_of_words, told};

use crate::Reply;
use crate::actions::action_in;
use crate::check::check_reply;
use crate::misread::Misread;
use metis_actions::AFault;
use metis_config::Config;
use metis_ids::{Action, NoMemory};
use metis_tokens::bytes::is;
use metis_tokens::tokens_of;
use metis_universe::Universe;
use std::alloc::Global;

/// What a line asks of a session.
#[derive(Clone, Copy)]
pub enum Asked {
    /// To go back.
    Undo,
    /// To end.
    Quit,
    /// To do this action.
    Act(Action),
    /// Nothing but this reply.
    Tell(Reply),
}

/// What the line asks for, in this configuration. The bytes are without the line feed. To undo or to quit is asked without
/// memory.
pub fn asked_in(alloc: Global, u: &Universe, c: &Config, bytes: &[u8]) -> Result<Asked, NoMemory>
    requires { IsOver u.now c.now }
    ensures asked { IfOk result (λ a. a ≡ asked_in u.now c.now bytes.now) }
    ensures numbers { IfOk result (IsAskedOf u.now) }
    ensures memory { OnErr result (IsFalse (bytes_eq bytes.now (codes "undo") || bytes_eq bytes.now (codes "quit"))) }
{
    if is(bytes, "undo") {
        return Ok(Asked::Undo);
    }
    if is(bytes, "quit") {
        return Ok(Asked::Quit);
    }
    if is(bytes, "show") {
        return Ok(Asked::Tell(Reply::Show));
    }
    let tokens = tokens_of(alloc, bytes)?;
    asked_of_words(alloc, u, c, &tokens)
}

fn asked_of_words(
    alloc: Global,
    u: &Universe,
    c: &Config,
    tokens: &[&[u8]],
) -> Result<Asked, NoMemory>
    requires { IsOver u.now c.now }
    ensures asked { IfOk result (λ a. a ≡ asked_of_words u.now c.now (map (λ t. t.now) tokens.now)) }
    ensures numbers { IfOk result (IsAskedOf u.now) }
{
    match tokens {
        [verb, words @ ..] if is(verb, "check") => {
            Ok(Asked::Tell(check_reply(alloc, u, c, words)?))
        }
        [verb, words @ ..] => Ok(asked_by(u, action_in(u, c, verb, words))),
        [] => Ok(Asked::Tell(Reply::BadLine)),
    }
}

// The action that was read, or why none was.
fn asked_by(u: &Universe, read: Result<Action, Misread>) -> Asked
    requires { IfOk read (IsOf u.now) }
    ensures asked { result ≡ asked_by read }
    ensures numbers { IsAskedOf u.now result }
{
    match read {
        Ok(action) => Asked::Act(action),
        Err(wrong) => Asked::Tell(told(wrong)),
    }
}

// What a line without an action is told.
fn told(wrong: Misread) -> Reply
    ensures { result ≡ told wrong }
{
    match wrong {
        Misread::Form => Reply::BadLine,
        Misread::Name => Reply::Unknown,
        Misread::Absent(z) => Reply::Refused(AFault::NoInstance(z)),
    }
}
