//! Whether a plan's actions are a steadfast run.
ghost use Rattle.std.specs.Prelude.{◌≡◌, ◌<◌, ◌-◌, ◌^◌, IfErr, IfOk, false, length, string_bytes};
ghost use Rattle.std.specs.List.{All};
ghost use Rattle.metis_actions.specs.Terms.{IsFaultOf, fault_text};
ghost use Rattle.metis_steady.specs.Terms.{IsFollowed, IsSteady, IsUnsteady, IsUnsteadyIn, TellsUnsteady, bad_line, standing_after};
ghost use Rattle.metis_replay.specs.Terms.{IsVerdictOf, Tells, after_feeding};
ghost use Rattle.metis_universe.specs.Terms.{IsGoalOf, IsOf, IsSteadfastRun};

use metis_actions::{AFault, fault_text};
use metis_config::Config;
use metis_ids::{Action, Goal, NoMemory};
use metis_output::{Answer, Either, Lines, Once, number_line};
use metis_replay::{Replay, Verdict, replay_is_exact, replay_keeps_what_was_done};
use metis_universe::Universe;
use metis_waits::{WFault, Waits, first_loose, waits};
use std::alloc::{AllocError, Global};

/// What the actions came to, and how many instances stood then.
pub fn replayed(
    alloc: Global,
    u: &Universe,
    actions: &[Action],
    goals: &[Goal],
) -> Result<(Verdict, u64), NoMemory>
    requires numbers { All (IsOf u.now) actions.now }
    requires few { length actions.now < 2 ^ 32 - 1 }
    requires within { All (IsGoalOf u.now) goals.now }
    ensures tells { IfOk result (λ r. Tells u.now actions.now goals.now r.0) }
    ensures numbers { IfOk result (λ r. IsVerdictOf u.now r.0) }
    ensures standing { IfOk result (λ r. r.0 ≡ Verdict.Good → r.1 ≡ standing_after u.now actions.now) }
{
    replay_is_exact();
    replay_keeps_what_was_done();
    u.keeps_invariant();
    let replay = replay_of(alloc, u, actions)?;
    Ok((replay.finish(goals), replay.config().count()))
}

/// The replay of the actions from the empty configuration.
pub fn replay_of<'u>(
    alloc: Global,
    u: &'u Universe,
    actions: &[Action],
) -> Result<Replay<'u>, NoMemory>
    requires numbers { All (IsOf u.now) actions.now }
    requires few { length actions.now < 2 ^ 32 - 1 }
    ensures { IfOk result (λ replay. replay ≡ after_feeding u.now actions.now) }
{
    replay_keeps_what_was_done();
    let mut replay = Replay::new(alloc, u);
    for action in actions {
        replay.feed(action)?;
    }
    Ok(replay)
}

/// What actions left from the empty configuration on, or the first of them that cannot be done.
#[derive(Drop)]
pub enum Followed {
    /// Each was done, and left this.
    Left(Config),
    /// The number of the first that cannot be done, counted from 1, and why.
    Bad(u32, AFault),
}

/// Follows the actions from the empty configuration on.
pub fn follow(alloc: Global, u: &Universe, actions: &[Action]) -> Result<Followed, NoMemory>
    requires numbers { All (IsOf u.now) actions.now }
    requires few { length actions.now < 2 ^ 32 - 1 }
    ensures { IfOk result (IsFollowed u.now actions.now) }
{
    replay_is_exact();
    replay_keeps_what_was_done();
    u.keeps_invariant();
    let replay = replay_of(alloc, u, actions)?;
    match replay.finish(&[]) {
        Verdict::Bad(number, fault) => Ok(Followed::Bad(number, fault)),
        Verdict::Good | Verdict::Missing(..) => Ok(Followed::Left(replay.into_config())),
    }
}

/// Why actions are no steadfast run, or that memory ran out.
#[derive(Clone, Copy)]
pub enum Unsteady {
    /// The number of the first that cannot be done, counted from 1, and why.
    Bad(u32, AFault),
    /// They can be done, and this is the number of the first that is not steadfast, counted from 1.
    Loose(u32),
    /// Memory ran out.
    NoMemory,
}

/// What each of the actions waits for, where they are a steadfast run from the empty configuration on.
pub fn steady_waits(alloc: Global, u: &Universe, actions: &[Action]) -> Result<Waits, Unsteady>
    requires numbers { All (IsOf u.now) actions.now }
    requires few { length actions.now < 2 ^ 32 - 1 }
    ensures { IsSteady u.now actions.now result }
{
    match follow(alloc, u, actions) {
        Ok(Followed::Left(_left)) => match waits(alloc, u, actions) {
            Ok(waits) => Ok(waits),
            Err(WFault::Loose(number)) => Err(Unsteady::Loose(number)),
            Err(WFault::NoMemory) => Err(Unsteady::NoMemory),
        },
        Ok(Followed::Bad(number, fault)) => Err(Unsteady::Bad(number, fault)),
        Err(_) => Err(Unsteady::NoMemory),
    }
}

/// Whether the actions are a steadfast run from the empty configuration on. It makes no waits, for callers who need none.
pub fn check_steady(alloc: Global, u: &Universe, actions: &[Action]) -> Result<(), Unsteady>
    requires numbers { All (IsOf u.now) actions.now }
    requires few { length actions.now < 2 ^ 32 - 1 }
    ensures steady { IfOk result (λ _. IsSteadfastRun u.now actions.now) }
    ensures unsteady { IfErr result (IsUnsteady u.now actions.now) }
{
    match follow(alloc, u, actions) {
        Ok(Followed::Left(_left)) => match first_loose(alloc, u, actions) {
            Ok(None) => Ok(()),
            Ok(Some(number)) => Err(Unsteady::Loose(number)),
            Err(_) => Err(Unsteady::NoMemory),
        },
        Ok(Followed::Bad(number, fault)) => Err(Unsteady::Bad(number, fault)),
        Err(_) => Err(Unsteady::NoMemory),
    }
}

/// The answer that says which of the actions keeps them from being a steadfast run, and why.
pub fn unsteady_answer<L: Lines + Drop>(
    alloc: Global,
    u: &Universe,
    why: &Unsteady,
) -> Result<Answer<Either<Once, L>>, NoMemory>
    requires { IsUnsteadyIn u.now why.now }
    ensures lines { IfOk result (λ a. TellsUnsteady u.now why.now (⟦<Either<Once, L> as Lines>⟧.rest a.lines)) }
    ensures good { IfOk result (λ a. a.good ≡ false) }
{
    Ok(Answer {
        lines: Either::First(unsteady_line(alloc, u, why)?),
        good: false,
    })
}

// The line that says so.
fn unsteady_line(alloc: Global, u: &Universe, why: &Unsteady) -> Result<Once, NoMemory>
    requires { IsUnsteadyIn u.now why.now }
    ensures { IfOk result (TellsUnsteady u.now why.now) }
{
    u.keeps_invariant();
    match *why {
        Unsteady::Bad(number, fault) => Ok(Once::of(bad_line(alloc, u, number, &fault)?)),
        Unsteady::Loose(number) => Ok(Once::of(number_line(alloc, "loose", number)?)),
        Unsteady::NoMemory => Err(NoMemory),
    }
}

/// The line of an action that cannot be done, with its number and why.
pub fn bad_line(
    alloc: Global,
    u: &Universe,
    number: u32,
    fault: &AFault,
) -> Result<String, AllocError>
    requires { IsFaultOf u.now fault.now }
    ensures { IfOk result (λ line. string_bytes line ≡ bad_line number (fault_text u.now fault.now)) }
{
    let text = fault_text(alloc, u, fault)?;
    format!(in alloc; "bad {number} {text}\n")
}
