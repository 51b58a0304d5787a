//! The command that checks an explanation.
ghost use Rattle.std.specs.Prelude.{◌≡◌, ◌<◌, ◌^◌, IfOk, length, string_bytes};
ghost use Rattle.std.specs.List.{All};
ghost use Rattle.metis_commands.specs.Terms.{Confirms, IsSayable, confirmation_line};
ghost use Rattle.metis_output.specs.Terms.{Puts, Says};
ghost use Rattle.metis_universe.specs.Terms.{IsGoalOf};
ghost use Rattle.metis_why.specs.Terms.{IsLineOf};

use crate::goal_line::goal_line;
use metis_ids::{Goal, NoMemory};
use metis_inputs::GoalsAnd;
use metis_output::{Answer, Lines, Once, Status, finish, line_answer};
use metis_outside::Sink;
use metis_universe::Universe;
use metis_why::{Confirmation, Explanation, Line, confirm};
use std::alloc::{AllocError, Global};

/// Puts what the lines come to as an explanation for the goals.
#[tactic(auto, using(metis_output::proofs::Given::puts))]
pub fn put<K: Sink>(alloc: Global, read: &GoalsAnd<Explanation>, out: &mut K) -> Status
    ensures { Puts K.Sink (Confirms read.now.asked.universe read.now.asked.goals.items read.now.text.lines.items) out.old out.new result }
{
    let (u, goals) = (&read.asked.universe, &read.asked.goals);
    finish(alloc, answer(alloc, u, &read.text.lines, goals), out)
}

fn answer(
    alloc: Global,
    u: &Universe,
    lines: &[Line],
    goals: &[Goal],
) -> Result<Answer<Once>, NoMemory>
    requires lines { All (IsLineOf u.now) lines.now }
    requires few { length lines.now < 2 ^ 32 }
    requires within { All (IsGoalOf u.now) goals.now }
    ensures { IfOk result (Says (Confirms u.now goals.now lines.now) ⟦<Once as Lines>⟧.rest) }
{
    u.keeps_invariant();
    let confirmation = confirm(u, lines, goals);
    let line = confirmation_line(alloc, u, &confirmation)?;
    Ok(line_answer(line, matches!(confirmation, Confirmation::Confirmed(_))))
}

fn confirmation_line(
    alloc: Global,
    u: &Universe,
    confirmation: &Confirmation,
) -> Result<String, AllocError>
    requires { IsSayable u.now confirmation.now }
    ensures { IfOk result (λ line. string_bytes line ≡ confirmation_line u.now confirmation.now) }
{
    match *confirmation {
        Confirmation::Confirmed(goal) => goal_line(alloc, u, "confirmed lacks", goal),
        Confirmation::Unfounded(place) => format!(in alloc; "unfounded line {}\n", place + 4),
        Confirmation::LacksNone => String::from_str(alloc, "lacksnone\n"),
    }
}
