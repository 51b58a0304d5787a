//! The command that replays a plan.
ghost use Rattle.std.specs.Prelude.{◌≡◌, ◌<◌, ◌-◌, ◌^◌, IfOk, length, string_bytes};
ghost use Rattle.std.specs.List.{All};
ghost use Rattle.metis_commands.specs.Terms.{Replayed, verdict_line};
ghost use Rattle.metis_output.specs.Terms.{Puts, Says};
ghost use Rattle.metis_replay.specs.Terms.{IsVerdictOf};
ghost use Rattle.metis_universe.specs.Terms.{IsGoalOf, IsOf};

use metis_ids::{Action, Goal, NoMemory};
use metis_inputs::GoalsAnd;
use metis_output::{Answer, Lines, Once, Status, finish, line_answer};
use metis_outside::Sink;
use metis_replay::Verdict;
use metis_steady::{bad_line, replayed};
use metis_text::PlanText;
use metis_tokens::missing_line;
use metis_universe::Universe;
use std::alloc::{AllocError, Global};

/// Puts what the plan's actions come to from the empty configuration.
#[tactic(auto, using(metis_output::proofs::Given::puts))]
pub fn put<K: Sink>(alloc: Global, read: &GoalsAnd<PlanText>, out: &mut K) -> Status
    ensures { Puts K.Sink (Replayed read.now.asked.universe read.now.asked.goals.items read.now.text.plan.actions) out.old out.new result }
{
    let (u, goals) = (&read.asked.universe, &read.asked.goals);
    finish(alloc, answer(alloc, u, &read.text.plan.actions, goals), out)
}

fn answer(
    alloc: Global,
    u: &Universe,
    actions: &[Action],
    goals: &[Goal],
) -> Result<Answer<Once>, NoMemory>
    requires numbers { All (IsOf u.now) actions.now }
    requires few { length actions.now < 2 ^ 32 - 1 }
    requires within { All (IsGoalOf u.now) goals.now }
    ensures { IfOk result (Says (Replayed u.now goals.now actions.now) ⟦<Once as Lines>⟧.rest) }
{
    u.keeps_invariant();
    match replayed(alloc, u, actions, goals) {
        Ok((verdict, standing)) => {
            let line = verdict_line(alloc, u, standing, actions.len(), &verdict)?;
            Ok(line_answer(line, matches!(verdict, Verdict::Good)))
        }
        Err(_) => Err(NoMemory),
    }
}

// The line of the verdict on so many actions, after which so many instances stand.
fn verdict_line(
    alloc: Global,
    u: &Universe,
    standing: u64,
    actions: usize,
    verdict: &Verdict,
) -> Result<String, AllocError>
    requires { IsVerdictOf u.now verdict.now }
    ensures { IfOk result (λ line. string_bytes line ≡ verdict_line u.now standing actions verdict.now) }
{
    match *verdict {
        Verdict::Good => format!(in alloc; "good standing {standing} actions {actions}\n"),
        Verdict::Bad(number, fault) => bad_line(alloc, u, number, &fault),
        Verdict::Missing(goal, have, want) => missing_line(alloc, u, goal, have, want),
    }
}
