//! The command that runs a controller and agents over a net that its script decides.
ghost use Rattle.std.specs.Prelude.{◌≤◌, IfOk, length};
ghost use Rattle.metis_commands.specs.Terms.{Controlled};
ghost use Rattle.metis_output.specs.Terms.{Puts, Says};
ghost use Rattle.metis_steady.specs.Terms.{IsSteady};

use metis_control::{AnswerLines, answer_lines};
use metis_ids::{Action, NoMemory};
use metis_inputs::PlanAnd;
use metis_output::{Answer, Either, Lines, Once, Status, finish};
use metis_outside::Sink;
use metis_steady::{Unsteady, steady_waits, unsteady_answer};
use metis_universe::Universe;
use metis_waits::Waits;
use std::alloc::Global;

// The line that says why actions are no steadfast run, or what a controller and agents over them answer.
type ControlLines<'a> = Either<Once, AnswerLines<'a>>;

/// Puts the first action that cannot be done or is not steadfast, or else what a controller and the agents of the plan's instances
/// answer to the lines of the script.
#[tactic(auto, using(metis_output::proofs::Given::puts))]
pub fn put<K: Sink>(alloc: Global, read: &PlanAnd<Vec<u8>>, out: &mut K) -> Status
    ensures { Puts K.Sink (Controlled read.now.planned.universe read.now.planned.text.plan.actions read.now.text.items) out.old out.new result }
{
    let (u, actions) = (&read.planned.universe, &read.planned.text.plan.actions);
    let steady = steady_waits(alloc, u, actions);
    finish(alloc, answer(alloc, u, actions, &steady, &read.text), out)
}

fn answer<'a>(
    alloc: Global,
    u: &Universe,
    actions: &'a [Action],
    steady: &'a Result<Waits, Unsteady>,
    script: &'a [u8],
) -> Result<Answer<ControlLines<'a>>, NoMemory>
    requires steady { IsSteady u.now actions.now steady.now }
    requires short { length script.now ≤ 65536 }
    ensures { IfOk result (Says (Controlled u.now actions.now script.now) ⟦<ControlLines<'a> as Lines>⟧.rest) }
{
    match steady {
        Ok(waits) => Ok(Answer {
            lines: Either::Second(answer_lines(alloc, actions, waits, script)?),
            good: true,
        }),
        Err(why) => unsteady_answer(alloc, u, why),
    }
}
