//! The command that gives a plan's actions the waits that they need.
ghost use Rattle.std.specs.Prelude.{◌<◌, ◌-◌, ◌^◌, IfOk, List, length, ℕ};
ghost use Rattle.metis_commands.specs.Terms.{Awaited};
ghost use Rattle.metis_output.specs.Terms.{Puts, Says};
ghost use Rattle.metis_steady.specs.Terms.{IsSteady};
ghost use Rattle.metis_text.specs.Terms.{IsWellFormed};

use metis_ids::{NoMemory, Plan};
use metis_inputs::UniverseAnd;
use metis_output::{Answer, Either, Lines, Once, Status, finish};
use metis_outside::Sink;
use metis_steady::{Unsteady, steady_waits, unsteady_answer};
use metis_text::{PlanLines, PlanText, lines_of_plan, written_run_is_well_formed};
use metis_universe::Universe;
use metis_waits::Waits;
use std::alloc::Global;

// The line that says why actions are no steadfast run, or the text of the plan.
type AwaitedLines<'a> = Either<Once, PlanLines<'a>>;

/// Puts the first action that cannot be done or is not steadfast, or else the text of the plan in which each action names what it waits
/// for of the other instances, in place of what its own text said. Actions and dups stay.
#[tactic(auto, using(metis_output::proofs::Given::puts))]
pub fn put<K: Sink>(alloc: Global, read: &UniverseAnd<PlanText>, out: &mut K) -> Status
    ensures { Puts K.Sink (Awaited read.now.universe read.now.text.plan) out.old out.new result }
{
    let (u, plan) = (&read.universe, &read.text.plan);
    let steady = steady_waits(alloc, u, &plan.actions);
    finish(alloc, answer(alloc, u, plan, &steady), out)
}

fn answer<'a>(
    alloc: Global,
    u: &'a Universe,
    plan: &'a Plan,
    steady: &'a Result<Waits, Unsteady>,
) -> Result<Answer<AwaitedLines<'a>>, NoMemory>
    requires formed { (after : List (List ℕ)) × IsWellFormed u.now plan.now after }
    requires few { length plan.now.actions < 2 ^ 32 - 1 }
    requires steady { IsSteady u.now plan.now.actions steady.now }
    ensures { IfOk result (Says (Awaited u.now plan.now) ⟦<AwaitedLines<'a> as Lines>⟧.rest) }
{
    u.keeps_invariant();
    written_run_is_well_formed();
    match steady {
        Ok(waits) => Ok(Answer {
            lines: Either::Second(lines_of_plan(u, plan, waits)),
            good: true,
        }),
        Err(why) => unsteady_answer(alloc, u, why),
    }
}
