//! The table of commands: what each reads, and what it puts over that.
ghost use Rattle.std.specs.Prelude.{◌≡◌};
ghost use Rattle.metis_commands.specs.Terms.{Waved};
ghost use Rattle.metis_inputs.specs.Terms.{command_script};
ghost use Rattle.metis_output.specs.Terms.{Puts};
ghost use Rattle.metis_top.specs.Terms.{Over, Performs};

use metis_commands::{
    audit, confirm, control, crew, place, print, refute, replay, sim, waits, waves, why,
};
use metis_inputs::{
    Stop, UniverseAnd, goals_and, goals_of, goals_plan_and, plan_and, universe_and, universe_of,
};
use metis_output::Status;
use metis_outside::{Shelf, Sink};
use metis_plan_commands::{load, plan, reconfigure, rollout};
use metis_text::PlanText;
use metis_words::{Command, Verb};
use std::alloc::Global;

/// Does what the command's verb says: reads its inputs, and puts its answer over them, if they were read.
pub fn perform<H: Shelf, K: Sink>(
    alloc: Global,
    command: &Command,
    shelf: &mut H,
    out: &mut K,
) -> Result<Status, Stop>
    ensures { Performs H.files H.faults H.opens K.written K.faults (command_script command.now) shelf.old shelf.new out.old out.new result }
{
    match command.verb {
        Verb::Plan => over(alloc, goals_of(alloc, command, shelf), out, plan::put),
        Verb::Why => over(alloc, goals_of(alloc, command, shelf), out, why::put),
        Verb::Replay => over(alloc, goals_and(alloc, command, shelf), out, replay::put),
        Verb::Audit => over(alloc, goals_and(alloc, command, shelf), out, audit::put),
        Verb::Refute => over(alloc, goals_and(alloc, command, shelf), out, refute::put),
        Verb::Confirm => over(alloc, goals_and(alloc, command, shelf), out, confirm::put),
        Verb::Rollout => over(alloc, goals_and(alloc, command, shelf), out, rollout::put),
        Verb::Reconfigure => over(
            alloc,
            goals_plan_and(alloc, command, shelf),
            out,
            reconfigure::put,
        ),
        Verb::Print => over(alloc, universe_of(alloc, command, shelf), out, print::put),
        Verb::Sim => over(alloc, universe_and(alloc, command, shelf), out, sim::put),
        Verb::Waits => over(alloc, universe_and(alloc, command, shelf), out, waits::put),
        Verb::Waves => {
            let put_waves = |alloc, read: &UniverseAnd<PlanText>, out: &mut K|
                requires { command.now.verb ≡ Verb.Waves }
                ensures { Puts K.Sink (Waved read.now.universe read.now.text.plan.actions command.entry.now.numbers) out.old out.new result }
            { waves::put(alloc, read, command.numbers(), out) };
            over(alloc, universe_and(alloc, command, shelf), out, put_waves)
        }
        Verb::Place => over(alloc, plan_and(alloc, command, shelf), out, place::put),
        Verb::Crew => over(alloc, plan_and(alloc, command, shelf), out, crew::put),
        Verb::Control => over(alloc, plan_and(alloc, command, shelf), out, control::put),
        Verb::Load => Ok(load::put(alloc, command.size, out)),
    }
}

// Puts the answer over what was read, if it was.
fn over<Y: Drop, O, F: FnOnce(Global, &Y, &mut O) -> Status>(
    alloc: Global,
    read: Result<Y, Stop>,
    out: &mut O,
    put: F,
) -> Result<Status, Stop>
    requires { F.IsAlwaysCallable put }
    ensures { Over F.FnOnce put alloc read out.old out.new result }
{
    match read {
        Ok(inputs) => Ok(put(alloc, &inputs, out)),
        Err(stop) => Err(stop),
    }
}
