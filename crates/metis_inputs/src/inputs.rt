//! From the words of a command to its inputs, as the row of its verb says them. What was read before a fault is dropped by a call,
//! which is proved once for all ways out.
ghost use Rattle.std.specs.Prelude.{◌≤◌, []};
ghost use Rattle.metis_words.specs.Terms.{OfGoals, OfUniverse, file_count, target_limit};
ghost use Rattle.metis_inputs.specs.Terms.{Gathers, asked_said, goals_and, goals_and_said, goals_and_then, goals_plan_and, goals_plan_and_said, inputs_then, plan_and, plan_and_said, universe_and, universe_and_said, universe_said};

use crate::asked::{Asked, GoalsAnd, GoalsPlanAnd, PlanAnd, UniverseAnd};
use crate::reading::{goals_from, text_from, universe_from};
use crate::stop::Stop;
use crate::texts::Text;
use metis_outside::Shelf;
use metis_text::PlanText;
use metis_universe::Universe;
use metis_words::Command;
use std::alloc::Global;

/// The universe of a command that reads nothing else.
pub fn universe_of<H: Shelf>(
    alloc: Global,
    command: &Command,
    shelf: &mut H,
) -> Result<Universe, Stop>
    requires { 1 ≤ file_count command.now.verb }
    ensures { Gathers H.files H.faults H.opens universe_said (inputs_then (OfUniverse []) command.now) shelf.old shelf.new result }
{
    universe_from(alloc, shelf, 2, command.file(0))
}

/// The universe of a command and the goals of its targets, if it reads nothing else.
pub fn goals_of<H: Shelf>(alloc: Global, command: &Command, shelf: &mut H) -> Result<Asked, Stop>
    requires files { 1 ≤ file_count command.now.verb }
    requires targets { target_limit command.now.verb ≤ 256 }
    ensures { Gathers H.files H.faults H.opens asked_said (inputs_then (OfGoals []) command.now) shelf.old shelf.new result }
{
    goals_from(alloc, shelf, command.file(0), 3, command.targets())
}

/// The universe of a command, and the text behind it.
pub fn universe_and<T: Text, H: Shelf>(
    alloc: Global,
    command: &Command,
    shelf: &mut H,
) -> Result<UniverseAnd<T>, Stop>
    requires { 2 ≤ file_count command.now.verb }
    ensures { Gathers H.files H.faults H.opens universe_and_said (inputs_then (universe_and T.kind) command.now) shelf.old shelf.new result }
{
    let universe = universe_from(alloc, shelf, 2, command.file(0))?;
    match text_from(alloc, shelf, 3, &universe, command.file(1)) {
        Ok(text) => Ok(UniverseAnd { universe, text }),
        Err(stop) => {
            drop(universe);
            Err(stop)
        }
    }
}

/// The universe of a command, the goals of its targets, and the text behind them.
pub fn goals_and<T: Text, H: Shelf>(
    alloc: Global,
    command: &Command,
    shelf: &mut H,
) -> Result<GoalsAnd<T>, Stop>
    requires files { 2 ≤ file_count command.now.verb }
    requires targets { target_limit command.now.verb ≤ 256 }
    ensures { Gathers H.files H.faults H.opens goals_and_said (inputs_then (goals_and T.kind) command.now) shelf.old shelf.new result }
{
    goals_and_from(alloc, command, shelf, 4)
}

// The universe of a command, the goals of its targets, the first of which is the word at this place, and the text behind the universe.
fn goals_and_from<T: Text, H: Shelf>(
    alloc: Global,
    command: &Command,
    shelf: &mut H,
    place: u32,
) -> Result<GoalsAnd<T>, Stop>
    requires files { 2 ≤ file_count command.now.verb }
    requires targets { target_limit command.now.verb ≤ 256 }
    requires place { place ≤ 5 }
    ensures { Gathers H.files H.faults H.opens goals_and_said (goals_and_then T.kind place command.now) shelf.old shelf.new result }
{
    let asked = goals_from(alloc, shelf, command.file(0), place, command.targets())?;
    match text_from(alloc, shelf, 3, &asked.universe, command.file(1)) {
        Ok(text) => Ok(GoalsAnd { asked, text }),
        Err(stop) => {
            drop(asked);
            Err(stop)
        }
    }
}

/// The universe of a command, the goals of its targets, the plan behind them, and the text behind that.
pub fn goals_plan_and<T: Text, H: Shelf>(
    alloc: Global,
    command: &Command,
    shelf: &mut H,
) -> Result<GoalsPlanAnd<T>, Stop>
    requires files { 3 ≤ file_count command.now.verb }
    requires targets { target_limit command.now.verb ≤ 256 }
    ensures { Gathers H.files H.faults H.opens goals_plan_and_said (inputs_then (goals_plan_and T.kind) command.now) shelf.old shelf.new result }
{
    let planned: GoalsAnd<PlanText> = goals_and_from(alloc, command, shelf, 5)?;
    match text_from(alloc, shelf, 4, &planned.asked.universe, command.file(2)) {
        Ok(text) => Ok(GoalsPlanAnd { planned, text }),
        Err(stop) => {
            drop(planned);
            Err(stop)
        }
    }
}

/// The universe and the plan of a command, and the text behind them.
pub fn plan_and<T: Text, H: Shelf>(
    alloc: Global,
    command: &Command,
    shelf: &mut H,
) -> Result<PlanAnd<T>, Stop>
    requires { 3 ≤ file_count command.now.verb }
    ensures { Gathers H.files H.faults H.opens plan_and_said (inputs_then (plan_and T.kind) command.now) shelf.old shelf.new result }
{
    let planned = universe_and(alloc, command, shelf)?;
    match text_from(alloc, shelf, 4, &planned.universe, command.file(2)) {
        Ok(text) => Ok(PlanAnd { planned, text }),
        Err(stop) => {
            drop(planned);
            Err(stop)
        }
    }
}
