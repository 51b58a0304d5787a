//! The command that explains why goals are never attained.
ghost use Rattle.std.specs.Prelude.{IfOk};
ghost use Rattle.std.specs.List.{All};
ghost use Rattle.metis_commands.specs.Terms.{IsExplained, IsTold, WhyAnswer};
ghost use Rattle.metis_output.specs.Terms.{Puts, Says};
ghost use Rattle.metis_universe.specs.Terms.{IsGoalOf, IsWordable};

use metis_ids::{Goal, NoMemory};
use metis_inputs::Asked;
use metis_output::{Answer, Either, Fixed, Lines, Status, finish};
use metis_outside::Sink;
use metis_universe::Universe;
use metis_why::{Explained, explain};
use metis_why_text::{WhyLines, lines_of_why};
use std::alloc::Global;

// The line that says that goals are attained, or the text of an explanation.
type WhyAnswerLines<'a> = Either<Fixed, WhyLines<'a>>;

/// Puts why the first of the goals is never attained that is not, if there is one.
#[tactic(auto, using(metis_output::proofs::Given::puts))]
pub fn put<K: Sink>(alloc: Global, asked: &Asked, out: &mut K) -> Status
    ensures { Puts K.Sink (WhyAnswer asked.now.universe asked.now.goals.items) out.old out.new result }
{
    let explained = explained(alloc, &asked.universe, &asked.goals);
    finish(alloc, answer(alloc, asked, &explained), out)
}

fn explained(alloc: Global, u: &Universe, goals: &[Goal]) -> Result<Explained, NoMemory>
    requires within { All (IsGoalOf u.now) goals.now }
    requires wordable { All (IsWordable u.now) goals.now }
    ensures explained { IsExplained u.now goals.now result }
    ensures told { IfOk result (IsTold u.now) }
{
    explain(alloc, u, goals)
}

// The answer that says what was explained.
fn answer<'a>(
    alloc: Global,
    asked: &'a Asked,
    explained: &'a Result<Explained, NoMemory>,
) -> Result<Answer<WhyAnswerLines<'a>>, NoMemory>
    requires explained { IsExplained asked.now.universe asked.now.goals.items explained.now }
    requires told { IfOk explained.now (IsTold asked.now.universe) }
    ensures { IfOk result (Says (WhyAnswer asked.now.universe asked.now.goals.items) ⟦<WhyAnswerLines<'a> as Lines>⟧.rest) }
{
    match explained {
        Ok(Explained::Attained) => Ok(Answer {
            lines: Either::First(Fixed::of("attained\n")),
            good: true,
        }),
        Ok(Explained::Lacks(why)) => Ok(Answer {
            lines: Either::Second(lines_of_why(alloc, &asked.universe, why)),
            good: false,
        }),
        Err(_) => Err(NoMemory),
    }
}
