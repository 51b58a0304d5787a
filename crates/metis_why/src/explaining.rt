//! Why goals are never attained together.
ghost use Rattle.std.specs.Prelude.{◌≡◌, ◌<◌, ℕ, IfOk};
ghost use Rattle.std.specs.List.{All};
ghost use Rattle.metis_universe.specs.Terms.{AttainsGoals, IsGoalOf};
ghost use Rattle.metis_why.specs.Terms.{IfAllAttained, IfLacks, IsByChoice, IsEnough, IsFirstUnattained, IsLacking, IsTellable, IsWhy};
ghost use Rattle.metis_refusal.specs.Terms.{flag};

use crate::covering::first_covered;
use crate::distance::by_distance;
use crate::front::keep_near;
use crate::listing::lines_of;
use crate::minimizing::leave_out_all;
use crate::outside::PAIR_LIMIT;
use crate::reason::{Explanation, Line};
use crate::target::Target;
use metis_ids::{Goal, NoMemory, PairIx};
use metis_layers::layers;
use metis_universe::Universe;
use std::alloc::Global;

/// What keeps goals from being attained together.
#[derive(Drop)]
pub enum Explained {
    /// Nothing does: some list of actions attains them.
    Attained,
    /// No list of actions attains one of them: the first such, and why.
    Lacks(Explanation),
}

/// What keeps goals from being attained together: the first that no list of actions attains, and pairs that wait for one another,
/// each with its reason, of which none can be left out. The lines begin with the pairs that the goal wants; behind them stand, line
/// after line, the pairs for which these wait. It goes once over the universe. Then it tries to leave out each pair near the goal, where
/// it is not plain that this fails. A try goes over the pairs that fall with it, and reads each port and each move of these once; one
/// that succeeds goes over all pairs once more.
pub fn explain(alloc: Global, u: &Universe, goals: &[Goal]) -> Result<Explained, NoMemory>
    requires { All (IsGoalOf u.now) goals.now }
    ensures attained { IfAllAttained result (AttainsGoals u.now goals.now) }
    ensures first { IfLacks result (λ e. IsFirstUnattained u.now goals.now e.lacks) }
    ensures why { IfLacks result (λ e. IsWhy u.now e.lacks e.lines.items) }
    ensures tellable { IfLacks result (λ e. All (IsTellable u.now) e.lines.items) }
    ensures chosen { IfLacks result (λ e. IsByChoice u.now e.lacks e.lines.items) }
{
    u.keeps_invariant();
    let held = lacking(alloc, u)?;
    match first_covered(u, &held, goals) {
        Some(lacks) => {
            let goal = lacks;
            let target = Target { u, goal };
            let lines = chosen_lines(alloc, &target, &held)?;
            Ok(Explained::Lacks(Explanation { lacks, lines }))
        }
        None => Ok(Explained::Attained),
    }
}

// The pairs that are not attainable: they do not come in any round.
fn lacking(alloc: Global, u: &Universe) -> Result<[bool; PAIR_LIMIT], NoMemory>
    ensures { IfOk result (λ held. IsLacking u.now (flag held)) }
{
    let layers = layers(alloc, u)?;
    let mut held = [false; PAIR_LIMIT];
    for number in 0..u.pairs() {
        held[number as usize] = !layers.attained().has(PairIx(number));
    }
    Ok(held)
}

// The lines of the chosen barred set inside this one that covers the goal.
fn chosen_lines(
    alloc: Global,
    target: &Target,
    held: &[bool; PAIR_LIMIT],
) -> Result<Vec<Line>, NoMemory>
    requires lacking { IsLacking target.now.u.now (flag held.now) }
    requires enough { IsEnough target.now.u.now target.now.goal (flag held.now) }
    ensures why { IfOk result (λ v. IsWhy target.now.u.now target.now.goal v.items) }
    ensures chosen { IfOk result (λ v. IsByChoice target.now.u.now target.now.goal v.items) }
{
    let mut order = by_distance(alloc, target, held)?;
    let mut needed = keep_near(alloc, target, &mut order)?;
    leave_out_all(alloc, target, &mut needed, &order)?;
    let lines = lines_of(alloc, target, &needed)?;
    Ok(lines)
}
