//! The command that goes from a plan to other targets.
ghost use Rattle.std.specs.Prelude.{◌<◌, ◌≤◌, ◌^◌, IfErr, IfOk, length};
ghost use Rattle.std.specs.List.{All};
ghost use Rattle.metis_layers.specs.Terms.{IsLayers};
ghost use Rattle.metis_output.specs.Terms.{Puts, Says};
ghost use Rattle.metis_plan_commands.specs.Terms.{IsOld, IsPrintable, IsRolledOut, RolledOut, RollsOutGoals, RollsOutTo};
ghost use Rattle.metis_steady.specs.Terms.{IsUnsteadyIn};
ghost use Rattle.metis_universe.specs.Terms.{Attains, IsGoalOf, IsOf, IsWordable, pair_count};

use crate::old::{Old, old_of};
use crate::plan::{PlannedLines, planned_answer, with_no_dups};
use crate::planned::{Planned, refusal};
use metis_choice::{Resolved, pairs_for_goals_hold_them, resolve_goals};
use metis_ids::{Action, Goal, NoMemory, PairIx};
use metis_inputs::GoalsAnd;
use metis_layers::table::Layers;
use metis_output::{Answer, Either, Lines, Once, Status, finish};
use metis_outside::Sink;
use metis_planner::{nothing_is_done_for_no_targets, plan_over};
use metis_rollout::{
    guarded_rollout_goes_on, guarded_rollout_never_lacks, rollout_from, rollout_replaces,
    teardown_leaves_nothing,
};
use metis_steady::{Unsteady, unsteady_answer};
use metis_text::PlanText;
use metis_universe::Universe;
use std::alloc::Global;

// The line that says why the old actions are no steadfast run, or the text of a rollout or of a refusal.
type RolloutLines<'a> = Either<Once, PlannedLines<'a>>;

/// Puts a plan that begins with the old actions, makes what the goals ask for beside what these leave, and then removes that; or a
/// refusal if nothing attains the goals; or why the old actions are no steadfast run.
#[tactic(auto, using(metis_output::proofs::Given::puts))]
pub fn put<K: Sink>(alloc: Global, read: &GoalsAnd<PlanText>, out: &mut K) -> Status
    ensures { Puts K.Sink (RolledOut read.now.asked.universe read.now.asked.goals.items read.now.text.plan.actions) out.old out.new result }
{
    let (u, goals) = (&read.asked.universe, &read.asked.goals);
    let rolled = rolled_out(alloc, u, goals, &read.text.plan.actions);
    finish(alloc, answer(alloc, read, &rolled), out)
}

fn answer<'a>(
    alloc: Global,
    read: &'a GoalsAnd<PlanText>,
    rolled: &'a Result<Planned, Unsteady>,
) -> Result<Answer<RolloutLines<'a>>, NoMemory>
    requires rolled { IsRolledOut read.now.asked.universe read.now.asked.goals.items read.now.text.plan.actions rolled.now }
    requires printable { IfOk rolled.now (IsPrintable read.now.asked.universe) }
    requires unsteady { IfErr rolled.now (IsUnsteadyIn read.now.asked.universe) }
    ensures { IfOk result (Says (RolledOut read.now.asked.universe read.now.asked.goals.items read.now.text.plan.actions) ⟦<RolloutLines<'a> as Lines>⟧.rest) }
{
    match rolled {
        Ok(planned) => {
            let Answer { lines, good } = planned_answer(&read.asked.universe, planned);
            let lines = Either::Second(lines);
            Ok(Answer { lines, good })
        }
        Err(why) => unsteady_answer(alloc, &read.asked.universe, why),
    }
}

// The plan that leads from what the old actions leave to the goals, or why there is none.
fn rolled_out(
    alloc: Global,
    u: &Universe,
    goals: &[Goal],
    old: &[Action],
) -> Result<Planned, Unsteady>
    requires few { length goals.now ≤ 256 }
    requires within { All (IsGoalOf u.now) goals.now }
    requires wordable { All (IsWordable u.now) goals.now }
    requires numbers { All (IsOf u.now) old.now }
    requires short { length old.now < 2 ^ 28 }
    ensures rolled_out { IsRolledOut u.now goals.now old.now result }
    ensures printable { IfOk result (IsPrintable u.now) }
    ensures unsteady { IfErr result (IsUnsteadyIn u.now) }
{
    let old = old_of(alloc, u, old)?;
    match roll_out(alloc, u, goals, old) {
        Ok(planned) => Ok(planned),
        Err(_) => Err(Unsteady::NoMemory),
    }
}

// The rollout to the pairs for the goals, or a refusal. If there is none, `old` is dropped by a call, which is proved once for all
// ways out.
fn roll_out(alloc: Global, u: &Universe, goals: &[Goal], old: Old) -> Result<Planned, NoMemory>
    requires few { length goals.now ≤ 256 }
    requires within { All (IsGoalOf u.now) goals.now }
    requires wordable { All (IsWordable u.now) goals.now }
    requires old { IsOld u.now old.actions.now old.left old.judged }
    ensures rolls { IfOk result (RollsOutGoals u.now goals.now old.entry.actions.now) }
    ensures printable { IfOk result (IsPrintable u.now) }
{
    u.keeps_invariant();
    pairs_for_goals_hold_them();
    let Ok((resolved, layers)) = resolve_goals(alloc, u, goals) else {
        drop(old);
        return Err(NoMemory);
    };
    match resolved {
        Resolved::Pairs(pairs) => roll_out_to(alloc, u, &layers, old, &pairs),
        Resolved::Lacks(lacks) => {
            drop(old);
            Ok(Planned::Refusal(refusal(u, layers, lacks)))
        }
    }
}

// The rollout to the pairs. There is a plan for them, since some list of actions attains them.
fn roll_out_to(
    alloc: Global,
    u: &Universe,
    layers: &Layers,
    old: Old,
    pairs: &[PairIx],
) -> Result<Planned, NoMemory>
    requires few { length pairs.now ≤ 256 }
    requires within { All (λ p. p < pair_count u.now) pairs.now }
    requires layers { IsLayers u.now layers.now }
    requires attained { Attains u.now pairs.now }
    requires old { IsOld u.now old.actions.now old.left old.judged }
    ensures rolls { IfOk result (RollsOutTo u.now old.entry.actions.now pairs.now) }
    ensures printable { IfOk result (IsPrintable u.now) }
{
    u.keeps_invariant();
    rollout_replaces();
    guarded_rollout_never_lacks();
    guarded_rollout_goes_on();
    teardown_leaves_nothing();
    nothing_is_done_for_no_targets();
    let Ok(fresh) = plan_over(alloc, u, layers, pairs) else {
        drop(old);
        return Err(NoMemory);
    };
    let actions = rollout_from(alloc, u, layers, old.actions, &fresh.actions, old.left)?;
    with_no_dups(alloc, u, actions, old.judged)
}
