//! The command that goes from a plan to other targets by wishes, and keeps what serves.
ghost use Rattle.std.specs.Prelude.{◌≡◌, ◌<◌, ◌≤◌, ◌^◌, ◌∷◌, [], List, IfErr, IfOk, length, string_bytes};
ghost use Rattle.std.specs.List.{All};
ghost use Rattle.metis_ids.specs.declared.actions.Action.{Action};
ghost use Rattle.metis_ids.specs.declared.goals.Goal.{Goal};
ghost use Rattle.metis_layers.specs.Terms.{IsLayers};
ghost use Rattle.metis_output.specs.Terms.{Puts, Says};
ghost use Rattle.metis_plan_commands.specs.Terms.{HasAttempted, IsAttempted, IsObstacleIn, IsOld, IsSound, IsTellable, Reconfigured, obstacle_line};
ghost use Rattle.metis_reconfigure.specs.Terms.{IsAnswered, Reconfiguration};
ghost use Rattle.metis_steady.specs.Terms.{IsUnsteadyIn};
ghost use Rattle.metis_universe.specs.Terms.{AttainsGoals, IsGoalOf, IsOf, IsUniverse, IsWordable, Universe};
ghost use Rattle.metis_wishes.specs.declared.wish.Wish.{Wish};

use crate::old::{Old, old_of};
use crate::plan::{PlannedLines, planned_answer, with_no_dups};
use crate::planned::{Planned, refusal};
use metis_choice::{Resolved, pairs_for_goals_hold_them, resolve_goals};
use metis_ids::{Action, Goal, NoMemory};
use metis_inputs::GoalsPlanAnd;
use metis_layers::table::Layers;
use metis_output::{Answer, Either, Lines, Once, Status, finish, number_line};
use metis_outside::Sink;
use metis_reconfigure::{
    Obstacle, Request, a_reconfiguration_ends_in_what_stays, a_reconfiguration_is_a_steadfast_run,
    a_reconfiguration_is_tidy, guarded_reconfiguration_goes_on,
    guarded_reconfiguration_never_lacks, reconfigure, the_goals_are_held_in_the_end,
    the_kept_are_left_alone, the_kept_never_fall, what_is_wished_stays,
};
use metis_steady::{Unsteady, unsteady_answer};
use metis_universe::Universe;
use metis_wishes::Wish;
use std::alloc::{AllocError, Global};

/// What goals and wishes come to.
#[derive(Drop)]
pub enum Attempt {
    /// A plan that begins with the old actions, or a refusal of the goals.
    Planned(Planned),
    /// What stands in the way.
    Barred(Obstacle),
}

// A line that says what stands in the way or why the old actions are no steadfast run, or the text of a plan or of a refusal.
type ReconfiguredLines<'a> = Either<Once, PlannedLines<'a>>;

/// Puts a plan that begins with the old actions, keeps what serves the goals of what these leave, makes what is missing, and then
/// removes the rest; or the first obstacle; or a refusal if nothing attains the goals; or why the old actions are no steadfast run.
#[tactic(auto, using(metis_output::proofs::Given::puts))]
pub fn put<K: Sink>(alloc: Global, read: &GoalsPlanAnd<Vec<Wish>>, out: &mut K) -> Status
    ensures { let planned = read.now.planned in
        Puts K.Sink (Reconfigured planned.asked.universe planned.asked.goals.items planned.text.plan.actions read.now.text.items) out.old out.new result }
{
    let (u, goals) = (&read.planned.asked.universe, &read.planned.asked.goals);
    let made = reconfigured(alloc, u, goals, &read.planned.text.plan.actions, &read.text);
    finish(alloc, answer(alloc, read, &made), out)
}

fn answer<'a>(
    alloc: Global,
    read: &'a GoalsPlanAnd<Vec<Wish>>,
    made: &'a Result<Attempt, Unsteady>,
) -> Result<Answer<ReconfiguredLines<'a>>, NoMemory>
    requires made { let planned = read.now.planned in
        IsAttempted planned.asked.universe planned.asked.goals.items planned.text.plan.actions read.now.text.items made.now }
    requires tellable { IfOk made.now (IsTellable read.now.planned.asked.universe) }
    requires unsteady { IfErr made.now (IsUnsteadyIn read.now.planned.asked.universe) }
    ensures { let planned = read.now.planned in
        IfOk result (Says (Reconfigured planned.asked.universe planned.asked.goals.items planned.text.plan.actions read.now.text.items) ⟦<ReconfiguredLines<'a> as Lines>⟧.rest) }
{
    let u = &read.planned.asked.universe;
    match made {
        Ok(Attempt::Planned(planned)) => {
            let Answer { lines, good } = planned_answer(u, planned);
            let lines = Either::Second(lines);
            Ok(Answer { lines, good })
        }
        Ok(Attempt::Barred(why)) => Ok(Answer {
            lines: Either::First(obstacle_once(alloc, u, *why)?),
            good: false,
        }),
        Err(why) => unsteady_answer(alloc, u, why),
    }
}

// The plan that reconfigures what the old actions leave, or why there is none.
fn reconfigured(
    alloc: Global,
    u: &Universe,
    goals: &[Goal],
    old: &[Action],
    wishes: &[Wish],
) -> Result<Attempt, Unsteady>
    requires few { length goals.now ≤ 256 }
    requires within { All (IsGoalOf u.now) goals.now }
    requires wordable { All (IsWordable u.now) goals.now }
    requires numbers { All (IsOf u.now) old.now }
    requires short { length old.now < 2 ^ 28 }
    requires lines { length wishes.now ≤ 65536 }
    ensures attempted { IsAttempted u.now goals.now old.now wishes.now result }
    ensures tellable { IfOk result (IsTellable u.now) }
    ensures unsteady { IfErr result (IsUnsteadyIn u.now) }
{
    let old = old_of(alloc, u, old)?;
    match from_old(alloc, u, goals, old, wishes) {
        Ok(attempt) => Ok(attempt),
        Err(_) => Err(Unsteady::NoMemory),
    }
}

// The reconfiguration to the goals, or what stands in its way, or a refusal. If there is none, `old` is dropped by a call, which is
// proved once for all ways out.
fn from_old(
    alloc: Global,
    u: &Universe,
    goals: &[Goal],
    old: Old,
    wishes: &[Wish],
) -> Result<Attempt, NoMemory>
    requires few { length goals.now ≤ 256 }
    requires within { All (IsGoalOf u.now) goals.now }
    requires wordable { All (IsWordable u.now) goals.now }
    requires lines { length wishes.now ≤ 65536 }
    requires old { IsOld u.now old.actions.now old.left old.judged }
    ensures attempted { IfOk result (HasAttempted u.now goals.now old.entry.actions.now wishes.now) }
    ensures tellable { IfOk result (IsTellable u.now) }
{
    u.keeps_invariant();
    pairs_for_goals_hold_them();
    let Ok((resolved, layers)) = resolve_goals(alloc, u, goals) else {
        drop(old);
        return Err(NoMemory);
    };
    match resolved {
        Resolved::Pairs(_pairs) => to_goals(alloc, u, &layers, goals, old, wishes),
        Resolved::Lacks(lacks) => {
            drop(old);
            Ok(Attempt::Planned(Planned::Refusal(refusal(u, layers, lacks))))
        }
    }
}

// The reconfiguration to goals that some list of actions attains.
fn to_goals(
    alloc: Global,
    u: &Universe,
    layers: &Layers,
    goals: &[Goal],
    old: Old,
    wishes: &[Wish],
) -> Result<Attempt, NoMemory>
    requires few { length goals.now ≤ 256 }
    requires within { All (IsGoalOf u.now) goals.now }
    requires attained { AttainsGoals u.now goals.now }
    requires layers { IsLayers u.now layers.now }
    requires lines { length wishes.now ≤ 65536 }
    requires old { IsOld u.now old.actions.now old.left old.judged }
    ensures attempted { IfOk result (HasAttempted u.now goals.now old.entry.actions.now wishes.now) }
    ensures tellable { IfOk result (IsTellable u.now) }
{
    u.keeps_invariant();
    answered_reconfigurations_are_sound();
    let request = Request { goals, wishes };
    match reconfigure(alloc, u, layers, old.actions, old.left, &request)? {
        metis_reconfigure::Reconfigured::Actions(actions) => {
            let planned = with_no_dups(alloc, u, actions, old.judged)?;
            Ok(Attempt::Planned(planned))
        }
        metis_reconfigure::Reconfigured::Barred(why) => Ok(Attempt::Barred(why)),
    }
}

// What is promised of a reconfiguration that can be answered is so, by its laws.
fn answered_reconfigurations_are_sound()
    ensures { (u : Universe) (wishes : List Wish) (old : List Action) (goals : List Goal) (r : Reconfiguration u wishes old goals)
        → IsUniverse u → IsAnswered u wishes old goals r → IsSound r }
{
    a_reconfiguration_is_a_steadfast_run();
    the_goals_are_held_in_the_end();
    a_reconfiguration_ends_in_what_stays();
    a_reconfiguration_is_tidy();
    what_is_wished_stays();
    the_kept_are_left_alone();
    the_kept_never_fall();
    guarded_reconfiguration_never_lacks();
    guarded_reconfiguration_goes_on();
}

// The line of what stands in the way.
fn obstacle_line(alloc: Global, u: &Universe, why: Obstacle) -> Result<String, AllocError>
    requires { IsObstacleIn u.now why }
    ensures { IfOk result (λ line. string_bytes line ≡ obstacle_line u.now why) }
{
    match why {
        Obstacle::Absent(z) => number_line(alloc, "absent", z.0),
        Obstacle::Kept(z, y) => {
            let (z, y) = (z.0, y.0);
            format!(in alloc; "kept {z} on {y}\n")
        }
        Obstacle::Unavoidable(goal) => {
            let (kind, name) = u.goal_names(goal);
            format!(in alloc; "unavoidable {kind}:{name}\n")
        }
        Obstacle::Unmet(z, port) => {
            let (z, name) = (z.0, u.port_name(port));
            format!(in alloc; "unmet {z} {name}\n")
        }
        Obstacle::Needs(n) => format!(in alloc; "needs {n}\n"),
    }
}

// What stands in the way, as the one line of an answer.
fn obstacle_once(alloc: Global, u: &Universe, why: Obstacle) -> Result<Once, AllocError>
    requires { IsObstacleIn u.now why }
    ensures { IfOk result (λ lines. lines ≡ obstacle_line u.now why ∷ []) }
{
    u.keeps_invariant();
    Ok(Once::of(obstacle_line(alloc, u, why)?))
}
