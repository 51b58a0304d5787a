//! The command that plans for a generated universe.
ghost use Rattle.std.specs.Prelude.{◌≡◌, ◌<◌, ◌≤◌, ◌-◌, ◌^◌, IfOk, length, string_bytes};
ghost use Rattle.std.specs.List.{All};
ghost use Rattle.metis_gen.specs.Terms.{generated, generated_targets};
ghost use Rattle.metis_output.specs.Terms.{Puts, Says};
ghost use Rattle.metis_plan_commands.specs.Terms.{IsGood, Loaded, load_line};
ghost use Rattle.metis_universe.specs.Terms.{IsOf, pair_count, pair_goals};

use metis_gen::{targets_are_attained, targets_are_pairs, targets_of, universe_of};
use metis_ids::{Goal, NoMemory, PairIx, Plan};
use metis_layers::layers;
use metis_output::{Answer, Lines, Once, Status, finish, line_answer};
use metis_outside::Sink;
use metis_planner::{plan_over, rounds_come_to_one_plan};
use metis_replay::Verdict;
use metis_steady::replayed;
use metis_universe::Universe;
use std::alloc::{AllocError, Global};

/// Makes the generated universe of this size, plans for its targets, replays the plan, and puts its counts.
#[tactic(auto, using(metis_output::proofs::Given::puts))]
pub fn put<K: Sink>(alloc: Global, n: u32, out: &mut K) -> Status
    requires at_least { 1 ≤ n }
    requires at_most { n ≤ 128 }
    ensures { Puts K.Sink (Loaded n) out.old out.new result }
{
    finish(alloc, answer(alloc, n), out)
}

fn answer(alloc: Global, n: u32) -> Result<Answer<Once>, NoMemory>
    requires at_least { 1 ≤ n }
    requires at_most { n ≤ 128 }
    ensures { IfOk result (Says (Loaded n) ⟦<Once as Lines>⟧.rest) }
{
    let targets = targets_of(alloc, n)?;
    let universe = universe_of(alloc, n)?;
    planned_load(alloc, n, &universe, &targets)
}

// The answer for the universe and the targets that were made. There is a plan, since some list of actions attains the targets. It
// is good, since it is a run that holds them.
fn planned_load(
    alloc: Global,
    n: u32,
    u: &Universe,
    targets: &[PairIx],
) -> Result<Answer<Once>, NoMemory>
    requires at_most { n ≤ 128 }
    requires universe { u.now ≡ generated n }
    requires targets { targets.now ≡ generated_targets n }
    ensures { IfOk result (Says (Loaded n) ⟦<Once as Lines>⟧.rest) }
{
    u.keeps_invariant();
    targets_are_attained();
    targets_are_pairs();
    rounds_come_to_one_plan();
    let layers = layers(alloc, u)?;
    let plan = plan_over(alloc, u, &layers, targets)?;
    let good = is_good(alloc, u, &plan, targets)?;
    Ok(line_answer(load_line(alloc, n, u, &plan, targets)?, good))
}

// Whether the plan's replay says that it is good.
fn is_good(alloc: Global, u: &Universe, plan: &Plan, targets: &[PairIx]) -> Result<bool, NoMemory>
    requires numbers { All (IsOf u.now) plan.now.actions }
    requires few { length plan.now.actions < 2 ^ 32 - 1 }
    requires within { All (λ p. p < pair_count u.now) targets.now }
    ensures { IfOk result (IsGood u.now targets.now plan.now.actions) }
{
    let goals = goals_of(alloc, targets)?;
    match replayed(alloc, u, &plan.actions, &goals) {
        Ok((verdict, _)) => Ok(matches!(&verdict, Verdict::Good)),
        Err(_) => Err(NoMemory),
    }
}

// The goals that are these pairs.
fn goals_of(alloc: Global, pairs: &[PairIx]) -> Result<Vec<Goal>, AllocError>
    ensures { IfOk result (λ goals. goals.items ≡ pair_goals pairs.now) }
{
    pairs.iter().map(|pair| Goal::Pair(*pair)).collect(alloc)
}

fn load_line(
    alloc: Global,
    n: u32,
    u: &Universe,
    plan: &Plan,
    targets: &[PairIx],
) -> Result<String, AllocError>
    ensures { IfOk result (λ line. string_bytes line ≡ load_line n u.now targets.now plan.now) }
{
    let (pairs, targets, instances) = (u.pairs(), targets.len(), plan.instances);
    let (actions, dups) = (plan.actions.len(), plan.dups.len());
    format!(in alloc;
        "load {n} pairs {pairs} targets {targets} instances {instances} actions {actions} dups {dups} good\n"
    )
}
