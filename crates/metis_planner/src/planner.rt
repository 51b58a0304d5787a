//! Plans for lists of targets.
ghost use Rattle.std.specs.Prelude.{◌≡◌, ◌<◌, ◌≤◌, ◌*◌, ◌^◌, ℕ, IfOk, IsSome, IsTrue, length};
ghost use Rattle.std.specs.List.{All};
ghost use Rattle.metis_ids.specs.Terms.{HasCycle};
ghost use Rattle.metis_universe.specs.Terms.{Attains, Holds, IsAttainedSet, IsOf, IsRun, IsTidy, NamesBelow, Refusal, after_all, empty, is_steadfast, layer_of, pair_count};
ghost use Rattle.metis_layers.specs.Terms.{IsLayers, instances_of};
ghost use Rattle.metis_support.specs.Terms.{support_of};
ghost use Rattle.metis_lines.specs.Terms.{is_justified, stations};
ghost use Rattle.metis_emit.specs.Terms.{entered};
ghost use Rattle.metis_planner.specs.Terms.{EventBelow, IfClosed, IfPlan, IsByRounds, IsLean, IsPlanFor, IsPlanWhere, IsUnderWay, graph_after, numbered};

use crate::order::ordered_actions;
use crate::outcome::Outcome;
use metis_choice::{Choice, choose, support};
use metis_ids::{Dup, NoMemory, PairIx, Plan};
use metis_layers::layers;
use metis_layers::table::Layers;
use metis_lines::{Lines, OverLines};
use metis_rounds::{Round, Rounds};
use metis_support::Support;
use metis_universe::Universe;
use std::alloc::Global;

/// A plan for the targets, at most 256, where some list of actions attains them; else the set of all attainable pairs,
/// with the first target that is not in it.
pub fn plan(alloc: Global, u: &Universe, targets: &[PairIx]) -> Result<Outcome, NoMemory>
    requires few { length targets.now ≤ 256 }
    requires within { All (λ p. p < pair_count u.now) targets.now }

    // A plan comes exactly where the targets can be attained.
    ensures attains { IsPlanWhere (Attains u.now targets.now) result }

    // Its actions are a run from the empty configuration that holds the targets, and no provider leaves its pair while
    // a binding to it stands.
    ensures run { IfPlan result (λ plan. IsRun u.now empty plan.actions) }
    ensures holds { IfPlan result (λ plan. Holds (after_all u.now empty plan.actions) targets.now) }
    ensures steadfast { IfPlan result (λ plan. IsTrue (is_steadfast u.now plan.actions)) }
    ensures numbers { IfPlan result (λ plan. All (IsOf u.now) plan.actions) }
    ensures named { IfPlan result (λ plan. All (NamesBelow (2 ^ 32)) plan.actions) }

    // At its end only the targets and what serves them remain.
    ensures tidy { IfPlan result (λ plan. IsTidy u.now targets.now (after_all u.now empty plan.actions)) }

    // It counts its instances, which are few, also since a universe has at most 2,000 pairs and no demand above 16, and so
    // are the actions of each.
    ensures instances { IfPlan result (λ plan. plan.instances ≡ instances_of plan.actions) }
    ensures lean { IfPlan result (λ plan. IsLean u.now plan.instances targets.now) }
    ensures bounded { IfPlan result (λ plan. plan.instances ≤ 32256) }
    ensures short { IfPlan result (λ plan. length plan.actions ≤ 321 * plan.instances) }

    // The instances are the life lines for the targets and the pairs of the dups, and each goes through its line's pairs.
    // Each dup is forced by its cycle, and they are no more than the instances.
    ensures lines { IfPlan result (λ plan. (l : ℕ) → entered u.now l plan.actions ≡ stations (graph_after u.now targets.now plan.dups) l) }
    ensures justified { IfPlan result (λ plan. IsTrue (is_justified u.now targets.now plan.dups)) }
    ensures dups { IfPlan result (λ plan. length plan.dups ≤ plan.instances) }
    ensures doubled { IfPlan result (λ plan. All (λ d. d.pair < pair_count u.now) plan.dups) }
    ensures cycles { IfPlan result (λ plan. All (λ d. 2 ≤ length d.cycle) plan.dups) }
    ensures events { IfPlan result (λ plan. All (λ d. All (EventBelow (2 ^ 32)) d.cycle) plan.dups) }

    // It is the one plan that rounds come to.
    ensures rounds { IfPlan result (IsByRounds u.now targets.now) }

    // What comes in place of a plan refuses the targets.
    ensures size { IfClosed result (λ set _. set.size ≡ pair_count u.now) }
    ensures members { IfClosed result (λ set _. IsAttainedSet u.now set.members) }
    ensures refusal { IfClosed result (λ set lacking. Refusal u.now targets.now set.members lacking) }
    ensures lacking { IfClosed result (λ _ lacking. lacking < pair_count u.now) }
{
    u.keeps_invariant();
    let layers = layers(alloc, u)?;
    match choose(alloc, u, &layers, targets)? {
        Choice::Lacks(target) => Ok(Outcome::Closed(layers.into_attained(), target)),
        Choice::Support(support) => {
            let plan = plan_on(alloc, u, &support, targets)?;
            Ok(Outcome::Plan(plan))
        }
    }
}

/// The plan for targets, at most 256, that some list of actions attains, where the layers are counted already.
pub fn plan_over(
    alloc: Global,
    u: &Universe,
    layers: &Layers,
    targets: &[PairIx],
) -> Result<Plan, NoMemory>
    requires few { length targets.now ≤ 256 }
    requires within { All (λ p. p < pair_count u.now) targets.now }
    requires layers { IsLayers u.now layers.now }
    requires attained { Attains u.now targets.now }
    ensures { IfOk result (IsPlanFor u.now targets.now) }
{
    u.keeps_invariant();
    let support = support(alloc, u, layers, targets)?;
    plan_on(alloc, u, &support, targets)
}

// The plan that rounds come to.
fn plan_on(alloc: Global, u: &Universe, s: &Support, targets: &[PairIx]) -> Result<Plan, NoMemory>
    requires few { length targets.now ≤ 256 }
    requires layered { All (λ p. IsSome (layer_of u.now p)) targets.now }
    requires support { s.now ≡ support_of u.now targets.now }
    ensures { IfOk result (IsPlanFor u.now targets.now) }
{
    u.keeps_invariant();
    let plan = plan_by_rounds(alloc, u, s, targets)?;
    Ok(plan)
}

// Goes from round to round, with a line more for each cycle, until no event is stuck. Then the events have an order.
fn plan_by_rounds(
    alloc: Global,
    u: &Universe,
    s: &Support,
    targets: &[PairIx],
) -> Result<Plan, NoMemory>
    requires few { length targets.now ≤ 256 }
    requires layered { All (λ p. IsSome (layer_of u.now p)) targets.now }
    requires support { s.now ≡ support_of u.now targets.now }
    ensures { IfOk result (IsByRounds u.now targets.now) }
{
    u.keeps_invariant();
    let mut rounds = Rounds::new(alloc, u, s, targets)?;
    let mut dups = Vec::new(alloc);
    loop {
        match rounds.go_on(alloc)? {
            Round::Ended(lines) => return ordered_plan(alloc, u, s, targets, &lines, dups),
            Round::Stuck(stuck) => {
                let (dup, next) = stuck.double(alloc)?;
                dups.push(dup)?;
                rounds = next;
            }
        }
    }
}

// The plan of the lines, whose events have an order.
fn ordered_plan<'a>(
    alloc: Global,
    u: &'a Universe,
    s: &'a Support,
    targets: &[PairIx],
    lines: &'a Lines,
    dups: Vec<Dup>,
) -> Result<Plan, NoMemory>
    requires layered { All (λ p. IsSome (layer_of u.now p)) targets.now }
    requires support { s.now ≡ support_of u.now targets.now }
    requires under_way { IsUnderWay u.now targets.now lines.now dups.items }
    requires ended { HasCycle (numbered (graph_after u.now targets.now dups.items)) → ⊥ }
    ensures { IfOk result (IsByRounds u.now targets.now) }
{
    u.keeps_invariant();
    let over = OverLines::over(u, s, lines);
    let actions = ordered_actions(alloc, &over)?;
    Ok(Plan {
        actions,
        dups,
        instances: lines.count(),
    })
}
