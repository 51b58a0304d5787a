//! From what stands to what is wished and wanted.
ghost use Rattle.std.specs.Prelude.{◌≡◌, ◌+◌, ◌-◌, ◌<◌, ◌≤◌, ◌^◌, ℕ, List, IfErr, IfOk, IsTrue, length};
ghost use Rattle.std.specs.List.{All};
ghost use Rattle.metis_ids.specs.declared.goals.Goal.{Goal};
ghost use Rattle.metis_layers.specs.Terms.{IsLayers};
ghost use Rattle.metis_config.specs.Terms.{IsOver};
ghost use Rattle.metis_rollout.specs.Terms.{free_number, fresh_name, named, news_of, renumbered};
ghost use Rattle.metis_universe.specs.Terms.{IsGoalOf, IsOf, IsSteadfastRun, Universe, has};
ghost use Rattle.metis_wishes.specs.declared.wish.Wish.{Wish};
ghost use Rattle.metis_reconfigure.specs.Terms.{AreAimsOf, IsBar, IsGroundOf, IsList, IsMadeBeside, IsReconfigured, IsTold, left_by};

use crate::aims::{Aims, Ground, aim, settle};
use crate::answer::{Bar, Reconfigured};
use crate::rebinding::{Givers, rebind_all};
use crate::request::Request;
use crate::staying::staying_of;
use metis_completion::complete;
use metis_config::Config;
use metis_ids::{Action, InstNo, NoMemory, Plan};
use metis_layers::table::Layers;
use metis_planner::plan_over;
use metis_rollout::{FreeNumbers, Standing, go_on, names_for, push_renumbered, remove};
use metis_universe::Universe;
use std::alloc::Global;
use std::collections::BTreeMap;

/// The reconfiguration from what the old actions leave, over the universe whose layers these are; or the first obstacle.
pub fn reconfigure(
    alloc: Global,
    u: &Universe,
    l: &Layers,
    old: &[Action],
    left: Config,
    request: &Request,
) -> Result<Reconfigured, NoMemory>
    requires layers { IsLayers u.now l.now }
    requires old { IsSteadfastRun u.now old.now }
    requires ours { All (IsOf u.now) old.now }
    requires short { length old.now < 2 ^ 28 }
    requires left { left ≡ left_by u.now old.now }
    requires within { All (IsGoalOf u.now) request.now.goals.now }
    requires few { length request.now.goals.now ≤ 256 }
    requires lines { length request.now.wishes.now ≤ 65536 }
    ensures first { IfOk result (IsReconfigured u.now request.now.wishes.now old.now request.now.goals.now) }
    ensures told { IfOk result (IsTold u.now request.now.goals.now) }
{
    match actions_for(alloc, u, l, old, left, request) {
        Ok(actions) => Ok(Reconfigured::Actions(actions)),
        Err(Bar::Obstacle(why)) => Ok(Reconfigured::Barred(why)),
        Err(Bar::NoMemory) => Err(NoMemory),
    }
}

// The list, unless there is an obstacle.
fn actions_for(
    alloc: Global,
    u: &Universe,
    l: &Layers,
    old: &[Action],
    left: Config,
    request: &Request,
) -> Result<Vec<Action>, Bar>
    requires layers { IsLayers u.now l.now }
    requires old { IsSteadfastRun u.now old.now }
    requires ours { All (IsOf u.now) old.now }
    requires short { length old.now < 2 ^ 28 }
    requires left { left ≡ left_by u.now old.now }
    requires within { All (IsGoalOf u.now) request.now.goals.now }
    requires few { length request.now.goals.now ≤ 256 }
    requires lines { length request.now.wishes.now ≤ 65536 }
    ensures actions { IfOk result (λ list. IsList u.now request.now.wishes.now old.now request.now.goals.now list.items) }
    ensures told { IfOk result (λ list. All (IsOf u.now) list.items × length list.items < 2 ^ 32 - 1) }
    ensures obstacle { IfErr result (IsBar u.now request.now.wishes.now left request.now.goals.now) }
{
    u.keeps_invariant();
    let ground = settle(alloc, u, &left, request.wishes)?;
    let aims = aim(alloc, u, &left, &ground, request)?;
    let beside = make_beside(alloc, u, &left, &ground, &aims, old)?;
    let mut border = left.copy()?;
    go_on(u, &mut border, &beside.actions)?;
    let staying = staying_of(alloc, u, &left, &border, &ground.leaving, request)?;
    let mut actions = Vec::new(alloc);
    actions.extend_from_slice(old)?;
    actions.extend_from_slice(&beside.actions)?;
    let standing = Standing {
        config: border,
        stays: staying,
    };
    let mut free = beside.free;
    remove(alloc, u, l, standing, &mut free, &mut actions)?;
    Ok(actions)
}

/// The actions beside what the old ones leave: those of the plan, completed by bindings to what is given, and then the rebinds.
#[derive(Drop)]
struct Beside {
    actions: Vec<Action>,
    plan: Plan,
    /// The numbers that neither the old actions nor those of the plan use.
    free: FreeNumbers,
}

fn make_beside(
    alloc: Global,
    u: &Universe,
    c: &Config,
    ground: &Ground,
    aims: &Aims,
    old: &[Action],
) -> Result<Beside, NoMemory>
    requires old { IsSteadfastRun u.now old.now }
    requires short { length old.now < 2 ^ 28 }
    requires left { c.now ≡ left_by u.now old.now }
    requires over { IsOver u.now c.now }
    requires aims { (wishes : List Wish) × (goals : List Goal) × IsGroundOf u.now wishes c.now ground.now × AreAimsOf u.now wishes c.now ground.now goals aims.now }
    ensures { (wishes : List Wish) (goals : List Goal) → IsGroundOf u.now wishes c.now ground.now → AreAimsOf u.now wishes c.now ground.now goals aims.now
        → IfOk result (λ b. IsMadeBeside u.now wishes old.now ground.now.leaving.keys goals b.actions.items b.plan b.free.used.keys b.free.next) }
{
    u.keeps_invariant();
    aims.left.keeps_invariant();
    let plan = plan_over(alloc, &aims.left, &aims.layers, &aims.targets)?;
    let fresh = rename(alloc, old, &plan.actions)?;
    let mut actions = Vec::new(alloc);
    complete(u, &ground.given, &fresh.actions, &mut actions)?;
    let givers = Givers::new(alloc, &ground.given, &aims.targets, &fresh.names)?;
    rebind_all(alloc, u, c, &givers, &aims.rebound, &mut actions)?;
    Ok(Beside {
        actions,
        plan,
        free: fresh.free,
    })
}

/// Actions under numbers that the old ones do not use.
#[derive(Drop)]
struct Renamed {
    actions: Vec<Action>,
    /// The new number of each instance that they make.
    names: BTreeMap<InstNo, InstNo>,
    /// The numbers that neither list uses.
    free: FreeNumbers,
}

fn rename(alloc: Global, old: &[Action], fresh: &[Action]) -> Result<Renamed, NoMemory>
    requires steadfast { (v : Universe) × IsSteadfastRun v fresh.now }
    requires few { length old.now + length old.now + length fresh.now + 2 < 2 ^ 32 }
    ensures actions { IfOk result (λ r. r.actions.items ≡ renumbered old.now fresh.now) }
    ensures names { IfOk result (λ r. (z : ℕ) → IsTrue (has (news_of fresh.now) z) → named r.names.entries z ≡ fresh_name old.now fresh.now z) }
    ensures used { IfOk result (λ r. (z : ℕ) → has r.free.used.keys z ≡ has (news_of old.now) z) }
    ensures few { IfOk result (λ r. length r.free.used.keys ≤ length old.now) }
    ensures next { IfOk result (λ r. r.free.next ≡ free_number r.free.used.keys (length (news_of fresh.now))) }
{
    let mut free = FreeNumbers::beside(alloc, old)?;
    let names = names_for(alloc, &mut free, fresh)?;
    let mut actions = Vec::new(alloc);
    push_renumbered(&names, fresh, &mut actions)?;
    Ok(Renamed {
        actions,
        names,
        free,
    })
}
