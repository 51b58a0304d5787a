//! Plans that are read, and what is written of them.
ghost use Rattle.std.specs.Prelude.{◌≡◌, ◌-◌, ◌<◌, ◌≤◌, ◌^◌, [], IfOk, OnOk, length};
ghost use Rattle.std.specs.List.{All};
ghost use Rattle.metis_universe.specs.Terms.{IsOf, IsSteadfastRun, pair_count};

use crate::outputs::Ended;
use crate::stop::Stop;
use metis_actions::write_fault;
use metis_ids::{Action, NoMemory, Plan};
use metis_layers::layers;
use metis_outside::MemSink;
use metis_rollout::rollout;
use metis_steady::{Followed, follow, steady_waits};
use metis_text::{read_plan, write_plan};
use metis_universe::Universe;
use metis_waits::{WFault, waits};
use std::alloc::Global;

/// Puts the text of the plan that the bytes say.
pub fn put_plan(alloc: Global, u: &Universe, bytes: &[u8], out: &mut MemSink) -> Result<Ended, Stop>
    requires { length bytes.now ≤ 268435456 }
{
    let plan = plan_in(alloc, u, bytes)?;
    put_with_waits(alloc, u, &plan, out)
}

/// The plan that the bytes say.
pub fn plan_in(alloc: Global, u: &Universe, bytes: &[u8]) -> Result<Plan, Stop>
    requires { length bytes.now ≤ 268435456 }
    ensures actions { IfOk result (λ plan. All (IsOf u.now) plan.actions) }
    ensures dups { IfOk result (λ plan. All (λ d. d.pair < pair_count u.now) plan.dups) }
    ensures few { IfOk result (λ plan. length plan.actions < 268435456) }
{
    match read_plan(alloc, u, bytes) {
        Ok(read) => Ok(read.plan),
        Err(_) => Err(Stop::NoPlan),
    }
}

fn put_with_waits(
    alloc: Global,
    u: &Universe,
    plan: &Plan,
    out: &mut MemSink,
) -> Result<Ended, Stop>
    requires actions { All (IsOf u.now) plan.now.actions }
    requires dups { All (λ d. d.pair < pair_count u.now) plan.now.dups }
    requires few { length plan.now.actions < 2 ^ 32 - 1 }
{
    match waits(alloc, u, &plan.actions) {
        Ok(waits) => Ok(write_plan(alloc, u, plan, &waits, out)),
        Err(WFault::Loose(_)) => Err(Stop::NoPlan),
        Err(WFault::NoMemory) => Err(Stop::NoMemory),
    }
}

/// Puts why the first action cannot be done of the plan that the bytes say.
pub fn put_fault(
    alloc: Global,
    u: &Universe,
    bytes: &[u8],
    out: &mut MemSink,
) -> Result<Ended, Stop>
    requires { length bytes.now ≤ 268435456 }
{
    let plan = plan_in(alloc, u, bytes)?;
    put_first_fault(alloc, u, &plan.actions, out)
}

fn put_first_fault(
    alloc: Global,
    u: &Universe,
    actions: &[Action],
    out: &mut MemSink,
) -> Result<Ended, Stop>
    requires actions { All (IsOf u.now) actions.now }
    requires few { length actions.now < 2 ^ 32 - 1 }
{
    match follow(alloc, u, actions)? {
        Followed::Bad(_, fault) => Ok(write_fault(alloc, u, &fault, out)),
        Followed::Left(_left) => Err(Stop::NoPlan),
    }
}

/// Puts the text of the rollout from the first plan to the second.
pub fn put_rollout(
    alloc: Global,
    u: &Universe,
    old: &[u8],
    fresh: &[u8],
    out: &mut MemSink,
) -> Result<Ended, Stop>
    requires old { length old.now ≤ 268435456 }
    requires fresh { length fresh.now ≤ 268435456 }
{
    let old = plan_in(alloc, u, old)?;
    let fresh = plan_in(alloc, u, fresh)?;
    put_rollout_of(alloc, u, &old.actions, &fresh.actions, out)
}

fn put_rollout_of(
    alloc: Global,
    u: &Universe,
    old: &[Action],
    fresh: &[Action],
    out: &mut MemSink,
) -> Result<Ended, Stop>
    requires old { All (IsOf u.now) old.now }
    requires fresh { All (IsOf u.now) fresh.now }
    requires few_old { length old.now < 268435456 }
    requires few_fresh { length fresh.now < 268435456 }
{
    expect_steadfast(alloc, u, old)?;
    expect_steadfast(alloc, u, fresh)?;
    let actions = rolled_out(alloc, u, old, fresh)?;
    let plan = plan_of(alloc, actions);
    put_with_waits(alloc, u, &plan, out)
}

// Goes on only if the actions are a steadfast run.
fn expect_steadfast(alloc: Global, u: &Universe, actions: &[Action]) -> Result<(), Stop>
    requires numbers { All (IsOf u.now) actions.now }
    requires few { length actions.now < 268435456 }
    ensures { OnOk result (IsSteadfastRun u.now actions.now) }
{
    match steady_waits(alloc, u, actions) {
        Ok(_waits) => Ok(()),
        Err(_) => Err(Stop::NoPlan),
    }
}

fn rolled_out(
    alloc: Global,
    u: &Universe,
    old: &[Action],
    fresh: &[Action],
) -> Result<Vec<Action>, NoMemory>
    requires old { IsSteadfastRun u.now old.now }
    requires fresh { IsSteadfastRun u.now fresh.now }
    requires old_ours { All (IsOf u.now) old.now }
    requires fresh_ours { All (IsOf u.now) fresh.now }
    requires few_old { length old.now < 268435456 }
    requires few_fresh { length fresh.now < 268435456 }
    ensures actions { IfOk result (λ list. All (IsOf u.now) list.items) }
    ensures few { IfOk result (λ list. length list.items < 2 ^ 32 - 1) }
{
    let layers = layers(alloc, u)?;
    rollout(alloc, u, &layers, old, fresh)
}

// The plan of these actions, in which nothing is doubled.
fn plan_of(alloc: Global, actions: Vec<Action>) -> Plan
    ensures actions { result.actions ≡ actions.items }
    ensures dups { result.dups ≡ [] }
{
    let instances = count_made(&actions);
    let dups = Vec::new(alloc);
    Plan {
        actions,
        dups,
        instances,
    }
}

fn count_made(actions: &[Action]) -> u32 {
    let mut made = 0u32;
    for action in actions {
        if let Action::New { .. } = action {
            made = made.saturating_add(1);
        }
    }
    made
}
