//! What stays.
ghost use Rattle.std.specs.Prelude.{◌≡◌, ◌&&◌, ◌||◌, ◌++◌, ℕ, IfOk, OnOk, not};
ghost use Rattle.std.specs.List.{count_by};
ghost use Rattle.metis_config.specs.Terms.{IsOver};
ghost use Rattle.metis_universe.specs.Terms.{has, serves};
ghost use Rattle.metis_wishes.specs.Terms.{is_keep_all, keeps_all};
ghost use Rattle.metis_reconfigure.specs.Terms.{AreStaying, fresh_in, next_serving, serving_among, settled, those_in, wished};

use crate::edges::holds_up_of;
use crate::missing::places_of;
use crate::reach::{holds, reach_too, reached};
use crate::request::Request;
use crate::wished::{add_rebound, kept_set};
use metis_config::Config;
use metis_ids::{Goal, InstNo, NoMemory, PairIx};
use metis_universe::Universe;
use metis_wishes::Wish;
use std::alloc::Global;
use std::collections::BTreeSet;

/// What stays of `d`, which old instances, those of `c`, and fresh ones make up: what is to stay by its line, what is fresh, for each
/// goal that too few of these serve the least settled instance that serves it, and all on which these stand, but for leaving ones. It
/// goes over the instances for each goal, and along each binding once.
pub fn staying_of(
    alloc: Global,
    u: &Universe,
    c: &Config,
    d: &Config,
    leaving: &BTreeSet<InstNo>,
    request: &Request,
) -> Result<BTreeSet<InstNo>, NoMemory>
    requires { IsOver u.now d.now }
    ensures { IfOk result (λ staying. AreStaying u.now request.now.wishes.now c.now d.now leaving.now.keys request.now.goals.now staying.keys) }
{
    let starts = starts_of(alloc, c, d, request.wishes, leaving)?;
    let mut edges = holds_up_of(alloc, u, d, leaving)?;
    let mut staying = reached(alloc, starts, &mut edges)?;
    for (place, goal) in request.goals.iter().enumerate() {
        if serving_staying(u, d, &staying, *goal) <= places_of(&request.goals[..place], *goal) {
            if let Some(z) = next_serving(u, c, leaving, &staying, *goal) {
                reach_too(alloc, z, &mut edges, &mut staying)?;
            }
        }
    }
    Ok(staying)
}

// What is to stay by its line, and what is fresh.
fn starts_of(
    alloc: Global,
    c: &Config,
    d: &Config,
    wishes: &[Wish],
    leaving: &BTreeSet<InstNo>,
) -> Result<BTreeSet<InstNo>, NoMemory>
    ensures { IfOk result (λ zs. (z : ℕ) → has zs.keys z ≡ has (wished wishes.now c.now leaving.now.keys ++ fresh_in c.now d.now) z) }
{
    let mut starts = kept_set(alloc, wishes)?;
    add_rebound(wishes, &mut starts)?;
    if keeps_all(wishes) {
        add_settled(c, leaving, &mut starts)?;
    }
    add_fresh(c, d, &mut starts)?;
    Ok(starts)
}

// Whether all that does not leave is to stay.
fn keeps_all(wishes: &[Wish]) -> bool
    ensures { result ≡ keeps_all wishes.now }
{
    wishes.iter().any(|wish| is_keep_all(*wish))
}

// Whether the line says that all that does not leave is to stay.
fn is_keep_all(wish: Wish) -> bool
    ensures { result ≡ is_keep_all wish }
{
    matches!(wish, Wish::KeepAll)
}

// Adds the instances that do not leave.
fn add_settled(
    c: &Config,
    leaving: &BTreeSet<InstNo>,
    set: &mut BTreeSet<InstNo>,
) -> Result<(), NoMemory>
    ensures { OnOk result ((z : ℕ) → has set.new.keys z ≡ (has set.old.keys z || has (settled c.now leaving.now.keys) z)) }
{
    for (z, _) in c.instances() {
        if !holds(leaving, z) {
            set.insert(z)?;
        }
    }
    Ok(())
}

// Adds the instances of `d` that are not in `c`.
fn add_fresh(c: &Config, d: &Config, set: &mut BTreeSet<InstNo>) -> Result<(), NoMemory>
    ensures { OnOk result ((z : ℕ) → has set.new.keys z ≡ (has set.old.keys z || has (fresh_in c.now d.now) z)) }
{
    for (z, _) in d.instances() {
        if c.pair_of(z).is_none() {
            set.insert(z)?;
        }
    }
    Ok(())
}

// How many of these instances stand in `d` and serve the goal.
fn serving_staying(u: &Universe, d: &Config, staying: &BTreeSet<InstNo>, goal: Goal) -> usize
    ensures { result ≡ serving_among u.now d.now (those_in d.now staying.now.keys) goal }
{
    d.keeps_invariant();
    serving_in(u, d, staying, goal)
}

// How many instances are among these and serve the goal.
fn serving_in(u: &Universe, d: &Config, staying: &BTreeSet<InstNo>, goal: Goal) -> usize
    ensures { result ≡ count_by (λ e. has staying.now.keys e.0 && serves u.now e.1 goal) d.now.instances }
{
    d.instances()
        .filter(|(z, p)| holds(staying, *z) && u.serves(*p, goal))
        .count()
}

// The least settled instance that serves the goal and is not among these.
fn next_serving(
    u: &Universe,
    c: &Config,
    leaving: &BTreeSet<InstNo>,
    staying: &BTreeSet<InstNo>,
    goal: Goal,
) -> Option<InstNo>
    ensures { result ≡ next_serving u.now c.now leaving.now.keys staying.now.keys goal }
{
    c.keeps_invariant();
    let wanted = &goal;
    for (z, p) in c.instances() {
        if comes_next(u, leaving, staying, z, p, *wanted) {
            return Some(z);
        }
    }
    None
}

// Whether the instance, which stands in the pair, does not leave, serves the goal, and is not among these.
fn comes_next(
    u: &Universe,
    leaving: &BTreeSet<InstNo>,
    staying: &BTreeSet<InstNo>,
    z: InstNo,
    p: PairIx,
    goal: Goal,
) -> bool
    ensures { result ≡ (not (has leaving.now.keys z) && serves u.now p goal && not (has staying.now.keys z)) }
{
    !holds(leaving, z) && u.serves(p, goal) && !holds(staying, z)
}
