//! Which goals too few settled instances serve.
ghost use Rattle.std.specs.Prelude.{◌≡◌, ◌&&◌, IfOk, not};
ghost use Rattle.std.specs.List.{count_by};
ghost use Rattle.metis_ids.specs.declared.goals.Goal.TheVariants.{Pair, Port};
ghost use Rattle.metis_universe.specs.Terms.{has, places_of, same_goal, serves};
ghost use Rattle.metis_reconfigure.specs.Terms.{missing};

use crate::reach::holds;
use metis_config::Config;
use metis_ids::{Goal, InstNo, NoMemory, PairIx, PortIx};
use metis_universe::Universe;
use std::alloc::Global;
use std::collections::BTreeSet;

/// The goals that fewer settled instances serve than they have places so far, in order. It goes over the instances for each goal.
pub fn missing_of(
    alloc: Global,
    u: &Universe,
    c: &Config,
    leaving: &BTreeSet<InstNo>,
    goals: &[Goal],
) -> Result<Vec<Goal>, NoMemory>
    ensures { IfOk result (λ gs. gs.items ≡ missing u.now c.now leaving.now.keys goals.now) }
{
    c.keeps_invariant();
    let mut missing = Vec::new(alloc);
    for (place, goal) in goals.iter().enumerate() {
        if serving_settled(u, c, leaving, *goal) <= places_of(&goals[..place], *goal) {
            missing.push(*goal)?;
        }
    }
    Ok(missing)
}

// How many instances serve the goal and do not leave.
fn serving_settled(u: &Universe, c: &Config, leaving: &BTreeSet<InstNo>, goal: Goal) -> usize
    ensures { result ≡ count_by (λ e. not (has leaving.now.keys e.0) && serves u.now e.1 goal) c.now.instances }
{
    c.instances()
        .filter(|(z, p)| !holds(leaving, *z) && u.serves(*p, goal))
        .count()
}

/// How many places the goal has among these.
pub fn places_of(earlier: &[Goal], goal: Goal) -> usize
    ensures { result ≡ places_of earlier.now goal }
{
    earlier
        .iter()
        .filter(|other| is_same(**other, goal))
        .count()
}

// Whether the two are one goal.
fn is_same(one: Goal, other: Goal) -> bool
    ensures { result ≡ same_goal one other }
{
    match one {
        Goal::Pair(pair) => is_pair(other, pair),
        Goal::Port(port) => is_port(other, port),
    }
}

fn is_pair(goal: Goal, pair: PairIx) -> bool
    ensures { result ≡ same_goal (Pair pair) goal }
{
    match goal {
        Goal::Pair(other) => pair == other,
        Goal::Port(_) => false,
    }
}

fn is_port(goal: Goal, port: PortIx) -> bool
    ensures { result ≡ same_goal (Port port) goal }
{
    match goal {
        Goal::Pair(_) => false,
        Goal::Port(other) => port == other,
    }
}
