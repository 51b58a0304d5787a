//! Whether a set has each pair that a goal wants.
ghost use Rattle.std.specs.Prelude.{◌≡◌};
ghost use Rattle.std.specs.List.{All, find, list_all};
ghost use Rattle.metis_ids.specs.declared.goals.Goal.{Goal};
ghost use Rattle.metis_universe.specs.Terms.{IsGoalOf};
ghost use Rattle.metis_why.specs.Terms.{wanted_by};
ghost use Rattle.metis_refusal.specs.Terms.{flag};

use crate::outside::{PAIR_LIMIT, is_set};
use crate::target::Target;
use metis_ids::{Goal, PairIx};
use metis_universe::Universe;

/// Whether the set has each pair that the goal wants.
pub fn covers(target: &Target, held: &[bool; PAIR_LIMIT]) -> bool
    ensures { result ≡ list_all (flag held.now) (wanted_by target.now.u.now target.now.goal) }
{
    match target.goal {
        Goal::Pair(pair) => is_set(held, pair),
        Goal::Port(port) => are_set(held, target.u.providers(port)),
    }
}

/// The first of the goals that the set covers.
pub fn first_covered(u: &Universe, held: &[bool; PAIR_LIMIT], goals: &[Goal]) -> Option<Goal>
    requires { All (IsGoalOf u.now) goals.now }
    ensures { result ≡ find (λ g. list_all (flag held.now) (wanted_by u.now g)) goals.now }
{
    for goal in goals {
        if covers(&Target { u, goal: *goal }, held) {
            return Some(*goal);
        }
    }
    None
}

// Whether the flags of these pairs are all set.
fn are_set(held: &[bool; PAIR_LIMIT], pairs: &[PairIx]) -> bool
    ensures { result ≡ list_all (flag held.now) pairs.now }
{
    for pair in pairs {
        if !is_set(held, *pair) {
            return false;
        }
    }
    true
}
