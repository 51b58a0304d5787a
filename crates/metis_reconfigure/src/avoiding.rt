//! What new instances may not be in or cannot come to.
ghost use Rattle.std.specs.Prelude.{◌≡◌, ◌<◌, ℕ, IfOk};
ghost use Rattle.std.specs.List.{All, find};
ghost use Rattle.metis_universe.specs.Terms.{IsGoalOf, Universe, pair_count};
ghost use Rattle.metis_wishes.specs.Terms.{avoided, avoids, is_avoided};
ghost use Rattle.metis_reconfigure.specs.Terms.{IsLeft, is_unavoidable, is_unavoidable_by};

use metis_ids::{Goal, NoMemory, PairIx, PairSet};
use metis_layers::table::Layers;
use metis_universe::Universe;
use metis_wishes::Wish;
use std::alloc::Global;

/// The pairs that are avoided, each by itself or by its type.
pub fn avoided_of(alloc: Global, u: &Universe, wishes: &[Wish]) -> Result<PairSet, NoMemory>
    ensures size { IfOk result (λ set. set.size ≡ pair_count u.now) }
    ensures members { IfOk result (λ set. set.members ≡ avoided u.now wishes.now) }
{
    let mut set = PairSet::with_pairs(alloc, u.pairs())?;
    for pair in 0..u.pairs() {
        if is_avoided(u, wishes, PairIx(pair)) {
            set.add(PairIx(pair));
        }
    }
    Ok(set)
}

/// The first of the missing goals that is an avoided pair, or that has no layer or no provider in what is left to plan, whose layers
/// these are.
pub fn unavoidable(u: &Universe, wishes: &[Wish], v: &Layers, missing: &[Goal]) -> Option<Goal>
    requires { All (IsGoalOf u.now) missing.now }
    ensures { (left : Universe) → IsLeft u.now left v.now → result ≡ find (is_unavoidable u.now wishes.now left) missing.now }
{
    for goal in missing {
        if is_unavoidable(u, wishes, v, *goal) {
            return Some(*goal);
        }
    }
    None
}

// Whether the goal is an avoided pair, or has no layer or no provider.
fn is_unavoidable(u: &Universe, wishes: &[Wish], v: &Layers, goal: Goal) -> bool
    requires { IsGoalOf u.now goal }
    ensures { result ≡ is_unavoidable_by u.now wishes.now v.now goal }
{
    match goal {
        Goal::Pair(pair) => is_avoided(u, wishes, pair) || v.of(pair).is_none(),
        Goal::Port(port) => v.first_provider(port).is_none(),
    }
}

// Whether the pair, or its type, is avoided.
fn is_avoided(u: &Universe, wishes: &[Wish], pair: PairIx) -> bool
    requires { pair < pair_count u.now }
    ensures { result ≡ is_avoided u.now wishes.now pair }
{
    for wish in wishes {
        if avoids(u, pair, *wish) {
            return true;
        }
    }
    false
}

// Whether the wish avoids the pair.
fn avoids(u: &Universe, pair: PairIx, wish: Wish) -> bool
    requires { pair < pair_count u.now }
    ensures { result ≡ avoids u.now pair wish }
{
    match wish {
        Wish::AvoidType(kind) => u.type_of(pair) == kind,
        Wish::AvoidPair(other) => pair == other,
        _ => false,
    }
}
