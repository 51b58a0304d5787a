//! From a list of targets to what a plan for them stands on.
ghost use Rattle.std.specs.Prelude.{◌≡◌, ◌<◌, ℕ, IfOk, IsSome, IsSomeAnd, IsTrue, MatchOption, is_some, not};
ghost use Rattle.std.specs.List.{All, find};
ghost use Rattle.metis_universe.specs.Terms.{IsLeastSelection, layer_of, pair_count, requires};
ghost use Rattle.metis_layers.specs.Terms.{IsLayers, layer_at};
ghost use Rattle.metis_support.specs.Terms.{IsSupport, is_selected, layer_at as layer_in, origin_at, provider_at, support_of};
ghost use Rattle.metis_choice.specs.Terms.{IfLacks, IfSupport, IsFirstProvider, IsFirstWithout, IsLeastBelow};

use crate::origins::all_origins;
use crate::selection::selected_pairs;
use crate::tables::{layer_table, origin_table, provider_table};
use metis_ids::{NoMemory, PairIx};
use metis_layers::table::Layers;
use metis_support::Support;
use metis_universe::Universe;
use std::alloc::Global;

/// What is chosen for a list of targets.
#[derive(Drop)]
pub enum Choice {
    /// The selection of the targets.
    Support(Support),
    /// The first target that has no layer, and so is not attainable.
    Lacks(PairIx),
}

/// What a plan for the targets stands on, where each of them has a layer; else the first target that has none. It goes once
/// over the universe's transitions, and then once over what each selected pair needs.
pub fn choose(
    alloc: Global,
    u: &Universe,
    layers: &Layers,
    targets: &[PairIx],
) -> Result<Choice, NoMemory>
    requires layers { IsLayers u.now layers.now }
    requires within { All (λ p. p < pair_count u.now) targets.now }

    // A target is lacking exactly where one has no layer, and the first such is told.
    ensures lacks { IfLacks result (IsFirstWithout u.now targets.now) }
    ensures layered { IfSupport result (λ _. All (λ p. IsSome (layer_of u.now p)) targets.now) }

    // The selected pairs are the least set that has the targets and, with each pair, its needs.
    ensures selected { IfSupport result (λ s. IsLeastSelection u.now targets.now s.selected.members) }

    // Each has its layer, and the least of the pairs that lead up to it as its origin, unless it is of layer 0. Each port that
    // one of them requires is taken from the pair of least layer, and then of least number, that provides it.
    ensures layers { IfSupport result (λ s. (p : ℕ) → IsTrue (is_selected s p) → layer_in s p ≡ layer_of u.now p) }
    ensures origins { IfSupport result (λ s. (p : ℕ) → IsTrue (is_selected s p) → MatchOption (origin_at s p) (layer_of u.now p ≡ Some 0) (IsLeastBelow u.now p)) }
    ensures providers { IfSupport result (λ s. (p r : ℕ) → IsTrue (is_selected s p) → IsTrue (requires u.now p r) → IsSomeAnd (provider_at s r) (IsFirstProvider u.now r)) }

    // A support is that of the selection, and tells nothing of other pairs and ports.
    ensures support { IfSupport result (λ s. s ≡ support_of u.now targets.now) }
    ensures over { IfSupport result (IsSupport u.now) }
{
    u.keeps_invariant();
    match lacking(layers, targets) {
        Some(target) => Ok(Choice::Lacks(target)),
        None => Ok(Choice::Support(support(alloc, u, layers, targets)?)),
    }
}

// The first target that has no layer.
fn lacking(layers: &Layers, targets: &[PairIx]) -> Option<PairIx>
    ensures { result ≡ find (λ p. not (is_some (layer_at layers.now p))) targets.now }
{
    targets
        .iter()
        .copied()
        .find(|target| layers.of(*target).is_none())
}

/// What a plan for the targets stands on, for a caller who knows that each of them has a layer.
pub fn support(
    alloc: Global,
    u: &Universe,
    layers: &Layers,
    targets: &[PairIx],
) -> Result<Support, NoMemory>
    requires layers { IsLayers u.now layers.now }
    requires within { All (λ p. p < pair_count u.now) targets.now }
    requires layered { All (λ p. IsSome (layer_of u.now p)) targets.now }
    ensures { IfOk result (λ s. s ≡ support_of u.now targets.now) }
{
    u.keeps_invariant();
    let origins = all_origins(alloc, u, layers)?;
    let selected = selected_pairs(alloc, u, layers, &origins, targets)?;
    let origin = origin_table(alloc, u, &origins, &selected)?;
    let layer = layer_table(alloc, u, layers, &selected)?;
    let provider = provider_table(alloc, u, layers, &selected)?;
    Support::build(alloc, u, selected, origin, provider, layer)
}
