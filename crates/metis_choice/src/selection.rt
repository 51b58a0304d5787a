//! The pairs that a plan uses.
ghost use Rattle.std.specs.Prelude.{◌≡◌, ◌<◌, IfOk, OnOk, map};
ghost use Rattle.std.specs.List.{All};
ghost use Rattle.metis_universe.specs.Terms.{all_pairs, needs_of, origin_of, pair_count, providers_needed, selected};
ghost use Rattle.metis_layers.specs.Terms.{IsLayers};
ghost use Rattle.metis_choice.specs.Terms.{Adds};

use crate::origins::origin_in;
use crate::work_list::WorkList;
use metis_ids::{IxVec, NoMemory, PairIx, PairSet};
use metis_layers::table::Layers;
use metis_universe::Universe;
use std::alloc::Global;

/// The targets and, with each pair, its needs. The needs of each pair are looked at once.
pub fn selected_pairs(
    alloc: Global,
    u: &Universe,
    layers: &Layers,
    origins: &IxVec<PairIx, Option<PairIx>>,
    targets: &[PairIx],
) -> Result<PairSet, NoMemory>
    requires layers { IsLayers u.now layers.now }
    requires origins { origins.now ≡ map (origin_of u.now) (all_pairs u.now) }
    requires within { All (λ p. p < pair_count u.now) targets.now }
    ensures size { IfOk result (λ set. set.size ≡ pair_count u.now) }
    ensures members { IfOk result (λ set. set.members ≡ selected u.now targets.now) }
{
    let mut work = WorkList::new(alloc, u.pairs())?;
    work.add_all(targets)?;
    while let Some(pair) = work.pop() {
        add_needs(&mut work, u, layers, origins, pair)?;
    }
    let set = work.into_selected();
    set.keeps_invariant();
    Ok(set)
}

// Selects the origin of the pair and the providers of the ports that it requires.
fn add_needs(
    work: &mut WorkList,
    u: &Universe,
    layers: &Layers,
    origins: &IxVec<PairIx, Option<PairIx>>,
    pair: PairIx,
) -> Result<(), NoMemory>
    requires layers { IsLayers u.now layers.now }
    requires origins { origins.now ≡ map (origin_of u.now) (all_pairs u.now) }
    requires size { work.old.selected.size ≡ pair_count u.now }
    requires pair { pair < pair_count u.now }
    ensures { OnOk result (Adds (needs_of u.now pair) work.old work.new) }
{
    work.add_need(origin_in(origins, pair))?;
    add_providers(work, u, layers, pair)
}

// Selects the providers of the ports that the pair requires.
fn add_providers(
    work: &mut WorkList,
    u: &Universe,
    layers: &Layers,
    pair: PairIx,
) -> Result<(), NoMemory>
    requires layers { IsLayers u.now layers.now }
    requires size { work.old.selected.size ≡ pair_count u.now }
    requires pair { pair < pair_count u.now }
    ensures { OnOk result (Adds (providers_needed u.now pair) work.old work.new) }
{
    for port in u.requires_(pair) {
        work.add_need(layers.first_provider(*port))?;
    }
    Ok(())
}
