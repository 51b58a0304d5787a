//! Pairs, each as often as it has slots.
ghost use Rattle.std.specs.Prelude.{◌≡◌, ◌++◌, replicate, IfOk, OnOk};
ghost use Rattle.std.specs.List.{flat_map, slice_index_or};

use metis_ids::{IxVec, NoMemory, PairIx};
use metis_support::count_in;
use std::alloc::Global;

/// Each of the pairs as often as its count says, one after another.
pub fn repeated(
    alloc: Global,
    counts: &IxVec<PairIx, u32>,
    pairs: &[PairIx],
) -> Result<Vec<PairIx>, NoMemory>
    ensures { IfOk result (λ ends. ends.items ≡ flat_map (λ p. replicate (slice_index_or counts.now p 0) p) pairs.now) }
{
    let mut ends = Vec::new(alloc);
    for pair in pairs {
        push_times(*pair, count_in(counts, *pair), &mut ends)?;
    }
    Ok(ends)
}

// The pair so many times.
fn push_times(pair: PairIx, times: u32, ends: &mut Vec<PairIx>) -> Result<(), NoMemory>
    ensures { OnOk result (ends.new.items ≡ ends.old.items ++ replicate times pair) }
{
    for _ in 0..times {
        ends.push(pair)?;
    }
    Ok(())
}
