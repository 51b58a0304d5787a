//! How many slots each pair has over a support.
ghost use Rattle.std.specs.Prelude.{◌≡◌, ◌<◌, ℕ, fold, length, max, replicate, IfOk, IsTrue, slice_set};
ghost use Rattle.std.specs.List.{slice_index_or};
ghost use Rattle.metis_universe.specs.Terms.{demands_on, slots_by};
ghost use Rattle.metis_support.specs.Terms.{IsSupport, is_selected, provider_at};

use crate::support::Support;
use metis_ids::{IxVec, NoMemory, PairIx};
use metis_universe::Universe;
use std::alloc::Global;

/// How many slots each pair has: as many as a selected pair demands of a port that is taken from it. It goes once over what
/// the selected pairs require.
pub fn slot_counts(alloc: Global, u: &Universe, s: &Support) -> Result<IxVec<PairIx, u32>, NoMemory>
    requires { IsSupport u.now s.now }
    ensures { IfOk result (λ counts. (p : ℕ) → slice_index_or counts p 0 ≡ slots_by (provider_at s.now) u.now s.now.selected.members p) }
{
    let mut counts = filled(alloc, s.selected().size(), 0)?;
    for pair in s.selected().iter() {
        note_demands(&mut counts, u, s, pair);
    }
    Ok(counts)
}

/// A list of this size in which each entry is the number.
pub fn filled(alloc: Global, size: u32, number: u32) -> Result<IxVec<PairIx, u32>, NoMemory>
    ensures { IfOk result (λ numbers. numbers ≡ replicate size number) }
{
    let mut numbers = IxVec::new(alloc);
    for _ in 0..size {
        numbers.push(number)?;
    }
    Ok(numbers)
}

// Raises the counts to what the pair demands.
fn note_demands(counts: &mut IxVec<PairIx, u32>, u: &Universe, s: &Support, pair: PairIx)
    requires support { IsSupport u.now s.now }
    requires selected { IsTrue (is_selected s.now pair) }
    requires size { length counts.old ≡ s.now.selected.size }
    ensures size { length counts.new ≡ length counts.old }
    ensures counts { (p : ℕ) → slice_index_or counts.new p 0 ≡ fold max (slice_index_or counts.old p 0) (demands_on (provider_at s.now) u.now p pair) }
{
    for port in u.requires_(pair) {
        if let Some(provider) = s.provider(*port) {
            raise(counts, provider, u.demand(pair, *port));
        }
    }
}

// Raises the pair's count to this one.
fn raise(counts: &mut IxVec<PairIx, u32>, pair: PairIx, count: u32)
    requires { pair < length counts.old }
    ensures { counts.new ≡ slice_set counts.old pair (max (slice_index_or counts.old pair 0) count) }
{
    let known = count_in(counts, pair);
    counts.set(pair, known.max(count));
}

/// The pair's entry, 0 where it has none.
pub fn count_in(counts: &IxVec<PairIx, u32>, pair: PairIx) -> u32
    ensures { result ≡ slice_index_or counts.now pair 0 }
{
    counts.get(pair).copied().unwrap_or(0)
}
