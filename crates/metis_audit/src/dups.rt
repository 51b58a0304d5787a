//! The dups of a plan, each over the lines for those before it.
ghost use Rattle.std.specs.Prelude.{◌≡◌, ◌<◌, ◌^◌, ℕ, IfOk, IsTrue, MatchOption, [], length, ⊤};
ghost use Rattle.metis_support.specs.Terms.{IsSupport};
ghost use Rattle.metis_lines.specs.Terms.{AreLines, lines_of, own_pairs};
ghost use Rattle.metis_audit.specs.Terms.{IsFirstUnforced, is_forced, is_forced_at};

use crate::cycles::is_forced;
use metis_ids::{Dup, Event, NoMemory, PairIx};
use metis_lines::{Lines, OverLines};
use metis_support::Support;
use metis_universe::Universe;
use std::alloc::Global;

/// The number of the first dup that its cycle does not force, from 1. Where each is forced, there is none, and the lines have a line
/// of its own for the pair of each.
pub fn first_unforced(
    alloc: Global,
    universe: &Universe,
    support: &Support,
    lines: &mut Lines,
    dups: &[Dup],
) -> Result<Option<u32>, NoMemory>
    requires over { IsSupport universe.now support.now }
    requires lines { AreLines universe.now support.now lines.old }
    requires first { lines.old ≡ lines_of universe.now support.now lines.old.targets [] }
    requires few { length dups.now < 2 ^ 32 }
    ensures unforced { IfOk result (λ k. MatchOption k ((i : ℕ) → i < length dups.now → IsTrue (is_forced_at universe.now support.now lines.old.targets dups.now i)) (IsFirstUnforced universe.now support.now lines.old.targets dups.now)) }
    ensures own { IfOk result (λ k. MatchOption k (lines.new ≡ lines_of universe.now support.now lines.old.targets (own_pairs dups.now)) (λ _. ⊤)) }
{
    for index in 0..dups.len() {
        let dup = &dups[index];
        if !forces(universe, support, lines, dup.pair, &dup.cycle) {
            return Ok(Some(index as u32 + 1));
        }
        lines.own_line(alloc, support, dup.pair)?;
    }
    Ok(None)
}

// Whether the cycle forces a dup of the pair over these lines.
fn forces<'a>(
    universe: &'a Universe,
    support: &'a Support,
    lines: &'a Lines,
    pair: PairIx,
    cycle: &[Event],
) -> bool
    requires over { IsSupport universe.now support.now }
    requires lines { AreLines universe.now support.now lines.now }
    ensures { result ≡ is_forced universe.now support.now lines.now pair cycle.now }
{
    let over = OverLines::over(universe, support, lines);
    is_forced(&over, pair, cycle)
}
