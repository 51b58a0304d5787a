//! The generated universes and their targets.
ghost use Rattle.std.specs.Prelude.{◌≡◌, ◌≤◌, IfOk};
ghost use Rattle.metis_gen.specs.Terms.{generated, generated_targets};

use crate::rows::generated_rows;
use metis_ids::{NoMemory, PairIx};
use metis_universe::{RowFault, Universe};
use std::alloc::Global;

/// The generated universe of size n, which is 1 to 128. It has 2 n types, 8 n pairs and 3 n ports.
pub fn universe_of(alloc: Global, n: u32) -> Result<Universe, NoMemory>
    requires at_least { 1 ≤ n }
    requires at_most { n ≤ 128 }
    ensures { IfOk result (λ u. u ≡ generated n) }
{
    match Universe::new(alloc, 1, generated_rows(alloc, n)?) {
        Ok(u) => Ok(u),
        Err(fault) => match fault {
            RowFault::NoMemory => Err(NoMemory),
            _ => unreachable!("the rows have no fault"),
        },
    }
}

/// The targets of the generated universe of size n, which is 1 to 128: for each place the last pair of its left type, and
/// then that of its right one.
pub fn targets_of(alloc: Global, n: u32) -> Result<Vec<PairIx>, NoMemory>
    requires at_least { 1 ≤ n }
    requires at_most { n ≤ 128 }
    ensures { IfOk result (λ targets. targets.items ≡ generated_targets n) }
{
    let mut targets = Vec::new(alloc);
    for i in 0..n {
        targets.push(PairIx(8 * i + 3))?;
        targets.push(PairIx(8 * i + 7))?;
    }
    Ok(targets)
}
