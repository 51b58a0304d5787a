//! The universe that a document means.
ghost use Rattle.metis_ujson.specs.Terms.{rows_made, universe_in};
ghost use Rattle.metis_ids.specs.Terms.{ReadsAs};
ghost use Rattle.metis_universe.specs.Terms.{IsOfVersion};
ghost use Rattle.metis_ujson.specs.declared.faults.UFault.TheVariants.{NoMemory};

use crate::faults::UFault;
use crate::forms::{Spelled, read_rows};
use metis_universe::{TypeRow, Universe, rows_fit};
use std::alloc::Global;

/// The most bytes of a universe's document.
pub const UNIVERSE_LIMIT: u64 = 4_194_304;

/// The universe that the bytes mean, or the first reason why they mean none.
pub fn read_universe(alloc: Global, bytes: &[u8]) -> Result<Universe, UFault>
    ensures { ReadsAs NoMemory (λ u. u) result (universe_in bytes.now) }
{
    let Spelled { version, types } = read_rows(alloc, bytes)?;
    made(alloc, version, types)
}

// The universe of the rows. Rows that could not be numbered are more than memory holds.
fn made(alloc: Global, version: u32, types: Vec<TypeRow>) -> Result<Universe, UFault>
    requires { IsOfVersion version types.items }
    ensures { ReadsAs NoMemory (λ u. u) result (rows_made (record { version = version; types = types.items })) }
{
    if !rows_fit(&types) {
        return Err(UFault::NoMemory);
    }
    match Universe::new(alloc, version, types) {
        Ok(universe) => Ok(universe),
        Err(fault) => Err(UFault::of_row(fault)),
    }
}
