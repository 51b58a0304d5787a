//! Writes the document of a universe.
ghost use Rattle.std.specs.Prelude.{◌≡◌, [], ◌∷◌, IfOk};
ghost use Rattle.metis_outside.specs.Terms.{CountsFault, Writes};
ghost use Rattle.metis_ujson.specs.Terms.{canonical};

use crate::laws::written_is_a_line;
use crate::spelling::text_of;
use metis_output::{Once, put_all};
use metis_outside::{Sink, Trouble};
use metis_universe::Universe;
use std::alloc::{AllocError, Global};

/// The document of the universe, which is one line.
pub fn universe_line(alloc: Global, u: &Universe) -> Result<Once, AllocError>
    ensures { IfOk result (λ lines. lines ≡ canonical u.now ∷ []) }
{
    written_is_a_line();
    Ok(Once::of(text_of(alloc, u)?))
}

/// Puts the document of the universe, which is one line, by one put.
pub fn write_universe<K: Sink>(alloc: Global, u: &Universe, out: &mut K) -> Result<(), Trouble>
    ensures text { Writes (canonical u.now ∷ []) (K.written out.old) (K.written out.new) result }
    ensures cause { CountsFault (K.faults out.old) (K.faults out.new) result }
{
    put_all(alloc, &mut universe_line(alloc, u)?, out)
}
