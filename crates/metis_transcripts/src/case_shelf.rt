//! Files, as a case stages them.
ghost use Rattle.std.specs.Prelude.{◌≡◌, ℕ, List, OnOk};

use metis_outside::Shelf;
use std::alloc::AllocError;

/// Files, of which the name `-` is an input that is handed in, and of whose calls one may be told to fail.
pub trait CaseShelf: Shelf {
    /// The whole input.
    ghost input: { Self → List ℕ };

    /// Which of the calls to come is to fail, counted from 1; 0 where none is.
    ghost fails: { Self → ℕ };

    /// Hands in the input, and tells which call is to fail. Calls of both methods are counted together, from here on.
    fn prepare(&mut self, text: &[u8], call: u32) -> Result<(), AllocError>
        ensures input { OnOk result (input self.new ≡ text.now) }
        ensures fails { OnOk result (fails self.new ≡ call) }
        ensures files { Self.files self.new ≡ Self.files self.old };
}
