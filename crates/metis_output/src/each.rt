//! A line at each of some places.
ghost use Rattle.std.specs.Prelude.{◌≡◌, ◌<◌, ℕ, List, Some, OnOk, drop, length, slice_get, string_bytes};
ghost use Rattle.metis_outside.specs.Terms.{IsLine};

use crate::Lines;
use std::alloc::AllocError;

/// What has a line at each of its places.
pub trait LineAt {
    /// The lines.
    ghost lines: { Self → List (List ℕ) };

    /// How many there are.
    fn count(&self) -> usize
        ensures { result ≡ length (lines self.now) };

    /// Makes the given line the one of this place, whatever it had.
    fn set_line(&self, place: usize, line: &mut String) -> Result<(), AllocError>
        requires { place < length (lines self.now) }
        ensures text { OnOk result (slice_get (lines self.now) place ≡ Some (string_bytes line.new)) }
        ensures line { OnOk result (IsLine (string_bytes line.new)) };
}

/// Its lines from a place on.
#[derive(Drop)]
pub struct Each<T: LineAt + Drop> {
    pub of: T,
    pub at: usize,
}

impl<T: LineAt + Drop> Each<T> {
    /// All its lines.
    pub fn of(of: T) -> Each<T>
        ensures { (result.of ≡ of) × (result.at ≡ 0) }
    {
        Each { of, at: 0 }
    }
}

impl<T: LineAt + Drop> Lines for Each<T> {
    ghost rest = { λ e. drop e.at (T.lines e.of) };

    fn next_line(&mut self, line: &mut String) -> Result<bool, AllocError> {
        if self.at >= self.of.count() {
            return Ok(false);
        }
        self.of.set_line(self.at, line)?;
        self.at += 1;
        Ok(true)
    }
}
