//! Output, as a case stages it.
ghost use Rattle.std.specs.Prelude.{◌≡◌, ℕ};

use metis_outside::Sink;

/// An output, of whose puts one may be told to fail.
pub trait CaseSink: Sink {
    /// Which of the puts to come is to fail, counted from 1; 0 where none is.
    ghost fails: { Self → ℕ };

    /// Tells which put is to fail. Puts are counted from here on.
    fn prepare(&mut self, put: u32)
        ensures fails { fails self.new ≡ put }
        ensures written { Self.written self.new ≡ Self.written self.old };
}
