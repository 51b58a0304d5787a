//! The output of a case.
ghost use Rattle.std.specs.Prelude.{◌≡◌, ◌-◌, IsErrOf, IsTrue};
ghost use Rattle.metis_outside.specs.Terms.{CountsFault, Puts, is_told};

use crate::case_sink::CaseSink;
use crate::countdown::Countdown;
use metis_outside::{Sink, Trouble};

/// An output, of whose puts one may be told to fail. That one puts nothing.
#[derive(Drop)]
pub struct StagedSink<K: Sink + Drop> {
    pub out: K,
    pub fails: Countdown,
    pub faults: u64,
}

impl<K: Sink + Drop> StagedSink<K> {
    pub fn new(out: K) -> Self
        ensures out { result.out ≡ out }
        ensures fails { result.fails ≡ 0 }
    {
        StagedSink {
            out,
            fails: Countdown::to(0),
            faults: 0,
        }
    }
}

impl<K: Sink + Drop> Sink for StagedSink<K> {
    ghost written = { λ s. K.written s.out };

    ghost faults = { λ s. s.faults };

    fn put(&mut self, piece: &[u8]) -> Result<(), Trouble>
        ensures bytes { Puts piece.now (K.written self.old.out) (K.written self.new.out) result }
        ensures told { IsTrue (is_told (K.written self.old.out)) → IsTrue (is_told (K.written self.new.out)) }
        ensures cause { CountsFault self.old.faults self.new.faults result }
        ensures failing { self.old.fails ≡ 1 → IsErrOf result Trouble.Failed }
        ensures counted { self.new.fails ≡ self.old.fails - 1 }
    {
        if self.fails.comes() {
            self.faults = self.faults.saturating_add(1);
            return Err(Trouble::Failed);
        }
        let put = self.out.put(piece);
        if put == Err(Trouble::Failed) {
            self.faults = self.faults.saturating_add(1);
        }
        put
    }
}

impl<K: Sink + Drop> CaseSink for StagedSink<K> {
    ghost fails = { λ s. s.fails };

    fn prepare(&mut self, put: u32) {
        self.fails = Countdown::to(put);
    }
}
