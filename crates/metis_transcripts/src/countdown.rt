//! Which call is to fail.
ghost use Rattle.std.specs.Prelude.{◌≡◌, ◌↔◌, ◌-◌, IsTrue};

use std::marker::Model;

/// Counts calls down to the one that is to fail.
#[derive(Drop)]
pub struct Countdown {
    left: u32,
}

impl Model for Countdown {
    ghost use Rattle.std.specs.Prelude.{ℕ};

    ghost Value = { ℕ };

    ghost view = { λ c. c.left };
}

impl Countdown {
    /// The call of this number is to fail, counted from 1, and none where it is 0.
    pub fn to(call: u32) -> Self
        ensures { result ≡ call }
    {
        Countdown { left: call }
    }

    /// Counts a call, and tells whether it is to fail.
    pub fn comes(&mut self) -> bool
        ensures failing { IsTrue result ↔ (self.old ≡ 1) }
        ensures counted { self.new ≡ self.old - 1 }
    {
        let comes = self.left == 1;
        self.left = self.left.saturating_sub(1);
        comes
    }
}
