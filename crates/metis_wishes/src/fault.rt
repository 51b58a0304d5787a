//! Why bytes are no text of wishes.
ghost use Rattle.std.specs.Prelude.{◌≡◌};
ghost use Rattle.metis_tokens.specs.Terms.{line_fault};
ghost use Rattle.metis_wishes.specs.declared.fault.WishFault.TheVariants.{Line, Name, Number};

use metis_tokens::Flaw;
use std::alloc::{AllocError, AllocFailed};

/// Why bytes are no text of wishes. Lines count from 1, and the first line with a fault counts.
#[derive(Clone, Copy, PartialEq, Eq)]
pub enum WishFault {
    /// The line does not have the tokens of a form that may stand at its place.
    Line(u32),
    /// The bytes end before the last line does.
    Short,
    /// The number in the line is out of range.
    Number(u32),
    /// The word of the line names no type, or no pair.
    Name(u32),
    /// An earlier line is about the same instance, type or pair.
    Twice(u32),
    NoMemory,
}

/// The fault of the line of this number, which has the flaw.
pub fn fault_at(number: u32, flaw: Flaw) -> WishFault
    ensures { result ≡ line_fault Line Number Name number flaw }
{
    match flaw {
        Flaw::Form => WishFault::Line(number),
        Flaw::Number => WishFault::Number(number),
        Flaw::Name => WishFault::Name(number),
    }
}

impl From<AllocError> for WishFault {
    ghost use Rattle.metis_wishes.specs.declared.fault.WishFault.TheVariants as fault;

    ghost from_gives = { λ _ e. e ≡ fault.NoMemory };

    fn from(_: AllocError) -> Self {
        WishFault::NoMemory
    }
}

impl<T: Drop> From<AllocFailed<T>> for WishFault {
    ghost use Rattle.metis_wishes.specs.declared.fault.WishFault.TheVariants as fault;

    ghost from_gives = { λ _ e. e ≡ fault.NoMemory };

    fn from(_: AllocFailed<T>) -> Self {
        WishFault::NoMemory
    }
}
