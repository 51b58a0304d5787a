//! Why bytes are no text of hosts.
ghost use Rattle.std.specs.Prelude.{◌≡◌};
ghost use Rattle.metis_tokens.specs.Terms.{line_fault};
ghost use Rattle.metis_place.specs.declared.hosts_fault.HFault.TheVariants.{Line, Name, Number};

use metis_tokens::Flaw;
use std::alloc::{AllocError, AllocFailed};

/// Why bytes are no text of hosts. Lines count from 1, and the first line with a fault counts.
#[derive(Clone, Copy, PartialEq, Eq)]
pub enum HFault {
    /// The line does not have the tokens of a form that may stand at its place.
    Line(u32),
    /// The bytes end before the last line does.
    Short,
    /// The number in the line is out of range.
    Number(u32),
    /// The line tells the size of a type that is not there.
    Name(u32),
    /// The host's name, or the type, stands on an earlier line of its kind.
    Twice(u32),
    NoMemory,
}

/// The fault of the line of this number, which has the flaw.
pub fn fault_at(number: u32, flaw: Flaw) -> HFault
    ensures { result ≡ line_fault Line Number Name number flaw }
{
    match flaw {
        Flaw::Form => HFault::Line(number),
        Flaw::Number => HFault::Number(number),
        Flaw::Name => HFault::Name(number),
    }
}

impl From<AllocError> for HFault {
    ghost use Rattle.metis_place.specs.declared.hosts_fault.HFault.TheVariants as fault;

    ghost from_gives = { λ _ e. e ≡ fault.NoMemory };

    fn from(_: AllocError) -> Self {
        HFault::NoMemory
    }
}

impl<T: Drop> From<AllocFailed<T>> for HFault {
    ghost use Rattle.metis_place.specs.declared.hosts_fault.HFault.TheVariants as fault;

    ghost from_gives = { λ _ e. e ≡ fault.NoMemory };

    fn from(_: AllocFailed<T>) -> Self {
        HFault::NoMemory
    }
}
