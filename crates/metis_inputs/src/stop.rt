//! Why a run ends before its work.
ghost use Rattle.std.specs.Prelude.{◌≡◌};

use metis_place::HFault;
use metis_tokens::TFault;
use metis_ujson::UFault;
use metis_wishes::WishFault;
use metis_words::WordFault;
use std::alloc::{AllocError, AllocFailed};

/// What is wrong with a run's words or files.
#[derive(Clone, Copy)]
pub enum InputFault {
    /// The word at this place does not fit.
    Word(u32),
    /// The file of the word at this place is longer than accepted.
    TooLong(u32),
    /// The document is no universe's.
    Universe(UFault),
    /// The bytes are no text of a plan.
    PlanText(TFault),
    /// The bytes are no text of a refusal.
    RefusalText(TFault),
    /// The bytes are no text of an explanation.
    WhyText(TFault),
    /// The bytes are no text of hosts.
    HostsText(HFault),
    /// The bytes are no text of wishes.
    WishesText(WishFault),
    /// The token at this place, from 1, of the text of turns is no number in range.
    Turns(u32),
}

/// Why a run ends before its work.
#[derive(Clone, Copy)]
pub enum Stop {
    /// Its words or files are faulty.
    Faulty(InputFault),
    /// The reading of the file of the word at this place failed.
    Failed(u32),
    NoMemory,
}

impl<T: Drop> From<AllocFailed<T>> for Stop {
    ghost use Rattle.metis_inputs.specs.declared.stop.Stop.TheVariants.{NoMemory};

    ghost from_gives = { λ _ e. e ≡ NoMemory };

    fn from(_: AllocFailed<T>) -> Self {
        Stop::NoMemory
    }
}

impl From<AllocError> for Stop {
    ghost use Rattle.metis_inputs.specs.declared.stop.Stop.TheVariants.{NoMemory};

    ghost from_gives = { λ _ e. e ≡ NoMemory };

    fn from(_: AllocError) -> Self {
        Stop::NoMemory
    }
}

impl From<WordFault> for Stop {
    ghost use Rattle.metis_inputs.specs.Stops.{word_stop};

    ghost from_gives = { λ fault stop. stop ≡ word_stop fault };

    fn from(fault: WordFault) -> Self {
        match fault {
            WordFault::At(place) => Stop::Faulty(InputFault::Word(place)),
            WordFault::NoMemory => Stop::NoMemory,
        }
    }
}
