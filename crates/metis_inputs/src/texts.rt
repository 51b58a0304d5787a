//! The texts that a command reads behind its universe, one type for each kind.
ghost use Rattle.std.specs.Prelude.{◌≡◌, ◌≤◌, IfOk, length};
ghost use Rattle.metis_inputs.specs.Commands.{text_in_then, text_limit};
ghost use Rattle.metis_inputs.specs.Inputs.{Meaning};
ghost use Rattle.metis_inputs.specs.Gathers.{Judges};
ghost use Rattle.metis_universe.specs.Terms.{Universe};
ghost use Rattle.metis_words.specs.Terms.{TextKind};

use crate::stop::{InputFault, Stop};
use crate::turns::read_turns;
use metis_ids::InstNo;
use metis_place::{HFault, Hosts, read_hosts};
use metis_text::{PlanText, Refusal, read_plan, read_refusal};
use metis_tokens::TFault;
use metis_universe::Universe;
use metis_why::Explanation;
use metis_why_text::{accepted_why_is_written, read_why};
use metis_wishes::{Wish, WishFault, read_wishes};
use std::alloc::Global;

/// What a text of one kind says.
pub trait Text: Sized + Drop {
    /// Which kind it is.
    ghost kind: { TextKind };

    /// What contracts see of it.
    ghost said: { Self → Meaning kind };

    /// What is known of it if it was read over a universe.
    ghost fits: { Universe → Self → Type 0 };

    /// There is one proof of it at most.
    ghost fits_prop: { (u : Universe) (text : Self) → IsProp (fits u text) };

    /// The most bytes of such a text.
    fn limit() -> u64
        ensures { result ≡ text_limit kind };

    /// What the bytes say.
    fn read(alloc: Global, u: &Universe, bytes: Vec<u8>) -> Result<Self, Stop>
        requires { length bytes.items ≤ text_limit kind }
        ensures judges { Judges said (text_in_then kind u.now bytes.items) result }
        ensures fits { IfOk result (fits u.now) };
}

/// A plan.
impl Text for PlanText {
    ghost use Rattle.metis_text.specs.Reads.{parts_of};
    ghost use Rattle.metis_words.specs.Forms.{PlanText};
    ghost use Rattle.metis_inputs.specs.Facts.{IsPlanFor, IsPlanFor-prop};

    ghost kind = { PlanText };

    ghost said = { parts_of };

    ghost fits = { IsPlanFor };

    ghost fits_prop = { IsPlanFor-prop };

    fn limit() -> u64 {
        268_435_456
    }

    fn read(alloc: Global, u: &Universe, bytes: Vec<u8>) -> Result<Self, Stop> {
        match read_plan(alloc, u, &bytes) {
            Ok(text) => Ok(text),
            Err(TFault::NoMemory) => Err(Stop::NoMemory),
            Err(fault) => Err(Stop::Faulty(InputFault::PlanText(fault))),
        }
    }
}

/// A refusal.
impl Text for Refusal {
    ghost use Rattle.metis_text.specs.RefusalReading.{refusal_of};
    ghost use Rattle.metis_words.specs.Forms.{RefusalText};
    ghost use Rattle.metis_inputs.specs.Facts.{IsRefusalFor, IsRefusalFor-prop};

    ghost kind = { RefusalText };

    ghost said = { refusal_of };

    ghost fits = { IsRefusalFor };

    ghost fits_prop = { IsRefusalFor-prop };

    fn limit() -> u64 {
        1_048_576
    }

    fn read(alloc: Global, u: &Universe, bytes: Vec<u8>) -> Result<Self, Stop> {
        match read_refusal(alloc, u, &bytes) {
            Ok(refusal) => Ok(refusal),
            Err(TFault::NoMemory) => Err(Stop::NoMemory),
            Err(fault) => Err(Stop::Faulty(InputFault::RefusalText(fault))),
        }
    }
}

/// An explanation.
impl Text for Explanation {
    ghost use Rattle.metis_why_text.specs.WhyReading.{parts_of};
    ghost use Rattle.metis_words.specs.Forms.{WhyText};
    ghost use Rattle.metis_inputs.specs.Facts.{IsWhyFor, IsWhyFor-prop};

    ghost kind = { WhyText };

    ghost said = { parts_of };

    ghost fits = { IsWhyFor };

    ghost fits_prop = { IsWhyFor-prop };

    fn limit() -> u64 {
        1_073_741_824
    }

    fn read(alloc: Global, u: &Universe, bytes: Vec<u8>) -> Result<Self, Stop> {
        accepted_why_is_written();
        match read_why(alloc, u, &bytes) {
            Ok(why) => Ok(why),
            Err(TFault::NoMemory) => Err(Stop::NoMemory),
            Err(fault) => Err(Stop::Faulty(InputFault::WhyText(fault))),
        }
    }
}

/// The script of a session, or of a controller.
impl Text for Vec<u8> {
    ghost use Rattle.std.specs.Coded.{le_prop};
    ghost use Rattle.metis_words.specs.Forms.{ScriptText};

    ghost kind = { ScriptText };

    ghost said = { λ script. script.items };

    ghost fits = { λ u script. length script.items ≤ 65536 };

    ghost fits_prop = { λ u script. le_prop };

    fn limit() -> u64 {
        65_536
    }

    fn read(_: Global, _: &Universe, bytes: Vec<u8>) -> Result<Self, Stop> {
        Ok(bytes)
    }
}

/// The instances whose turns come one after the other.
impl Text for Vec<InstNo> {
    ghost use Rattle.std.specs.Prelude.{⊤};
    ghost use Rattle.std.specs.Coded.{Unit-prop};
    ghost use Rattle.metis_words.specs.Forms.{TurnsText};

    ghost kind = { TurnsText };

    ghost said = { λ turns. turns.items };

    ghost fits = { λ u turns. ⊤ };

    ghost fits_prop = { λ u turns. Unit-prop };

    fn limit() -> u64 {
        4_194_304
    }

    fn read(alloc: Global, _: &Universe, bytes: Vec<u8>) -> Result<Self, Stop> {
        read_turns(alloc, &bytes)
    }
}

/// Hosts with room, and the sizes of types.
impl Text for Hosts {
    ghost use Rattle.metis_words.specs.Forms.{HostsText};
    ghost use Rattle.metis_inputs.specs.Facts.{AreHostsFor, AreHostsFor-prop};

    ghost kind = { HostsText };

    ghost said = { λ hosts. hosts };

    ghost fits = { AreHostsFor };

    ghost fits_prop = { AreHostsFor-prop };

    fn limit() -> u64 {
        65_536
    }

    fn read(alloc: Global, u: &Universe, bytes: Vec<u8>) -> Result<Self, Stop> {
        match read_hosts(alloc, u, &bytes) {
            Ok(hosts) => Ok(hosts),
            Err(HFault::NoMemory) => Err(Stop::NoMemory),
            Err(fault) => Err(Stop::Faulty(InputFault::HostsText(fault))),
        }
    }
}

/// What is wished of what stands.
impl Text for Vec<Wish> {
    ghost use Rattle.std.specs.Coded.{le_prop};
    ghost use Rattle.metis_words.specs.Forms.{WishesText};

    ghost kind = { WishesText };

    ghost said = { λ wishes. wishes.items };

    ghost fits = { λ u wishes. length wishes.items ≤ 65536 };

    ghost fits_prop = { λ u wishes. le_prop };

    fn limit() -> u64 {
        65_536
    }

    fn read(alloc: Global, u: &Universe, bytes: Vec<u8>) -> Result<Self, Stop> {
        match read_wishes(alloc, u, &bytes) {
            Ok(wishes) => Ok(wishes),
            Err(WishFault::NoMemory) => Err(Stop::NoMemory),
            Err(fault) => Err(Stop::Faulty(InputFault::WishesText(fault))),
        }
    }
}
