//! How a run ends before its work.
ghost use Rattle.std.specs.Prelude.{◌≡◌, ◌∷◌, ◌++◌, [], IfOk, codes, string_bytes};
ghost use Rattle.metis_outside.specs.Terms.{IsLine};
ghost use Rattle.metis_output.specs.Terms.{PutsLines, Shown, number_line};
ghost use Rattle.metis_top.specs.Terms.{StopSays, fault_line, fault_status, hosts_fault_line, is_told, limit_line, part_line, state_line, text_fault_line, two_line, universe_line, wishes_fault_line};

use metis_ids::NoMemory;
use metis_inputs::{InputFault, Stop};
use metis_output::{Status, number_line, say};
use metis_outside::Sink;
use metis_place::HFault;
use metis_tokens::TFault;
use metis_ujson::UFault;
use metis_universe::LimitKind;
use metis_wishes::WishFault;
use std::alloc::{AllocError, Global};

fn fault_line(alloc: Global, fault: InputFault) -> Result<String, AllocError>
    ensures { IfOk result (λ line. string_bytes line ≡ fault_line fault) }
{
    match fault {
        InputFault::Word(place) => number_line(alloc, "bad word", place),
        InputFault::TooLong(place) => number_line(alloc, "too long", place),
        InputFault::Universe(fault) => universe_line(alloc, fault),
        InputFault::PlanText(fault) => text_fault_line(alloc, "plan", fault),
        InputFault::RefusalText(fault) => text_fault_line(alloc, "refusal", fault),
        InputFault::WhyText(fault) => text_fault_line(alloc, "why", fault),
        InputFault::HostsText(fault) => hosts_fault_line(alloc, fault),
        InputFault::WishesText(fault) => wishes_fault_line(alloc, fault),
        InputFault::Turns(place) => number_line(alloc, "bad turns", place),
    }
}

fn universe_line(alloc: Global, fault: UFault) -> Result<String, AllocError>
    ensures { IfOk result (λ line. string_bytes line ≡ universe_line fault) }
{
    match fault {
        UFault::NotJson => String::from_str(alloc, "bad universe U1\n"),
        UFault::NotUniverse => String::from_str(alloc, "bad universe U2\n"),
        UFault::TypeForm(t) => number_line(alloc, "bad universe U3 type", t),
        UFault::TypeName(t) => number_line(alloc, "bad universe U4 type", t),
        UFault::TypeTwice(t, f) => two_line(alloc, "bad universe U5 type", t, "first", f),
        UFault::NoInitial(t) => number_line(alloc, "bad universe U9 type", t),
        UFault::Limit(kind, n) => limit_line(alloc, kind, n),
        UFault::NoMemory => Ok(String::new(alloc)),
        _ => state_line(alloc, fault),
    }
}

fn state_line(alloc: Global, fault: UFault) -> Result<String, AllocError>
    ensures { IfOk result (λ line. string_bytes line ≡ state_line fault) }
{
    match fault {
        UFault::StateForm(t, s) => two_line(alloc, "bad universe U6 type", t, "state", s),
        UFault::StateName(t, s) => two_line(alloc, "bad universe U7 type", t, "state", s),
        UFault::StateTwice(t, s, f) => part_line(alloc, "bad universe U8 type", (t, s), "first", f),
        UFault::UnknownNext(t, s, k) => part_line(
            alloc,
            "bad universe U10 type",
            (t, s),
            "entry",
            k,
        ),
        UFault::PortName(t, s, k) => part_line(alloc, "bad universe U11 type", (t, s), "entry", k),
        UFault::Demand(t, s, k) => part_line(alloc, "bad universe U13 type", (t, s), "entry", k),
        _ => Ok(String::new(alloc)),
    }
}

fn limit_line(alloc: Global, kind: LimitKind, n: u64) -> Result<String, AllocError>
    ensures { IfOk result (λ line. string_bytes line ≡ limit_line kind n) }
{
    match kind {
        LimitKind::States => long_line(alloc, "bad universe U12 states", n),
        LimitKind::Requires => long_line(alloc, "bad universe U12 requires", n),
        LimitKind::Pairs => long_line(alloc, "bad universe U12 pairs", n),
        LimitKind::Ports => long_line(alloc, "bad universe U12 ports", n),
    }
}

// The line of the first fault of a text of this name.
fn text_fault_line(alloc: Global, text: &str, fault: TFault) -> Result<String, AllocError>
    ensures { IfOk result (λ line. string_bytes line ≡ text_fault_line text.now fault) }
{
    match fault {
        TFault::Line(n) => text_line(alloc, text, "line", n),
        TFault::Short => format!(in alloc; "bad {text} short\n"),
        TFault::Name(n) => text_line(alloc, text, "name", n),
        TFault::Number(n) => text_line(alloc, text, "number", n),
        TFault::NoMemory => Ok(String::new(alloc)),
    }
}

fn hosts_fault_line(alloc: Global, fault: HFault) -> Result<String, AllocError>
    ensures { IfOk result (λ line. string_bytes line ≡ hosts_fault_line fault) }
{
    match fault {
        HFault::Line(n) => number_line(alloc, "bad hosts line", n),
        HFault::Short => String::from_str(alloc, "bad hosts short\n"),
        HFault::Number(n) => number_line(alloc, "bad hosts number", n),
        HFault::Name(n) => number_line(alloc, "bad hosts name", n),
        HFault::Twice(n) => number_line(alloc, "bad hosts twice", n),
        HFault::NoMemory => Ok(String::new(alloc)),
    }
}

fn wishes_fault_line(alloc: Global, fault: WishFault) -> Result<String, AllocError>
    ensures { IfOk result (λ line. string_bytes line ≡ wishes_fault_line fault) }
{
    match fault {
        WishFault::Line(n) => number_line(alloc, "bad wishes line", n),
        WishFault::Short => String::from_str(alloc, "bad wishes short\n"),
        WishFault::Number(n) => number_line(alloc, "bad wishes number", n),
        WishFault::Name(n) => number_line(alloc, "bad wishes name", n),
        WishFault::Twice(n) => number_line(alloc, "bad wishes twice", n),
        WishFault::NoMemory => Ok(String::new(alloc)),
    }
}

// Words with a number, and then a word with one.
fn two_line(
    alloc: Global,
    words: &str,
    number: u32,
    word: &str,
    second: u32,
) -> Result<String, AllocError>
    ensures { IfOk result (λ line. string_bytes line ≡ two_line words.now number word.now second) }
{
    format!(in alloc; "{words} {number} {word} {second}\n")
}

// Words with a state of a type, and then a word with a number.
fn part_line(
    alloc: Global,
    words: &str,
    state: (u32, u32),
    word: &str,
    number: u32,
) -> Result<String, AllocError>
    ensures { IfOk result (λ line. string_bytes line ≡ part_line words.now state.0 state.1 word.now number) }
{
    let (t, s) = state;
    format!(in alloc; "{words} {t} state {s} {word} {number}\n")
}

// Words, and then a number of 64 bits.
fn long_line(alloc: Global, words: &str, number: u64) -> Result<String, AllocError>
    ensures { IfOk result (λ line. string_bytes line ≡ number_line words.now number) }
{
    format!(in alloc; "{words} {number}\n")
}

// The line of a text of this name that says what is wrong there.
fn text_line(alloc: Global, text: &str, what: &str, number: u32) -> Result<String, AllocError>
    ensures { IfOk result (λ line. string_bytes line ≡ codes "bad " ++ (text.now ++ (codes " " ++ number_line what.now number))) }
{
    format!(in alloc; "bad {text} {what} {number}\n")
}

fn fault_status(fault: InputFault) -> Status
    ensures { result ≡ fault_status fault }
{
    match fault {
        InputFault::Word(_) => Status::BadWords,
        _ => Status::BadInput,
    }
}

// Whether the fault has a line. Want of memory has none.
fn is_told(fault: InputFault) -> bool
    ensures { result ≡ is_told fault }
{
    match fault {
        InputFault::Universe(UFault::NoMemory)
        | InputFault::PlanText(TFault::NoMemory)
        | InputFault::RefusalText(TFault::NoMemory)
        | InputFault::WhyText(TFault::NoMemory)
        | InputFault::HostsText(HFault::NoMemory)
        | InputFault::WishesText(WishFault::NoMemory) => false,
        _ => true,
    }
}

// The line of a run that ends before its work, and the status. Want of memory has none.
fn stop_line(alloc: Global, stop: Stop) -> Result<(String, Status), NoMemory>
    ensures says { IfOk result (λ told. StopSays stop (string_bytes told.0 ∷ []) told.1) }
    ensures line { IfOk result (λ told. IsLine (string_bytes told.0)) }
{
    match stop {
        Stop::Faulty(fault) => {
            if !is_told(fault) {
                return Err(NoMemory);
            }
            let line = fault_line(alloc, fault)?;
            Ok((line, fault_status(fault)))
        }
        Stop::Failed(place) => {
            let line = number_line(alloc, "read fault", place)?;
            Ok((line, Status::ReadFault))
        }
        Stop::NoMemory => Err(NoMemory),
    }
}

/// Puts the line of a run that ends before its work.
#[tactic(auto, using(metis_output::proofs::PutLines::puts_nothing))]
pub fn end<K: Sink>(alloc: Global, stop: Stop, out: &mut K) -> Status
    ensures course { Shown (StopSays stop) (K.written out.old) (K.written out.new) (K.faults out.old) (K.faults out.new) result }
    ensures lines { PutsLines (K.written out.old) (K.written out.new) result }
{
    match stop_line(alloc, stop) {
        Ok((line, status)) => say(line.as_str(), status, out),
        Err(_) => Status::NoMemory,
    }
}
