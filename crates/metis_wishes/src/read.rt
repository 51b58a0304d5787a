//! Reads the text of wishes.
ghost use Rattle.std.specs.Prelude.{◌≡◌, ◌≤◌, ◌^◌, ◌<◌, [], IfOk, IsTrue, length, map};
ghost use Rattle.std.specs.List.{All, list_any};
ghost use Rattle.metis_tokens.specs.Terms.{made};
ghost use Rattle.metis_ids.specs.Terms.{ReadsAs};
ghost use Rattle.metis_wishes.specs.Terms.{avoided_in, instance_in, is_about, kept_in, wish_in, wish_of, wishes_in, with_wish};
ghost use Rattle.metis_wishes.specs.declared.fault.WishFault.TheVariants.{NoMemory};

use crate::fault::{WishFault, fault_at};
use crate::wish::{Wish, is_same, subject_of};
use metis_ids::InstNo;
use metis_tokens::bytes::{is, place_of};
use metis_tokens::{Flaw, Lined, number_in, pair_in, pieces_of, read_own, tokens_of, type_in};
use metis_universe::Universe;
use std::alloc::Global;
use std::marker::Model;

/// The most bytes of a text of wishes.
pub const WISHES_LIMIT: u64 = 65_536;

/// The wishes that the bytes say, in the order of their lines, or their first fault.
pub fn read_wishes(alloc: Global, u: &Universe, bytes: &[u8]) -> Result<Vec<Wish>, WishFault>
    requires { length bytes.now ≤ 65536 }
    ensures read { ReadsAs NoMemory (λ wishes. wishes.items) result (wishes_in u.now bytes.now) }
    ensures few { IfOk result (λ wishes. length wishes.items ≤ 65536) }
{
    let pieces = pieces_of(alloc, bytes)?;
    let mut wishes = Wishes {
        listed: Vec::new(alloc),
    };
    read_own(alloc, u, "metis wishes 1", &pieces, &mut wishes)?;
    Ok(wishes.listed)
}

/// The wishes of the lines that were read.
#[derive(Drop)]
struct Wishes {
    listed: Vec<Wish>,
}

impl Model for Wishes {
    ghost use Rattle.std.specs.Prelude.{List};
    ghost use Rattle.metis_wishes.specs.declared.wish.Wish.{Wish};

    ghost Value = { List Wish };

    ghost view = { λ w. w.listed.items };
}

impl Lined for Wishes {
    ghost use Rattle.metis_wishes.specs.Terms.{is_last, more_wishes};
    ghost use Rattle.metis_wishes.specs.declared.fault.WishFault.TheVariants.{Line, NoMemory, Short};

    type Fault = WishFault;

    ghost ends = { is_last };

    ghost taken = { more_wishes };

    ghost of_line = { Line };

    ghost short = { Short };

    ghost memory = { NoMemory };

    fn ends_with(&self, line: &[u8]) -> bool {
        is(line, "end")
    }

    fn take(
        &mut self,
        alloc: Global,
        u: &Universe,
        number: u32,
        line: &[u8],
    ) -> Result<(), WishFault> {
        let wish = next_wish(alloc, u, number, &self.listed, line)?;
        self.listed.push(wish)?;
        Ok(())
    }

    fn line_fault(number: u32) -> WishFault {
        WishFault::Line(number)
    }

    fn short_fault() -> WishFault {
        WishFault::Short
    }
}

// The wish of the line of this number, behind these wishes.
fn next_wish(
    alloc: Global,
    u: &Universe,
    number: u32,
    wishes: &[Wish],
    line: &[u8],
) -> Result<Wish, WishFault>
    ensures { ReadsAs NoMemory (λ wish. wish) result (with_wish u.now number wishes.now line.now) }
{
    let tokens = tokens_of(alloc, line)?;
    match wish_in(u, &tokens) {
        Ok(wish) if is_about(wishes, wish) => Err(WishFault::Twice(number)),
        Ok(wish) => Ok(wish),
        Err(flaw) => Err(fault_at(number, flaw)),
    }
}

// Whether one of the wishes is about the same as this one.
fn is_about(wishes: &[Wish], wish: Wish) -> bool
    ensures { result ≡ is_about wishes.now wish }
{
    let subject = subject_of(wish);
    wishes
        .iter()
        .any(|earlier| is_same(subject_of(*earlier), subject))
}

// The wish that the tokens of a line are.
fn wish_in(u: &Universe, tokens: &[&[u8]]) -> Result<Wish, Flaw>
    ensures { result ≡ wish_in u.now (map (λ t. t.now) tokens.now) }
{
    if tokens.len() == 2 {
        wish_of(u, tokens[0], tokens[1])
    } else {
        Err(Flaw::Form)
    }
}

fn wish_of(u: &Universe, word: &[u8], subject: &[u8]) -> Result<Wish, Flaw>
    ensures { result ≡ wish_of u.now word.now subject.now }
{
    if is(word, "keep") {
        kept_in(subject)
    } else if is(word, "rebind") {
        Ok(Wish::Rebind(instance_in(subject)?))
    } else if is(word, "retire") {
        Ok(Wish::Retire(instance_in(subject)?))
    } else if is(word, "avoid") {
        avoided_in(u, subject)
    } else {
        Err(Flaw::Form)
    }
}

// All, or an instance.
fn kept_in(subject: &[u8]) -> Result<Wish, Flaw>
    ensures { result ≡ kept_in subject.now }
{
    if is(subject, "all") {
        return Ok(Wish::KeepAll);
    }
    Ok(Wish::Keep(instance_in(subject)?))
}

fn instance_in(subject: &[u8]) -> Result<InstNo, Flaw>
    ensures { result ≡ instance_in subject.now }
{
    Ok(InstNo(number_in(subject)?))
}

// A pair, or a type.
fn avoided_in(u: &Universe, subject: &[u8]) -> Result<Wish, Flaw>
    ensures { result ≡ avoided_in u.now subject.now }
{
    if place_of(subject, b':').is_some() {
        return Ok(Wish::AvoidPair(pair_in(u, subject)?));
    }
    Ok(Wish::AvoidType(type_in(u, subject)?))
}
