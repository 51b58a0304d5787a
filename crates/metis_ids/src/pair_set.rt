//! Sets of pairs.
ghost use Rattle.std.specs.Prelude.{◌≡◌, ◌+◌, ◌^◌, ◌<◌, ◌≤◌, ◌==◌, [], false, length, not, IfOk};
ghost use Rattle.std.specs.List.{All, list_any};
ghost use Rattle.std.specs.List.Sorted.{IsStrictlyIncreasing};
ghost use Rattle.std.specs.Iterator.{YieldsFirst, item_count};
ghost use Rattle.std.specs.Ordering.{nat_cmp};
ghost use Rattle.std.specs.BTreeSet.{insert_key};

use crate::{NoMemory, PairIx};
use std::alloc::Global;
use std::marker::Model;

/// A set of pairs below its size. Contracts see it as its size and the ascending list of its members.
#[derive(Drop)]
pub struct PairSet {
    flags: Vec<bool>,
    count: u32,
}

impl Model for PairSet {
    ghost use Rattle.std.specs.Prelude.{◌≡◌, ◌^◌, ◌<◌, length};
    ghost use Rattle.metis_ids.specs.PairSet.{PairSet, members_of};

    ghost Value = { PairSet };

    ghost view = { λ s. record { size = length s.flags.items; members = members_of s.flags.items } };

    ghost invariant = { λ s. (length s.flags.items < 2 ^ 32) × (s.count ≡ length (members_of s.flags.items)) };
}

impl PairSet {
    /// The empty set of pairs below `n`. No other call takes memory.
    pub fn with_pairs(alloc: Global, n: u32) -> Result<PairSet, NoMemory>
        ensures size { IfOk result (λ s. s.size ≡ n) }
        ensures members { IfOk result (λ s. s.members ≡ []) }
    {
        let flags = vec![in alloc; false; n as usize]?;
        Ok(PairSet { flags, count: 0 })
    }

    /// What every set keeps. A call does nothing when it runs: a proof that needs the fact makes it.
    pub fn keeps_invariant(&self)
        ensures ascending { IsStrictlyIncreasing self.now.members }
        ensures below { All (λ p. p < self.now.size) self.now.members }
    {
        // For the proof alone: to name a field is to open the invariant.
        let _flags = &self.flags;
    }

    /// The number that all members are below.
    pub fn size(&self) -> u32
        ensures size { result ≡ self.now.size }
        ensures limit { self.now.size < 2 ^ 32 }
    {
        self.flags.len() as u32
    }

    /// Puts a pair in, and answers whether it was not there before.
    pub fn add(&mut self, p: PairIx) -> bool
        requires { p < self.old.size }
        ensures fresh { result ≡ not (list_any (λ q. q == p) self.old.members) }
        ensures size { self.new.size ≡ self.old.size }
        ensures members { self.new.members ≡ insert_key nat_cmp self.old.members p }
    {
        let at = p.0 as usize;
        if self.flags[at] {
            return false;
        }
        self.flags[at] = true;
        self.count += 1;
        true
    }

    /// Whether the pair is a member; past the size none is.
    pub fn has(&self, p: PairIx) -> bool
        ensures member { result ≡ list_any (λ q. q == p) self.now.members }
        ensures past { self.now.size ≤ p → result ≡ false }
    {
        let at = p.0 as usize;
        at < self.flags.len() && self.flags[at]
    }

    /// How many members there are.
    pub fn count(&self) -> u32
        ensures count { result ≡ length self.now.members }
        ensures within { result ≤ self.now.size }
    {
        self.count
    }

    /// The members, ascending.
    pub fn iter(&self) -> Members<'_>
        ensures members { result ≡ self.now.members }
        ensures ascending { IsStrictlyIncreasing self.now.members }
        ensures below { All (λ p. p < self.now.size) self.now.members }
    {
        Members {
            flags: &self.flags,
            next: 0,
        }
    }
}

/// The members of a set that are still to come, ascending. Contracts see them as their list.
#[derive(Drop)]
pub struct Members<'a> {
    flags: &'a [bool],
    next: u32,
}

impl<'a> Model for Members<'a> {
    ghost use Rattle.std.specs.Prelude.{List, ℕ, ◌^◌, ◌<◌, length, drop};
    ghost use Rattle.metis_ids.specs.PairSet.{members_from};

    ghost Value = { List ℕ };

    ghost view = { λ m. members_from m.next (drop m.next m.flags.now) };

    ghost invariant = { λ m. length m.flags.now < 2 ^ 32 };
}

impl Iterator for Members<'_> {
    type Item = PairIx;

    ghost next_gives = { YieldsFirst (λ m. m) };

    ghost remaining = { item_count (λ m. m) };

    fn next(&mut self) -> Option<PairIx> {
        while (self.next as usize) < self.flags.len() {
            let here = self.next;
            self.next += 1;
            if self.flags[here as usize] {
                return Some(PairIx(here));
            }
        }
        None
    }
}
