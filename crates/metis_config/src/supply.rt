//! In which pairs the providers of a port are.
ghost use Rattle.std.specs.Prelude.{◌≡◌, ◌<◌, ◌+◌, ◌==◌, ℕ, Bool, IfOk, IsFalse, IsTrue, OnErr, OnOk, if◌then◌else◌};
ghost use Rattle.metis_universe.specs.Terms.{provides};
ghost use Rattle.metis_config.specs.Terms.{shares_of, weight};

use crate::crowd::{Crowd, counted};
use metis_ids::{NoMemory, PairIx, PortIx};
use metis_universe::Universe;
use std::alloc::{AllocError, Global};

/// In which pairs the providers of a port are. One alone, as nearly every port has, takes no memory of its own.
#[derive(Drop)]
pub enum Supply {
    /// One provider, in this pair.
    One(PairIx),
    /// More, or as many as are left of them.
    Many(Crowd),
}

impl Clone for Supply {
    ghost use Rattle.std.specs.Prelude.{◌≡◌};
    ghost use Rattle.metis_config.specs.Supply.{shares_of};

    ghost is_clone = { λ a b. shares_of b ≡ shares_of a };

    fn clone(&self) -> Result<Self, AllocError> {
        Ok(match self {
            Supply::One(pair) => Supply::One(*pair),
            Supply::Many(crowd) => Supply::Many(crowd.clone()?),
        })
    }
}

impl Supply {
    /// One more is in the pair. Where memory runs out, nothing changes.
    pub fn enter(&mut self, alloc: Global, pair: PairIx) -> Result<(), NoMemory>
        ensures ok { OnOk result ((f : ℕ → Bool) → weight f (shares_of self.new) ≡ weight f (shares_of self.old) + (if f pair then 1 else 0)) }
        ensures err { OnErr result (shares_of self.new ≡ shares_of self.old) }
    {
        match self {
            Supply::One(first) => {
                let both = two(alloc, *first, pair)?;
                *self = Supply::Many(both);
                Ok(())
            }
            Supply::Many(crowd) => enter_with_room(crowd, pair),
        }
    }

    /// One fewer is in the pair. Tells whether it was the last, and then it may still be here.
    pub fn leave(&mut self, pair: PairIx) -> bool
        requires { 0 < weight (λ q. q == pair) (shares_of self.old) }
        ensures last { IsTrue result → (f : ℕ → Bool) → weight f (shares_of self.old) ≡ (if f pair then 1 else 0) }
        ensures weight { IsFalse result → (f : ℕ → Bool) → weight f (shares_of self.new) + (if f pair then 1 else 0) ≡ weight f (shares_of self.old) }
    {
        match self {
            Supply::One(_) => true,
            Supply::Many(crowd) => {
                crowd.leave(pair);
                crowd.is_empty()
            }
        }
    }

    /// One goes from one pair to another.
    pub fn shift(&mut self, from: PairIx, to: PairIx)
        requires { 0 < weight (λ q. q == from) (shares_of self.old) }
        ensures { (f : ℕ → Bool) → weight f (shares_of self.new) + (if f from then 1 else 0) ≡ weight f (shares_of self.old) + (if f to then 1 else 0) }
    {
        match self {
            Supply::One(pair) => *pair = to,
            Supply::Many(crowd) => {
                crowd.leave(from);
                crowd.enter(to);
            }
        }
    }

    /// How many are in a pair that provides the port.
    pub fn giving(&self, u: &Universe, r: PortIx) -> usize
        ensures { result ≡ weight (λ q. provides u.now q r) (shares_of self.now) }
    {
        match self {
            Supply::One(pair) => counted(u, (*pair, 1), r),
            Supply::Many(crowd) => crowd.giving(u, r),
        }
    }
}

// One in each of these pairs, where memory lasts.
fn two(alloc: Global, first: PairIx, second: PairIx) -> Result<Crowd, NoMemory>
    ensures { IfOk result (λ crowd. (f : ℕ → Bool) → weight f crowd.shares ≡ (if f first then 1 else 0) + (if f second then 1 else 0)) }
{
    let mut crowd = Crowd::new(alloc);
    enter_with_room(&mut crowd, first)?;
    enter_with_room(&mut crowd, second)?;
    Ok(crowd)
}

// One more is in the pair, where memory lasts.
fn enter_with_room(crowd: &mut Crowd, pair: PairIx) -> Result<(), NoMemory>
    ensures ok { OnOk result ((f : ℕ → Bool) → weight f crowd.new.shares ≡ weight f crowd.old.shares + (if f pair then 1 else 0)) }
    ensures err { OnErr result (crowd.new.shares ≡ crowd.old.shares) }
{
    crowd.make_room()?;
    crowd.enter(pair);
    Ok(())
}
