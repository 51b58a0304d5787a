//! In which pairs some instances are.
ghost use Rattle.std.specs.Prelude.{◌≡◌, ◌<◌, ◌+◌, ◌==◌, ◌↔◌, ℕ, Bool, [], IsTrue, OnOk, position, length, vec_capacity, ◌^◌, ◌≤◌, ◌++◌, ◌∷◌, if◌then◌else◌};
ghost use Rattle.std.specs.List.{All, slice_index_or};
ghost use Rattle.metis_universe.specs.Terms.{provides};
ghost use Rattle.metis_config.specs.Terms.{total_of, weight};

use metis_ids::{NoMemory, PairIx, PortIx};
use metis_universe::Universe;
use std::alloc::{AllocError, Global};
use std::marker::Model;

/// In which pairs some instances are: each pair with how many. It keeps room for as many pairs as there are instances, so that
/// one of them goes from one pair to another without memory.
#[derive(Drop)]
pub struct Crowd {
    shares: Vec<(PairIx, usize)>,
    total: usize,
}

impl Model for Crowd {
    ghost use Rattle.std.specs.Prelude.{vec_capacity};
    ghost use Rattle.metis_config.specs.Crowd as model;

    ghost Value = { model.Crowd };

    ghost view = { λ a. record { shares = a.shares.items; room = vec_capacity a.shares } };

    ghost invariant = { λ a. model.IsCrowd a.shares.items a.total (vec_capacity a.shares) };
}

impl Clone for Crowd {
    ghost use Rattle.std.specs.Prelude.{◌≡◌};

    ghost is_clone = { λ a b. b.shares ≡ a.shares };

    fn clone(&self) -> Result<Self, AllocError> {
        let mut shares = self.shares.clone()?;
        shares.reserve(self.total - shares.len())?;
        Ok(Crowd {
            shares,
            total: self.total,
        })
    }
}

impl Crowd {
    /// No instance.
    pub fn new(alloc: Global) -> Crowd
        ensures { result.shares ≡ [] }
    {
        Crowd {
            shares: Vec::new(alloc),
            total: 0,
        }
    }

    /// Makes room for one more.
    pub fn make_room(&mut self) -> Result<(), NoMemory>
        ensures shares { self.new.shares ≡ self.old.shares }
        ensures ok { OnOk result (total_of self.new.shares < self.new.room) }
    {
        let Some(wanted) = self.total.checked_add(1) else {
            return Err(NoMemory);
        };
        self.shares.reserve(wanted - self.shares.len())?;
        Ok(())
    }

    /// One more is in the pair.
    pub fn enter(&mut self, pair: PairIx)
        requires { total_of self.old.shares < self.old.room }
        ensures { (f : ℕ → Bool) → weight f self.new.shares ≡ weight f self.old.shares + (if f pair then 1 else 0) }
    {
        // For the proof alone: the shares stand within their room.
        let _room = self.shares.capacity();
        match place_of(&self.shares, pair) {
            Some(place) => add_one(&mut self.shares, place),
            None => push_within(&mut self.shares, (pair, 1)),
        }
        self.total += 1;
    }

    /// One fewer is in the pair.
    pub fn leave(&mut self, pair: PairIx)
        requires { 0 < weight (λ q. q == pair) self.old.shares }
        ensures weight { (f : ℕ → Bool) → weight f self.new.shares + (if f pair then 1 else 0) ≡ weight f self.old.shares }
        ensures room { total_of self.new.shares < self.new.room }
    {
        match place_of(&self.shares, pair) {
            Some(place) => take_one(&mut self.shares, place),
            None => unreachable!(),
        }
        self.total -= 1;
    }

    /// Whether there is none.
    pub fn is_empty(&self) -> bool
        ensures { IsTrue result ↔ (total_of self.now.shares ≡ 0) }
    {
        self.total == 0
    }

    /// How many are in a pair that provides the port.
    pub fn giving(&self, u: &Universe, r: PortIx) -> usize
        ensures { result ≡ weight (λ q. provides u.now q r) self.now.shares }
    {
        // For the proof alone: the shares stand within their room.
        let _room = self.shares.capacity();
        giving_among(&self.shares, u, r)
    }
}

// The place of the pair.
fn place_of(shares: &[(PairIx, usize)], pair: PairIx) -> Option<usize>
    ensures { result ≡ position (λ s. s.0 == pair) shares.now }
{
    shares.iter().position(|share| share.0 == pair)
}

// One more at the place.
fn add_one(shares: &mut Vec<(PairIx, usize)>, place: usize)
    requires within { place < length shares.old.items }
    requires few { total_of shares.old.items < vec_capacity shares.old }
    requires some { All (λ s. 0 < s.1) shares.old.items }
    ensures weight { (f : ℕ → Bool) → weight f shares.new.items ≡ weight f shares.old.items + (if f (slice_index_or shares.old.items place (0, 0)).0 then 1 else 0) }
    ensures some { All (λ s. 0 < s.1) shares.new.items }
    ensures room { vec_capacity shares.new ≡ vec_capacity shares.old }
{
    // For the proof alone: the shares stand within their room.
    let _room = shares.capacity();
    let share = &mut shares[place];
    share.1 += 1;
}

// One more share, for which there is room.
fn push_within(shares: &mut Vec<(PairIx, usize)>, share: (PairIx, usize))
    requires few { length shares.old.items < vec_capacity shares.old }
    ensures items { shares.new.items ≡ shares.old.items ++ share ∷ [] }
    ensures room { vec_capacity shares.old ≤ vec_capacity shares.new }
{
    match shares.push(share) {
        Ok(_) => (),
        Err(_) => unreachable!(),
    }
}

// One fewer at the place, and no share where none is left.
fn take_one(shares: &mut Vec<(PairIx, usize)>, place: usize)
    requires within { place < length shares.old.items }
    requires some { All (λ s. 0 < s.1) shares.old.items }
    ensures weight { (f : ℕ → Bool) → weight f shares.new.items + (if f (slice_index_or shares.old.items place (0, 0)).0 then 1 else 0) ≡ weight f shares.old.items }
    ensures some { All (λ s. 0 < s.1) shares.new.items }
    ensures room { vec_capacity shares.new ≡ vec_capacity shares.old }
{
    if shares[place].1 == 1 {
        shares.swap_remove(place);
    } else {
        let share = &mut shares[place];
        share.1 -= 1;
    }
}

// How many are in a pair that provides the port.
fn giving_among(shares: &[(PairIx, usize)], u: &Universe, r: PortIx) -> usize
    requires { total_of shares.now < 2 ^ 64 }
    ensures { result ≡ weight (λ q. provides u.now q r) shares.now }
{
    let mut giving = 0;
    for share in shares {
        giving += counted(u, *share, r);
    }
    giving
}

/// The share's count where its pair provides the port, else 0.
pub fn counted(u: &Universe, share: (PairIx, usize), r: PortIx) -> usize
    ensures { result ≡ (if provides u.now share.0 r then share.1 else 0) }
{
    let (pair, count) = share;
    if pair.0 < u.pairs() && u.provides(pair, r) {
        count
    } else {
        0
    }
}
