//! In which pairs the providers of each port of each requirer are.
ghost use Rattle.std.specs.Prelude.{◌≡◌, ◌<◌, ◌+◌, ◌==◌, ◌&&◌, ℕ, Bool, IfOk, IsTrue, OnErr, OnOk, if◌then◌else◌};
ghost use Rattle.metis_universe.specs.Terms.{provides};
ghost use Rattle.metis_config.specs.Terms.{has_client, weight_at};

use crate::supply::Supply;
use metis_ids::{InstNo, NoMemory, PairIx, PortIx};
use metis_universe::Universe;
use std::alloc::Global;
use std::collections::{BTreeMap, BTreeSet};

/// For each requirer and port the pairs in which its providers are.
#[derive(Drop)]
pub struct Crowds {
    pub(crate) map: BTreeMap<(InstNo, PortIx), Supply>,
    alloc: Global,
}

impl Crowds {
    /// No provider.
    pub fn new(alloc: Global) -> Crowds
        ensures { (w r : ℕ) (f : ℕ → Bool) → weight_at result.map w r f ≡ 0 }
    {
        Crowds {
            map: BTreeMap::new(alloc),
            alloc,
        }
    }

    /// A copy.
    pub fn copy(&self) -> Result<Crowds, NoMemory>
        ensures { IfOk result (λ crowds. (w r : ℕ) (f : ℕ → Bool) → weight_at crowds.map w r f ≡ weight_at self.now.map w r f) }
    {
        Ok(Crowds {
            map: self.map.clone()?,
            alloc: self.alloc,
        })
    }

    /// One more provider of the requirer's port is in the pair. Where memory runs out, nothing changes.
    pub fn enter(&mut self, w: InstNo, r: PortIx, pair: PairIx) -> Result<(), NoMemory>
        ensures ok { OnOk result ((v s : ℕ) (f : ℕ → Bool) → weight_at self.new.map v s f ≡ weight_at self.old.map v s f + (if (v == w) && (s == r) && f pair then 1 else 0)) }
        ensures err { OnErr result ((v s : ℕ) (f : ℕ → Bool) → weight_at self.new.map v s f ≡ weight_at self.old.map v s f) }
    {
        let alloc = self.alloc;
        if let Some(supply) = self.map.get_mut(&(w, r)) {
            return supply.enter(alloc, pair);
        }
        self.map.insert((w, r), Supply::One(pair))?;
        Ok(())
    }

    /// One fewer is.
    pub fn leave(&mut self, w: InstNo, r: PortIx, pair: PairIx)
        requires { 0 < weight_at self.old.map w r (λ q. q == pair) }
        ensures { (v s : ℕ) (f : ℕ → Bool) → weight_at self.new.map v s f + (if (v == w) && (s == r) && f pair then 1 else 0) ≡ weight_at self.old.map v s f }
    {
        let is_last = match self.map.get_mut(&(w, r)) {
            Some(supply) => supply.leave(pair),
            None => false,
        };
        if is_last {
            self.map.remove(&(w, r));
        }
    }

    /// One goes from one pair to another.
    pub fn shift(&mut self, w: InstNo, r: PortIx, from: PairIx, to: PairIx)
        requires { 0 < weight_at self.old.map w r (λ q. q == from) }
        ensures { (v s : ℕ) (f : ℕ → Bool) → weight_at self.new.map v s f + (if (v == w) && (s == r) && f from then 1 else 0) ≡ weight_at self.old.map v s f + (if (v == w) && (s == r) && f to then 1 else 0) }
    {
        if let Some(supply) = self.map.get_mut(&(w, r)) {
            supply.shift(from, to);
        }
    }

    /// All ports that requirers take from the instance go with it from one pair to another.
    pub fn shift_all(
        &mut self,
        clients: &BTreeSet<(InstNo, InstNo, PortIx)>,
        z: InstNo,
        from: PairIx,
        to: PairIx,
    )
        requires { (w r : ℕ) → IsTrue (has_client clients.now.keys z w r) → 0 < weight_at self.old.map w r (λ q. q == from) }
        ensures { (w r : ℕ) (f : ℕ → Bool) → weight_at self.new.map w r f + (if has_client clients.now.keys z w r && f from then 1 else 0) ≡ weight_at self.old.map w r f + (if has_client clients.now.keys z w r && f to then 1 else 0) }
    {
        for client in clients.range((z, InstNo(0), PortIx(0))..) {
            if client.0 != z {
                return;
            }
            self.shift(client.1, client.2, from, to);
        }
    }

    /// How many providers of the requirer's port give it.
    pub fn giving(&self, u: &Universe, w: InstNo, r: PortIx) -> usize
        ensures { result ≡ weight_at self.now.map w r (λ q. provides u.now q r) }
    {
        match self.map.get(&(w, r)) {
            Some(supply) => supply.giving(u, r),
            None => 0,
        }
    }
}
