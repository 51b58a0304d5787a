//! A configuration, its reads and its edits.
ghost use Rattle.std.specs.Prelude.{◌≡◌, ◌≢◌, ◌<◌, ◌↔◌, ◌==◌, ℕ, Some, IsTrue, IsFalse, IsSome, IsNone, IfOk, MatchOption, OnOk, OnErr, length, nat_lt, None, []};
ghost use Rattle.std.specs.List.{list_all, list_any};
ghost use Rattle.metis_universe.specs.Terms.{Correct, IsConfig, config_of, empty, holding, is_bound, pair_count, pair_of, put, remove, serving, tie, untie};
ghost use Rattle.metis_config.specs.Terms.{AreOver, IsLeast, IsOver, changed, is_unmet, unmet};

use crate::bindings::Bindings;
use crate::crowds::Crowds;
use crate::ends::{first_to, some_from};
use crate::lists::{Instances, Ties};
use crate::met::{Change, earlier_of};
use metis_ids::{Goal, InstNo, NoMemory, PairIx, PortIx};
use metis_universe::Universe;
use std::alloc::Global;
use std::collections::{BTreeMap, BTreeSet};
use std::marker::Model;

/// Instances in their pairs, and the bindings between them.
#[derive(Drop)]
pub struct Config {
    instances: BTreeMap<InstNo, PairIx>,
    /// The bindings, each as its port, its requirer and its provider. A tuple has the order of the model's bindings.
    bindings: BTreeSet<(PortIx, InstNo, InstNo)>,
    /// The bindings again, each as its provider, its requirer and its port.
    clients: BTreeSet<(InstNo, InstNo, PortIx)>,
    /// In which pairs the providers of each port of each requirer are.
    pub(crate) crowds: Crowds,
}

impl Model for Config {
    ghost use Rattle.metis_universe.specs.Config as model;

    ghost Value = { model.Config };

    ghost use Rattle.metis_config.specs.Kept.{AreKept};

    ghost view = { λ a. model.config_of a.instances.entries a.bindings.keys };

    ghost invariant = { λ a. AreKept (model.config_of a.instances.entries a.bindings.keys) a.clients.keys a.crowds.map };
}

impl Config {
    /// No instance and no binding.
    pub fn empty(alloc: Global) -> Config
        ensures { result ≡ empty }
    {
        Config {
            instances: BTreeMap::new(alloc),
            bindings: BTreeSet::new(alloc),
            clients: BTreeSet::new(alloc),
            crowds: Crowds::new(alloc),
        }
    }

    /// An equal configuration.
    pub fn copy(&self) -> Result<Config, NoMemory>
        ensures { IfOk result (λ c. c ≡ self.now) }
    {
        Ok(Config {
            instances: self.instances.clone()?,
            bindings: self.bindings.clone()?,
            clients: self.clients.clone()?,
            crowds: self.crowds.copy()?,
        })
    }

    /// A copy of the bindings alone.
    pub fn copy_bindings(&self) -> Result<Bindings, NoMemory>
        ensures same { IfOk result (λ kept. kept.ties ≡ self.now.bindings) }
        ensures over { IfOk result (AreOver self.now.instances) }
    {
        Ok(Bindings {
            ties: self.bindings.clone()?,
            clients: self.clients.clone()?,
            crowds: self.crowds.copy()?,
        })
    }

    /// Puts these bindings in the place of its own. It takes no memory.
    pub fn set_bindings(&mut self, kept: Bindings)
        requires { AreOver self.old.instances kept }
        ensures { self.new ≡ config_of self.old.instances kept.ties }
    {
        let Bindings {
            ties,
            clients,
            crowds,
        } = kept;
        self.bindings = ties;
        self.clients = clients;
        self.crowds = crowds;
    }

    /// The pair of an instance, if it is there.
    pub fn pair_of(&self, z: InstNo) -> Option<PairIx>
        ensures { result ≡ pair_of self.now z }
    {
        self.instances.get(&z).copied()
    }

    /// Whether the requirer's port is bound to the provider.
    pub fn bound(&self, r: PortIx, z: InstNo, y: InstNo) -> bool
        ensures { result ≡ is_bound self.now r z y }
    {
        self.bindings.contains(&(r, z, y))
    }

    /// The instances with their pairs, ascending.
    pub fn instances(&self) -> Instances<'_>
        ensures { result ≡ self.now.instances }
    {
        Instances {
            rest: self.instances.iter(),
        }
    }

    /// The bindings, by port, then requirer, then provider.
    pub fn bindings(&self) -> Ties<'_>
        ensures { result ≡ self.now.bindings }
    {
        Ties {
            rest: self.bindings.iter(),
        }
    }

    /// What every configuration keeps. A call does nothing when it runs: a proof that needs the fact makes it.
    pub fn keeps_invariant(&self)
        ensures { IsConfig self.now }
    {
        // For the proof alone: to name a field is to open the invariant.
        let _parts = &self.instances;
    }

    /// How many instances there are.
    pub fn count(&self) -> u64
        ensures { result ≡ length self.now.instances }
    {
        self.instances.len() as u64
    }

    /// How many bindings there are.
    pub fn bindings_count(&self) -> u64
        ensures { result ≡ length self.now.bindings }
    {
        self.bindings.len() as u64
    }

    /// How many instances are in the pair.
    pub fn holding(&self, p: PairIx) -> u64
        ensures { result ≡ holding self.now p }
    {
        self.instances.iter().filter(|(_, q)| **q == p).count() as u64
    }

    /// How many instances serve the goal: they are in that pair, or in pairs that provide that port.
    pub fn serving(&self, u: &Universe, goal: Goal) -> u64
        ensures { result ≡ serving u.now self.now goal }
    {
        self.instances
            .iter()
            .filter(|(_, p)| u.serves(**p, goal))
            .count() as u64
    }

    /// Whether each instance's pair and each binding's port is the universe's.
    pub fn is_over(&self, u: &Universe) -> bool
        ensures { IsTrue result ↔ IsOver u.now self.now }
    {
        // For the proof alone: to name a field is to open the invariant.
        let _parts = &self.clients;
        are_pairs_below(&self.instances, u.pairs()) && are_ports_below(&self.bindings, u.ports())
    }

    /// Whether each port that an instance's pair requires has as many different providers as the pair demands.
    pub fn is_correct(&self, u: &Universe) -> bool
        requires { IsOver u.now self.now }
        ensures { IsTrue result ↔ Correct u.now self.now }
    {
        self.keeps_invariant();
        u.keeps_invariant();
        self.unmet(u).is_none()
    }

    /// The first instance, and its first port, that is required and has too few providers; `None` where the configuration is
    /// correct.
    pub fn unmet(&self, u: &Universe) -> Option<(InstNo, PortIx)>
        requires { IsOver u.now self.now }
        ensures first { result ≡ unmet u.now self.now }
        ensures least { IsLeast (is_unmet u.now self.now) result }
        ensures correct { IsNone result ↔ Correct u.now self.now }
    {
        u.keeps_invariant();
        self.first_unmet(u, &self.instances)
    }

    /// What `unmet` would be if the instance, which is in the one pair, or not there, were in the other, or gone. It looks at the
    /// instance, and at those bound to it whose port it gives now and would no longer.
    pub fn unmet_from(
        &self,
        u: &Universe,
        z: InstNo,
        from: Option<PairIx>,
        to: Option<PairIx>,
    ) -> Option<(InstNo, PortIx)>
        requires over { IsOver u.now self.now }
        requires correct { Correct u.now self.now }
        requires from { from ≡ pair_of self.now z }
        requires to { (q : ℕ) → to ≡ Some q → q < pair_count u.now }
        ensures { result ≡ unmet u.now (changed self.now z to) }
    {
        u.keeps_invariant();
        self.keeps_invariant();
        let change = Change { inst: z, from, to };
        let own = self.unmet_own(u, &change);
        let lost = self.first_lost(u, &self.clients, &change);
        earlier_of(z, own, lost)
    }

    /// What `unmet` would be without the binding. It looks at its requirer's port.
    pub fn unmet_untied(
        &self,
        u: &Universe,
        r: PortIx,
        z: InstNo,
        y: InstNo,
    ) -> Option<(InstNo, PortIx)>
        requires over { IsOver u.now self.now }
        requires correct { Correct u.now self.now }
        ensures { result ≡ unmet u.now (untie self.now r z y) }
    {
        u.keeps_invariant();
        self.keeps_invariant();
        if self.loses_tie(u, r, z, y) {
            Some((z, r))
        } else {
            None
        }
    }

    /// Adds an instance. Where memory runs out, nothing changes.
    pub fn put(&mut self, z: InstNo, p: PairIx) -> Result<(), NoMemory>
        requires { pair_of self.old z ≡ None }
        ensures ok { OnOk result (self.new ≡ put self.old z p) }
        ensures err { OnErr result (self.new ≡ self.old) }
    {
        self.instances.insert(z, p)?;
        Ok(())
    }

    /// Puts an instance that is there into another pair.
    pub fn set_pair(&mut self, z: InstNo, p: PairIx)
        requires { IsSome (pair_of self.old z) }
        ensures { self.new ≡ put self.old z p }
    {
        // Only a new key takes memory.
        match self.instances.insert(z, p) {
            Ok(Some(from)) => self.crowds.shift_all(&self.clients, z, from, p),
            _ => unreachable!(),
        }
    }

    /// Adds a binding. Where memory runs out, nothing changes.
    pub fn tie(&mut self, r: PortIx, z: InstNo, y: InstNo) -> Result<(), NoMemory>
        requires apart { z ≢ y }
        requires requirer { IsSome (pair_of self.old z) }
        requires provider { IsSome (pair_of self.old y) }
        requires unbound { IsFalse (is_bound self.old r z y) }
        ensures ok { OnOk result (self.new ≡ tie self.old r z y) }
        ensures err { OnErr result (self.new ≡ self.old) }
    {
        let pair = self.pair_of(y).unwrap();
        self.tie_to(r, z, y, pair)
    }

    /// Binds as `tie` does, for a caller who knows which pair the provider is in.
    pub fn tie_to(&mut self, r: PortIx, z: InstNo, y: InstNo, pair: PairIx) -> Result<(), NoMemory>
        requires apart { z ≢ y }
        requires requirer { IsSome (pair_of self.old z) }
        requires provider { pair_of self.old y ≡ Some pair }
        requires unbound { IsFalse (is_bound self.old r z y) }
        ensures ok { OnOk result (self.new ≡ tie self.old r z y) }
        ensures err { OnErr result (self.new ≡ self.old) }
    {
        self.crowds.enter(z, r, pair)?;
        if self.clients.insert((y, z, r)).is_err() {
            self.crowds.leave(z, r, pair);
            return Err(NoMemory);
        }
        if self.bindings.insert((r, z, y)).is_err() {
            self.clients.remove(&(y, z, r));
            self.crowds.leave(z, r, pair);
            return Err(NoMemory);
        }
        Ok(())
    }

    /// Takes a binding away.
    pub fn untie(&mut self, r: PortIx, z: InstNo, y: InstNo)
        requires { IsTrue (is_bound self.old r z y) }
        ensures { self.new ≡ untie self.old r z y }
    {
        let pair = pair_in(&self.instances, y).unwrap();
        self.bindings.remove(&(r, z, y));
        self.clients.remove(&(y, z, r));
        self.crowds.leave(z, r, pair);
    }

    /// Takes an instance away, with each binding that names it. It looks at these bindings alone.
    pub fn remove(&mut self, z: InstNo)
        ensures { self.new ≡ remove self.old z }
    {
        'served: while let Some((r, w)) = self.served_by(z) {
            self.untie(r, w, z);
        }
        'needed: while let Some((r, y)) = self.needed_by(z) {
            self.untie(r, z, y);
        }
        self.instances.remove(&z);
    }

    /// Whether some binding has the instance as its provider.
    pub fn has_clients(&self, y: InstNo) -> bool
        ensures { result ≡ list_any (λ b. b.2 == y) self.now.bindings }
    {
        self.served_by(y).is_some()
    }

    /// A binding of the requirer, if it has one: its port and its provider. It looks at the requirer's own bindings alone.
    pub fn needed_by(&self, z: InstNo) -> Option<(PortIx, InstNo)>
        ensures { MatchOption result ((r y : ℕ) → IsFalse (is_bound self.now r z y)) (λ b. IsTrue (is_bound self.now b.0 z b.1)) }
    {
        some_from(&self.crowds.map, &self.bindings, z)
    }

    // A binding to the provider: its port and its requirer.
    fn served_by(&self, y: InstNo) -> Option<(PortIx, InstNo)>
        ensures { MatchOption result ((r z : ℕ) → IsFalse (is_bound self.now r z y)) (λ b. IsTrue (is_bound self.now b.0 b.1 y)) }
    {
        let (z, r) = first_to(&self.clients, y)?;
        Some((r, z))
    }
}

// The pair of the instance, if it is there.
fn pair_in(instances: &BTreeMap<InstNo, PairIx>, z: InstNo) -> Option<PairIx>
    ensures { result ≡ pair_of (config_of instances.now.entries []) z }
{
    instances.get(&z).copied()
}

// Whether each pair has a number below this.
fn are_pairs_below(instances: &BTreeMap<InstNo, PairIx>, count: u32) -> bool
    ensures { result ≡ list_all (λ e. nat_lt e.1 count) instances.now.entries }
{
    instances.iter().all(|(_, pair)| pair.0 < count)
}

// Whether each port has a number below this.
fn are_ports_below(bindings: &BTreeSet<(PortIx, InstNo, InstNo)>, count: u32) -> bool
    ensures { result ≡ list_all (λ b. nat_lt b.0 count) bindings.now.keys }
{
    bindings.iter().all(|tie| tie.0.0 < count)
}
