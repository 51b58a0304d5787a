//! Which ports of a configuration are met, now or after a change: each needs as many different providers as its requirer's pair
//! demands.
ghost use Rattle.std.specs.Prelude.{◌≡◌, ◌<◌, ℕ, ◌&&◌, not, if◌then◌else◌, nat_lt, false, Some, None, IsFalse, IsTrue};
ghost use Rattle.std.specs.List.{find};
ghost use Rattle.std.specs.Option.{option_map_or};
ghost use Rattle.metis_universe.specs.Terms.{Correct, IsConfig, demand_of, is_bound, is_met, pair_count, pair_of, provides, required_of};
ghost use Rattle.metis_config.specs.Terms.{IsIndexed, IsLeast, IsOver, demanded, earlier_of, is_lost, is_met_if, is_required, own_unmet, providers_in, unmet, unmet_port};

use crate::config::Config;
use metis_ids::{InstNo, PairIx, PortIx};
use metis_universe::Universe;
use std::collections::{BTreeMap, BTreeSet};

/// An instance with its pair, if it is there, and the pair that it is taken to be in, or gone.
#[derive(Drop)]
pub(crate) struct Change {
    pub(crate) inst: InstNo,
    pub(crate) from: Option<PairIx>,
    pub(crate) to: Option<PairIx>,
}

/// Whether the pair provides the port, if there is one.
fn gives(u: &Universe, pair: Option<PairIx>, r: PortIx) -> bool
    requires { (q : ℕ) → pair ≡ Some q → q < pair_count u.now }
    ensures { result ≡ option_map_or (λ q. provides u.now q r) pair false }
{
    match pair {
        Some(q) => u.provides(q, r),
        None => false,
    }
}

/// Whether the pair may provide a port, if there is one.
fn gives_some(u: &Universe, pair: Option<PairIx>) -> bool
    requires { (q : ℕ) → pair ≡ Some q → q < pair_count u.now }
    ensures { IsFalse result → (r : ℕ) → IsFalse (option_map_or (λ q. provides u.now q r) pair false) }
{
    match pair {
        Some(q) => !u.provided(q).is_empty(),
        None => false,
    }
}

/// How many providers of the port the pair demands, if there is one, and 0 where there is none.
fn demanded_by(u: &Universe, pair: Option<PairIx>, r: PortIx) -> u32
    requires { (q : ℕ) → pair ≡ Some q → q < pair_count u.now }
    ensures { result ≡ option_map_or (λ q. demand_of u.now q r) pair 0 }
{
    match pair {
        Some(q) => u.demand(q, r),
        None => 0,
    }
}

impl Config {
    // How many providers of the port the pair of the instance demands, and 0 where it is not there.
    fn demanded(&self, u: &Universe, z: InstNo, r: PortIx) -> u32
        requires { IsOver u.now self.now }
        ensures { result ≡ demanded u.now self.now z r }
    {
        demanded_by(u, self.pair_of(z), r)
    }

    // How many providers of the requirer's port give it.
    fn giving(&self, u: &Universe, w: InstNo, r: PortIx) -> usize
        ensures { result ≡ providers_in self.now w r (λ q. provides u.now q r) }
    {
        self.crowds.giving(u, w, r)
    }

    // Whether the requirer's port has n providers or more.
    fn is_met(&self, u: &Universe, w: InstNo, r: PortIx, n: u32) -> bool
        ensures { result ≡ is_met u.now self.now w r n }
    {
        n as usize <= self.giving(u, w, r)
    }

    // Whether the port r of w, which is bound to the instance that changes, is required and would not be met. All ports are met
    // now, so it looks further only where the instance gives the port now and would no longer.
    fn loses(&self, u: &Universe, change: &Change, w: InstNo, r: PortIx) -> bool
        requires over { IsOver u.now self.now }
        requires correct { Correct u.now self.now }
        requires from { change.now.from ≡ pair_of self.now change.now.inst }
        requires to { (q : ℕ) → change.now.to ≡ Some q → q < pair_count u.now }
        requires bound { IsTrue (is_bound self.now r w change.now.inst) }
        ensures { result ≡ (is_required u.now self.now w r && not (is_met_if u.now self.now change.now.inst change.now.to w r (demanded u.now self.now w r))) }
    {
        self.keeps_invariant();
        if !gives(u, change.from, r) || gives(u, change.to, r) {
            return false;
        }
        let wanted = self.demanded(u, w, r) as usize;
        0 < wanted && self.giving(u, w, r) <= wanted
    }

    /// Whether the requirer's port would not be met without the binding, where all ports are met now. It looks further only
    /// where the provider gives the port.
    pub(crate) fn loses_tie(&self, u: &Universe, r: PortIx, z: InstNo, y: InstNo) -> bool
        requires over { IsOver u.now self.now }
        requires correct { Correct u.now self.now }
        ensures { result ≡ (is_required u.now self.now z r && not (is_met_if u.now self.now y None z r (demanded u.now self.now z r))) }
    {
        self.keeps_invariant();
        if !gives(u, self.pair_of(y), r) {
            return false;
        }
        let wanted = self.demanded(u, z, r) as usize;
        0 < wanted && self.giving(u, z, r) < wanted + self.tied(r, z, y)
    }

    // 1 where the binding is there, else 0.
    fn tied(&self, r: PortIx, z: InstNo, y: InstNo) -> usize
        ensures { result ≡ (if is_bound self.now r z y then 1 else 0) }
    {
        usize::from(self.bound(r, z, y))
    }

    /// The least of those bound to the instance that would not be met. The bindings are given by their providers.
    pub(crate) fn first_lost(
        &self,
        u: &Universe,
        clients: &BTreeSet<(InstNo, InstNo, PortIx)>,
        change: &Change,
    ) -> Option<(InstNo, PortIx)>
        requires over { IsOver u.now self.now }
        requires from { change.now.from ≡ pair_of self.now change.now.inst }
        requires to { (q : ℕ) → change.now.to ≡ Some q → q < pair_count u.now }
        requires correct { Correct u.now self.now }
        requires indexed { IsIndexed self.now clients.now.keys }
        ensures { IsLeast (is_lost u.now self.now change.now.inst change.now.to) result }
    {
        if !gives_some(u, change.from) {
            return None;
        }
        for client in clients.range((change.inst, InstNo(0), PortIx(0))..) {
            if client.0 != change.inst {
                return None;
            }
            if self.loses(u, change, client.1, client.2) {
                return Some((client.1, client.2));
            }
        }
        None
    }

    // The first port of the instance that its pair requires and that has fewer providers than the pair demands.
    fn unmet_of(&self, u: &Universe, z: InstNo, p: PairIx) -> Option<PortIx>
        requires { p < pair_count u.now }
        ensures { result ≡ unmet_port u.now self.now z p }
    {
        for (place, r) in u.requires_(p).iter().enumerate() {
            if !self.is_met(u, z, *r, u.demand_at(p, place)) {
                return Some(*r);
            }
        }
        None
    }

    /// The first instance and its first port that are required and not met. The instances are given.
    pub(crate) fn first_unmet(
        &self,
        u: &Universe,
        instances: &BTreeMap<InstNo, PairIx>,
    ) -> Option<(InstNo, PortIx)>
        requires over { IsOver u.now self.now }
        requires instances { instances.now.entries ≡ self.now.instances }
        ensures { result ≡ unmet u.now self.now }
    {
        for (z, p) in instances.iter() {
            if let Some(r) = self.unmet_of(u, *z, *p) {
                return Some((*z, r));
            }
        }
        None
    }

    /// The first of the instance's own ports that would not be met, where all ports are met now. So it looks only at those of
    /// which the other pair demands more providers.
    pub(crate) fn unmet_own(&self, u: &Universe, change: &Change) -> Option<PortIx>
        requires over { IsOver u.now self.now }
        requires correct { Correct u.now self.now }
        requires config { IsConfig self.now }
        requires from { change.now.from ≡ pair_of self.now change.now.inst }
        requires to { (q : ℕ) → change.now.to ≡ Some q → q < pair_count u.now }
        ensures { result ≡ own_unmet u.now self.now change.now.inst change.now.to }
    {
        let q = change.to?;
        self.new_unmet(u, change, q)
    }

    // The first port of the instance of which the pair q demands more providers than its own pair does now, and that has fewer. No
    // instance is bound to itself, so they are the same where it changes.
    fn new_unmet(&self, u: &Universe, change: &Change, q: PairIx) -> Option<PortIx>
        requires over { IsOver u.now self.now }
        requires from { change.now.from ≡ pair_of self.now change.now.inst }
        requires pair { q < pair_count u.now }
        ensures { result ≡ find (λ r. nat_lt (demanded u.now self.now change.now.inst r) (demand_of u.now q r) && not (is_met u.now self.now change.now.inst r (demand_of u.now q r))) (required_of u.now q) }
    {
        for (place, r) in u.requires_(q).iter().enumerate() {
            let wanted = u.demand_at(q, place);
            let demanded = demanded_by(u, change.from, *r);
            if demanded < wanted && !self.is_met(u, change.inst, *r, wanted) {
                return Some(*r);
            }
        }
        None
    }
}

/// Of a port of z's own and an instance with its port, the one that comes first.
pub fn earlier_of(
    z: InstNo,
    own: Option<PortIx>,
    lost: Option<(InstNo, PortIx)>,
) -> Option<(InstNo, PortIx)>
    ensures { result ≡ earlier_of z own lost }
{
    match (own, lost) {
        (None, lost) => lost,
        (Some(r), None) => Some((z, r)),
        (Some(r), Some((w, s))) => { if w < z { Some((w, s)) } else { Some((z, r)) } }
    }
}
