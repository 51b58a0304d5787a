//! Instances on hosts, and what each action waits for besides.
ghost use Rattle.std.specs.Prelude.{◌≡◌, ◌≤◌, ◌<◌, ◌-◌, ◌^◌, IfOk, IsTrue, List, ℕ, length};
ghost use Rattle.std.specs.List.{All};
ghost use Rattle.metis_universe.specs.Terms.{IsKept, IsRun, empty, is_steadfast, picked, type_count};
ghost use Rattle.metis_place.specs.Terms.{IfNoRoom, IsHeld, IsNoRoom, IsPlacing, hold_of, load, room_of, seats};

use crate::fault::PFault;
use crate::holds::{Hold, holds};
use crate::hosts::Hosts;
use crate::seats::seat;
use metis_ids::Action;
use metis_universe::Universe;
use std::alloc::Global;
use std::marker::Model;

/// On which host each instance is, and which further waits each action has. Contracts see two lists.
#[derive(Drop)]
pub struct Placing {
    /// The place of the host of each New, in order.
    pub hosts: Vec<u32>,
    /// The further waits of each action.
    pub holds: Vec<Hold>,
}

impl Model for Placing {
    ghost use Rattle.metis_place.specs.Placement.{PlacingLists};

    ghost Value = { PlacingLists };

    ghost view = { λ p. record { hosts = p.hosts.items; holds = p.holds.items } };
}

impl Placing {
    /// The further waits of action k, ascending.
    pub fn hold(&self, k: u32) -> &[u32]
        requires first { 1 ≤ k }
        requires last { k ≤ length self.now.holds }
        ensures { result.now ≡ hold_of self.now.holds k }
    {
        &self.holds[k as usize - 1].numbers
    }
}

/// Puts the instance of each New on the first host with room, and finds the further waits; or the first New for which no host has room.
pub fn place(alloc: Global, u: &Universe, actions: &[Action], h: &Hosts) -> Result<Placing, PFault>
    requires run { IsRun u.now empty actions.now }
    requires steadfast { IsTrue (is_steadfast u.now actions.now) }
    requires few { length actions.now < 2 ^ 32 - 1 }
    requires hosts { length h.now.hosts < 2 ^ 32 }
    requires sizes { type_count u.now ≤ length h.now.sizes }
    ensures placing { IfOk result (IsPlacing h.now actions.now) }
    ensures within { IfOk result (λ p. All (λ i. i < length h.now.hosts) p.hosts) }
    ensures roomy { IfOk result (λ p. (ks : List ℕ) (i : ℕ) → IsKept actions.now ks → IsHeld (hold_of p.holds) ks → load (seats h.now actions.now) (picked actions.now ks) i ≤ room_of h.now i) }
    ensures no_room { IfNoRoom result (IsNoRoom h.now actions.now) }
{
    let settled = seat(alloc, u, actions, h)?;
    let holds = holds(alloc, u, actions, h, &settled.at)?;
    Ok(Placing {
        hosts: settled.hosts,
        holds,
    })
}
