//! The first host with room, for each New.
ghost use Rattle.std.specs.Map.{lookup};
ghost use Rattle.std.specs.Prelude.{◌==◌, ◌≡◌, ◌≤◌, ◌<◌, ◌-◌, ◌+◌, ◌^◌, IfOk, OnOk, IsTrue, length, map};
ghost use Rattle.metis_universe.specs.Terms.{IsRun, empty, is_steadfast, type_count};
ghost use Rattle.metis_place.specs.Terms.{IfNoRoom, IsNoRoom, IsSettled, is_placed, seats};

use crate::fault::PFault;
use crate::hosts::Hosts;
use crate::rooms::Rooms;
use metis_ids::{Action, InstNo};
use metis_universe::Universe;
use std::alloc::Global;
use std::collections::BTreeMap;

/// What is kept of the actions so far.
#[derive(Drop)]
pub struct Settled {
    /// The free room of each host.
    free: Rooms,
    /// The size and the host of each instance that was made.
    pub at: BTreeMap<InstNo, (u32, u32)>,
    /// The host of each instance, in the order in which they were made.
    pub hosts: Vec<u32>,
}

/// The size and the host of the instance, if it was made.
pub fn place_in(at: &BTreeMap<InstNo, (u32, u32)>, z: InstNo) -> Option<(u32, u32)>
    ensures { result ≡ lookup (λ k. z == k) at.now.entries }
{
    at.get(&z).copied()
}

// Takes one more action in.
fn settle(
    s: &mut Settled,
    u: &Universe,
    actions: &[Action],
    h: &Hosts,
    index: usize,
) -> Result<(), PFault>
    requires run { IsRun u.now empty actions.now }
    requires steadfast { IsTrue (is_steadfast u.now actions.now) }
    requires few { length actions.now < 2 ^ 32 - 1 }
    requires hosts { length h.now.hosts < 2 ^ 32 }
    requires sizes { type_count u.now ≤ length h.now.sizes }
    requires within { index < length actions.now }
    requires settled { IsSettled h.now actions.now index s.old }
    ensures settled { OnOk result (IsSettled h.now actions.now (index + 1) s.new) }
    ensures no_room { IfNoRoom result (IsNoRoom h.now actions.now) }
{
    match actions[index] {
        Action::New { inst, kind } => {
            let size = h.size(kind);
            match s.free.first(size) {
                Some(host) => {
                    let room = s.free.room(host);
                    s.free.set(host, room - u64::from(size));
                    s.at.insert(inst, (size, host))?;
                    s.hosts.push(host)?;
                    Ok(())
                }
                None => Err(PFault::NoRoom(index as u32 + 1, size, s.free.most())),
            }
        }
        Action::Delete { inst } => {
            if let Some((size, host)) = place_in(&s.at, inst) {
                let room = s.free.room(host);
                s.free.set(host, room + u64::from(size));
            }
            Ok(())
        }
        _ => Ok(()),
    }
}

/// What is kept when all actions are taken in.
pub fn seat(alloc: Global, u: &Universe, actions: &[Action], h: &Hosts) -> Result<Settled, PFault>
    requires run { IsRun u.now empty actions.now }
    requires steadfast { IsTrue (is_steadfast u.now actions.now) }
    requires few { length actions.now < 2 ^ 32 - 1 }
    requires hosts { length h.now.hosts < 2 ^ 32 }
    requires sizes { type_count u.now ≤ length h.now.sizes }
    ensures settled { IfOk result (IsSettled h.now actions.now (length actions.now)) }
    ensures no_room { IfNoRoom result (IsNoRoom h.now actions.now) }
{
    let mut free = Vec::new(alloc);
    for place in 0..h.count() {
        free.push(u64::from(h.room(place)))?;
    }
    let mut settled = Settled {
        free: Rooms::of(alloc, &free)?,
        at: BTreeMap::new(alloc),
        hosts: Vec::new(alloc),
    };
    for index in 0..actions.len() {
        settle(&mut settled, u, actions, h, index)?;
    }
    Ok(settled)
}
