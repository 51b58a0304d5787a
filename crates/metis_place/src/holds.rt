//! The further waits of each action.
ghost use Rattle.std.specs.Prelude.{◌≡◌, ◌≤◌, ◌<◌, ◌+◌, ◌-◌, ◌*◌, ◌^◌, ◌++◌, ◌∷◌, [], IfOk, IsTrue, OnOk, length, map};
ghost use Rattle.metis_universe.specs.Terms.{IsRun, Universe, empty, is_steadfast, numbers};
ghost use Rattle.metis_place.specs.Terms.{AreAt, IsHolding, freed_sum, further, shortest_deletes};

use crate::further::further_waits;
use crate::hosts::Hosts;
use crate::seats::place_in;
use metis_ids::{Action, InstNo, NoMemory};
use metis_universe::Universe;
use std::alloc::Global;
use std::collections::BTreeMap;
use std::marker::Model;

/// The further waits of an action. Contracts see the list of numbers.
#[derive(Drop)]
pub struct Hold {
    /// The numbers, ascending.
    pub numbers: Vec<u32>,
}

impl Model for Hold {
    ghost use Rattle.std.specs.Prelude.{ℕ, List};

    ghost Value = { List ℕ };

    ghost view = { λ h. h.numbers.items };
}

// What was made on a host, and what was deleted there: the number of each delete with the size that it frees.
#[derive(Drop)]
struct Tally {
    made: u64,
    deletes: Vec<(u32, u32)>,
}

impl Model for Tally {
    ghost use Rattle.metis_place.specs.Holding.{HostTally};

    ghost Value = { HostTally };

    ghost view = { λ t. record { made = t.made; deletes = t.deletes.items } };
}

impl Tally {
    // An instance of this size is made.
    fn make(&mut self, size: u32)
        requires { self.old.made + size < 2 ^ 64 }
        ensures { self.new ≡ record { made = self.old.made + size; deletes = self.old.deletes } }
    {
        self.made += u64::from(size);
    }

    // The action of this number deletes an instance of this size.
    fn delete(&mut self, number: u32, size: u32) -> Result<(), NoMemory>
        ensures { OnOk result (self.new ≡ record { made = self.old.made; deletes = self.old.deletes ++ (number, size) ∷ [] }) }
    {
        self.deletes.push((number, size))?;
        Ok(())
    }
}

// What is kept of the actions so far: a tally for each host, and the further waits of each action.
#[derive(Drop)]
pub struct Holding {
    tallies: Vec<Tally>,
    pub holds: Vec<Hold>,
}

impl Model for Holding {
    ghost use Rattle.metis_place.specs.Holding.{HoldingLists};

    ghost Value = { HoldingLists };

    ghost view = { λ h. record { tallies = h.tallies.items; holds = h.holds.items } };
}

impl Holding {
    // A host has no tally yet.
    fn new(alloc: Global) -> Holding
        ensures tallies { result.tallies ≡ [] }
        ensures holds { result.holds ≡ [] }
    {
        Holding {
            tallies: Vec::new(alloc),
            holds: Vec::new(alloc),
        }
    }

    // An action without further waits.
    fn push_none(&mut self, alloc: Global) -> Result<(), NoMemory>
        ensures { OnOk result (self.new ≡ record { tallies = self.old.tallies; holds = self.old.holds ++ [] ∷ [] }) }
    {
        self.holds.push(Hold {
            numbers: Vec::new(alloc),
        })?;
        Ok(())
    }
}

// The further waits of a New that puts an instance of this size on the host.
fn hold_new(alloc: Global, tally: &mut Tally, room: u32, size: u32) -> Result<Vec<u32>, NoMemory>
    requires enough { tally.old.made + size ≤ room + freed_sum tally.old.deletes }
    requires little { tally.old.made ≤ 2 ^ 64 - 2 ^ 33 }
    ensures waits { IfOk result (λ js. js.items ≡ shortest_deletes room (tally.old.made + size) tally.old.deletes) }
    ensures small { size < 2 ^ 32 }
    ensures tally { OnOk result (tally.new ≡ record { made = tally.old.made + size; deletes = tally.old.deletes }) }
{
    tally.make(size);
    further_waits(alloc, room, tally.made, &tally.deletes)
}

// Takes one more action in. It is told where each instance was put.
fn take_in(
    alloc: Global,
    holding: &mut Holding,
    actions: &[Action],
    h: &Hosts,
    at: &BTreeMap<InstNo, (u32, u32)>,
    index: usize,
) -> Result<(), NoMemory>
    requires run { (u : Universe) × IsRun u empty actions.now × IsTrue (is_steadfast u actions.now) }
    requires few { length actions.now < 2 ^ 32 - 1 }
    requires within { index < length actions.now }
    requires at { AreAt h.now actions.now at.now.entries }
    requires holding { IsHolding h.now actions.now index holding.old }
    ensures { OnOk result (IsHolding h.now actions.now (index + 1) holding.new) }
{
    match actions[index] {
        Action::New { inst, .. } => match place_in(at, inst) {
            Some((size, host)) => {
                let room = h.room(host as usize);
                let numbers = hold_new(alloc, &mut holding.tallies[host as usize], room, size)?;
                holding.holds.push(Hold { numbers })?;
                Ok(())
            }
            None => {
                holding.push_none(alloc)?;
                Ok(())
            }
        },
        Action::Delete { inst } => {
            if let Some((size, host)) = place_in(at, inst) {
                holding.tallies[host as usize].delete(index as u32 + 1, size)?;
                holding.push_none(alloc)?;
                return Ok(());
            }
            holding.push_none(alloc)?;
            Ok(())
        }
        _ => {
            holding.push_none(alloc)?;
            Ok(())
        }
    }
}

/// The further waits of each action, which is told where each instance was put.
pub fn holds(
    alloc: Global,
    u: &Universe,
    actions: &[Action],
    h: &Hosts,
    at: &BTreeMap<InstNo, (u32, u32)>,
) -> Result<Vec<Hold>, NoMemory>
    requires run { IsRun u.now empty actions.now }
    requires steadfast { IsTrue (is_steadfast u.now actions.now) }
    requires few { length actions.now < 2 ^ 32 - 1 }
    requires at { AreAt h.now actions.now at.now.entries }
    ensures { IfOk result (λ holds. holds.items ≡ map (further h.now actions.now) (numbers actions.now)) }
{
    let mut holding = Holding::new(alloc);
    for _place in 0..h.count() {
        holding.tallies.push(Tally {
            made: 0,
            deletes: Vec::new(alloc),
        })?;
    }
    for index in 0..actions.len() {
        take_in(alloc, &mut holding, actions, h, at, index)?;
    }
    Ok(holding.holds)
}
