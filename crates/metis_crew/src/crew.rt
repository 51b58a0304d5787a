//! A crew with one actor for each instance.
ghost use Rattle.std.specs.Prelude.{◌≡◌, ◌<◌, ◌≤◌, ◌-◌, ◌^◌, ◌==◌, IfOk, IsSome, Some, length, not};
ghost use Rattle.std.specs.List.{find};
ghost use Rattle.std.specs.Map.{lookup};
ghost use Rattle.metis_universe.specs.Terms.{waits};
ghost use Rattle.metis_waits.specs.Terms.{AreWaits};
ghost use Rattle.metis_crew.specs.Terms.{UnlessDid, at_start, count_of, counts_after, done_count, is_done, next_of, one_more, own_numbers, progress, start, turn};

use crate::own_numbers::own_of;
use crate::row::Row;
use crate::turn::Turn;
use metis_ids::{Action, InstNo, NoMemory};
use metis_waits::Waits;
use std::alloc::Global;
use std::collections::BTreeMap;
use std::marker::Model;

/// Who may act next. Contracts see the actions and how many of each actor's are done.
#[derive(Drop)]
pub struct Crew<'a> {
    actions: &'a [Action],
    waits: &'a Waits,
    /// The numbers of each actor's actions.
    own: BTreeMap<InstNo, Row>,
    /// How many of each actor's actions are done.
    counts: BTreeMap<InstNo, u32>,
    /// Whether each action is done.
    flags: Vec<bool>,
    /// How many actions are done.
    done: u32,
}

impl<'a> Model for Crew<'a> {
    ghost use Rattle.metis_crew.specs.Crew.{CrewState};
    ghost use Rattle.metis_crew.specs.Tables.{AreTables};

    ghost Value = { CrewState };

    ghost view = { λ c. record { actions = c.actions.now; counts = c.counts.entries } };

    ghost invariant = { λ c. AreTables c.actions.now c.waits.now c.own.entries c.counts.entries c.flags.items c.done };
}

impl<'a> Crew<'a> {
    /// A crew of which no action is done. Once it is made, it takes no memory.
    pub fn new(alloc: Global, actions: &'a [Action], w: &'a Waits) -> Result<Crew<'a>, NoMemory>
        requires { AreWaits actions.now w.now }
        ensures { IfOk result (λ crew. crew ≡ at_start actions.now) }
    {
        // For the proof alone: the lists of the waits are fewer than 2^32.
        let _count = w.count();
        Ok(Crew {
            actions,
            waits: w,
            own: own_of(alloc, actions)?,
            counts: none_done(alloc, actions)?,
            flags: vec![in alloc; false; actions.len()]?,
            done: 0,
        })
    }

    /// The instance's turn: it does its next action where all that this one waits for is done. Nothing else changes the crew.
    pub fn step(&mut self, z: InstNo) -> Turn
        ensures answer { result ≡ turn self.old.actions self.old.counts z }
        ensures actions { self.new.actions ≡ self.old.actions }
        ensures counts { self.new.counts ≡ counts_after self.old.counts z result }
        ensures only_did { UnlessDid result (self.new ≡ self.old) }
    {
        if self.own(z).is_empty() {
            return Turn::Nobody;
        }
        let Some(k) = self.next(z) else {
            return Turn::Done;
        };
        if let Some(m) = self.first_wait(k) {
            return Turn::WaitsFor(k, m);
        }
        self.act(z, k);
        Turn::Did(k)
    }

    /// How many of the instance's actions are done, where some action is its own.
    pub fn progress(&self, z: InstNo) -> Option<u32>
        ensures { result ≡ progress self.now.actions self.now.counts z }
    {
        if self.own(z).is_empty() {
            return None;
        }
        Some(self.count(z))
    }

    /// How many actions are done.
    pub fn done_count(&self) -> u32
        ensures { result ≡ done_count self.now.actions self.now.counts }
    {
        self.done
    }

    // The instance does its next action.
    fn act(&mut self, z: InstNo, k: u32)
        requires { next_of self.old.actions self.old.counts z ≡ Some k }
        ensures actions { self.new.actions ≡ self.old.actions }
        ensures counts { self.new.counts ≡ one_more self.old.counts z }
    {
        count_up(&mut self.counts, z);
        self.flags[k as usize - 1] = true;
        self.done += 1;
    }

    // The numbers of the instance's actions.
    fn own(&self, z: InstNo) -> &[u32]
        ensures { result.now ≡ own_numbers self.now.actions z }
    {
        match self.own.get(&z) {
            Some(row) => row.as_slice(),
            None => &[],
        }
    }

    // How many of the instance's actions are done.
    fn count(&self, z: InstNo) -> u32
        ensures { result ≡ count_of self.now.counts z }
    {
        self.counts.get(&z).copied().unwrap_or(0)
    }

    // The instance's next action.
    fn next(&self, z: InstNo) -> Option<u32>
        ensures { result ≡ next_of self.now.actions self.now.counts z }
    {
        self.own(z).get(self.count(z) as usize).copied()
    }

    // Whether the action is done.
    fn is_done(&self, k: u32) -> bool
        requires first { 1 ≤ k }
        requires last { k ≤ length self.now.actions }
        ensures { result ≡ is_done self.now.actions self.now.counts k }
    {
        self.flags[k as usize - 1]
    }

    // The least number that the action waits for and that is not done.
    fn first_wait(&self, k: u32) -> Option<u32>
        requires first { 1 ≤ k }
        requires last { k ≤ length self.now.actions }
        ensures { result ≡ find (λ m. not (is_done self.now.actions self.now.counts m)) (waits self.now.actions k) }
    {
        for m in self.waits.of(k) {
            if !self.is_done(*m) {
                return Some(*m);
            }
        }
        None
    }
}

// Each actor with none of its actions done.
fn none_done(alloc: Global, actions: &[Action]) -> Result<BTreeMap<InstNo, u32>, NoMemory>
    ensures { IfOk result (λ counts. counts.entries ≡ start actions.now) }
{
    let mut counts = BTreeMap::new(alloc);
    for action in actions {
        counts.insert(action.actor(), 0)?;
    }
    Ok(counts)
}

// One more action of the instance is done.
fn count_up(counts: &mut BTreeMap<InstNo, u32>, z: InstNo)
    requires known { IsSome (lookup (λ y. z == y) counts.old.entries) }
    requires room { count_of counts.old.entries z < 2 ^ 32 - 1 }
    ensures { counts.new.entries ≡ one_more counts.old.entries z }
{
    if let Some(count) = counts.get_mut(&z) {
        *count += 1;
    }
}
