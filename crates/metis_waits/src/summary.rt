//! What the actions so far come to.
ghost use Rattle.std.specs.Prelude.{◌≡◌, ◌<◌, ◌≤◌, ℕ, ◌-◌, ◌^◌, ◌==◌, ◌++◌, ◌∷◌, [], false, IfOk, IsFalse, IsTrue, OnOk, length, not, if◌then◌else◌, ◌||◌};
ghost use Rattle.std.specs.List.{filter};
ghost use Rattle.std.specs.List.Sorted.{IsStrictlySortedBy};
ghost use Rattle.std.specs.Option.{option_map_or};
ghost use Rattle.std.specs.Ordering.{nat_cmp};
ghost use Rattle.metis_ids.specs.Terms.{actor_of};
ghost use Rattle.metis_universe.specs.Terms.{IsOf, has, is_steadfast_after, is_wait, last_number, numbers, pair_after, provides};
ghost use Rattle.metis_waits.specs.Terms.{IsSummary, changed, has_number, is_by, is_last, let_go, state_at, with_number, without_own};
ghost use Rattle.metis_waits.specs.declared.instances.Change.TheVariants.{Deleted};

use crate::instances::{Change, Instance, note_change, take_own, track_of};
use metis_ids::{Action, InstNo, Ix, NoMemory, PortIx};
use metis_universe::Universe;
use std::alloc::Global;
use std::collections::HashMap;

/// What the actions so far come to. Their numbers count from 1.
#[derive(Drop)]
pub struct Summary {
    /// What is known of each instance, by its number.
    instances: HashMap<u32, Instance>,
}

impl Summary {
    /// The summary of no action.
    pub fn new(alloc: Global, u: &Universe) -> Summary
        ensures { IsSummary u.now [] result }
    {
        Summary {
            instances: HashMap::new(alloc),
        }
    }

    /// Whether the action is steadfast after these.
    pub fn is_steadfast(&self, u: &Universe, earlier: &[Action], action: &Action) -> bool
        requires { IsSummary u.now earlier.now self.now }
        ensures { result ≡ is_steadfast_after u.now earlier.now action.now }
    {
        match *action {
            Action::New { inst, .. } => !track_of(&self.instances, inst).made,
            Action::Bind { port, to, .. } => self.gives(u, earlier, to, port),
            Action::Unbind { .. } => true,
            Action::Delete { inst } => track_of(&self.instances, inst).clients == 0,
            Action::Move { inst, .. } => track_of(&self.instances, inst).clients == 0,
        }
    }

    // Whether the pair in which the instance is provides the port.
    fn gives(&self, u: &Universe, earlier: &[Action], y: InstNo, r: PortIx) -> bool
        requires { IsSummary u.now earlier.now self.now }
        ensures { result ≡ option_map_or (λ q. provides u.now q r) (pair_after u.now earlier.now y) false }
    {
        match track_of(&self.instances, y).pair {
            Some(pair) => u.provides(pair, r),
            None => false,
        }
    }

    /// Takes the action in.
    pub fn add(
        &mut self,
        alloc: Global,
        u: &Universe,
        earlier: &[Action],
        action: &Action,
    ) -> Result<(), NoMemory>
        requires few { length earlier.now < 2 ^ 32 - 1 }
        requires number { IsOf u.now action.now }
        requires steadfast { IsTrue (is_steadfast_after u.now earlier.now action.now) }
        requires summary { IsSummary u.now earlier.now self.old }
        ensures { OnOk result (IsSummary u.now (earlier.now ++ action.now ∷ []) self.new) }
    {
        let number = earlier.len() as u32 + 1;
        let instances = &mut self.instances;
        match *action {
            Action::New { inst, kind } => {
                note_change(
                    alloc,
                    instances,
                    inst,
                    number,
                    Change::Made(u.initial(kind)),
                )?;
            }
            Action::Move { inst, to, .. } => {
                note_change(alloc, instances, inst, number, Change::Moved(to))?;
            }
            Action::Bind { port, inst, to } => {
                if note_change(alloc, instances, inst, number, Change::Bound(port, to))? {
                    note_change(alloc, instances, to, number, Change::Gained)?;
                }
            }
            Action::Unbind { port, inst, to } => {
                if note_change(alloc, instances, inst, number, Change::Unbound(port, to))? {
                    note_change(alloc, instances, to, number, Change::Released)?;
                }
            }
            Action::Delete { inst } => delete(alloc, instances, inst, number)?,
        }
        Ok(())
    }

    /// The last action of the instance that does the action; and the list becomes the numbers that the action waits for, ascending.
    pub fn note_waits(
        &self,
        list: &mut Vec<u32>,
        u: &Universe,
        earlier: &[Action],
        action: &Action,
    ) -> Result<u32, NoMemory>
        requires few { length earlier.now < 2 ^ 32 - 1 }
        requires summary { IsSummary u.now earlier.now self.now }
        ensures previous { IfOk result (λ n. n ≡ last_number (is_by (actor_of action.now)) earlier.now) }
        ensures waits { OnOk result (list.new.items ≡ filter (is_wait earlier.now action.now) (numbers earlier.now)) }
    {
        let last = track_of(&self.instances, action.actor()).last;
        match *action {
            Action::Bind { to, .. } => {
                put_both(list, last, track_of(&self.instances, to).entered)?;
            }
            Action::Delete { inst } => self.put_releases(list, inst, last)?,
            Action::Move { inst, .. } => self.put_releases(list, inst, last)?,
            Action::New { .. } => put_both(list, last, 0)?,
            Action::Unbind { .. } => put_both(list, last, 0)?,
        }
        Ok(last)
    }

    // The list becomes the number, and those that ended a binding to the instance since it came into its pair.
    fn put_releases(&self, list: &mut Vec<u32>, y: InstNo, number: u32) -> Result<(), NoMemory>
        ensures { OnOk result (list.new.items ≡ with_number number (state_at self.now.instances.entries y).releases) }
    {
        match self.instances.get(&y.number()) {
            Some(instance) => put_with(list, instance.releases(), number),
            None => put_with(list, &[], number),
        }
    }
}

// The instance goes, and with it its bindings.
fn delete(
    alloc: Global,
    instances: &mut HashMap<u32, Instance>,
    z: InstNo,
    number: u32,
) -> Result<(), NoMemory>
    requires counted { (y : ℕ) → length (filter (λ k. k.1 == y) (state_at instances.old.entries z).own) ≤ (state_at instances.old.entries y).track.clients }
    requires new { (y : ℕ) → IsFalse (is_last number (state_at instances.old.entries y).releases) }
    ensures { OnOk result ((y : ℕ) → state_at instances.new.entries y ≡ (if z == y then changed number Deleted (let_go number (state_at instances.old.entries z).own y (without_own (state_at instances.old.entries y))) else let_go number (state_at instances.old.entries z).own y (state_at instances.old.entries y))) }
{
    let own = take_own(alloc, instances, z);
    for (_, provider) in &own {
        note_change(alloc, instances, *provider, number, Change::Released)?;
    }
    note_change(alloc, instances, z, number, Change::Deleted)?;
    Ok(())
}

// The list becomes the numbers, which ascend, with one more at its place, once. A number 0 is none.
fn put_with(list: &mut Vec<u32>, numbers: &[u32], number: u32) -> Result<(), NoMemory>
    ensures { OnOk result (list.new.items ≡ with_number number numbers.now) }
{
    list.clear();
    let mut left = number;
    for each in numbers {
        if left != 0 && left <= *each {
            if left < *each {
                list.push(left)?;
            }
            left = 0;
        }
        list.push(*each)?;
    }
    push_number(list, left)
}

// The list becomes those of the two numbers that are not 0, ascending and once.
fn put_both(list: &mut Vec<u32>, a: u32, b: u32) -> Result<(), NoMemory>
    ensures sorted { OnOk result (IsStrictlySortedBy nat_cmp list.new.items) }
    ensures members { OnOk result ((m : ℕ) → has list.new.items m ≡ (has_number b m || has_number a m)) }
{
    list.clear();
    if a < b {
        return push_two(list, a, b);
    }
    if b < a {
        return push_two(list, b, a);
    }
    push_number(list, a)?;
    Ok(())
}

// Puts those of the two numbers that are not 0 into the empty list.
fn push_two(list: &mut Vec<u32>, low: u32, high: u32) -> Result<(), NoMemory>
    requires ordered { low < high }
    requires none { list.old.items ≡ [] }
    ensures sorted { OnOk result (IsStrictlySortedBy nat_cmp list.new.items) }
    ensures members { OnOk result ((m : ℕ) → has list.new.items m ≡ (has_number high m || has_number low m)) }
{
    push_number(list, low)?;
    push_number(list, high)?;
    Ok(())
}

// Adds the number at the end where it is not 0.
fn push_number(list: &mut Vec<u32>, number: u32) -> Result<(), NoMemory>
    ensures { OnOk result (list.new.items ≡ list.old.items ++ filter (λ m. not (m == 0)) (number ∷ [])) }
{
    if number != 0 {
        list.push(number)?;
    }
    Ok(())
}
