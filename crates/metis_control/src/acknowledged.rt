//! The acknowledgements that a controller has.
ghost use Rattle.std.specs.Prelude.{◌≡◌, ◌<◌, ◌≤◌, ◌++◌, ◌∷◌, [], ℕ, ◌-◌, ◌&&◌, IsFalse, IsTrue, IfOk, OnErr, OnOk, false, length, not, slice_set, take, true};
ghost use Rattle.metis_universe.specs.Terms.{has};
ghost use Rattle.metis_control.specs.Terms.{flag_at};

use metis_ids::NoMemory;
use std::alloc::Global;
use std::marker::Model;

/// Numbers of actions in their order, each of them once, with a flag for each action.
/// Contracts see how many actions there are, and the numbers.
#[derive(Drop)]
pub struct Acknowledged {
    numbers: Vec<u32>,
    flags: Vec<bool>,
}

impl Model for Acknowledged {
    ghost use Rattle.std.specs.Prelude.{length};
    ghost use Rattle.metis_control.specs.Acknowledged.{AcknowledgedState, AreFlagged};

    ghost Value = { AcknowledgedState };

    ghost view = { λ a. record { size = length a.flags.items; numbers = a.numbers.items } };

    ghost invariant = { λ a. AreFlagged a.numbers.items a.flags.items };
}

impl Acknowledged {
    /// None of as many actions.
    pub fn none(alloc: Global, size: usize) -> Result<Acknowledged, NoMemory>
        ensures { IfOk result (λ a. a ≡ record { size = size; numbers = [] }) }
    {
        Ok(Acknowledged {
            numbers: Vec::new(alloc),
            flags: vec![in alloc; false; size]?,
        })
    }

    /// Whether the action is among them.
    pub fn has(&self, k: u32) -> bool
        ensures { result ≡ has self.now.numbers k }
    {
        flag(&self.flags, k)
    }

    /// Adds the action at the end. Where there is no memory left, nothing changes.
    pub fn add(&mut self, k: u32) -> Result<(), NoMemory>
        requires first { 1 ≤ k }
        requires last { k ≤ self.old.size }
        requires new { IsFalse (has self.old.numbers k) }
        ensures size { self.new.size ≡ self.old.size }
        ensures ok { OnOk result (self.new.numbers ≡ self.old.numbers ++ k ∷ []) }
        ensures err { OnErr result (self.new.numbers ≡ self.old.numbers) }
    {
        self.numbers.push(k)?;
        set_flag(&mut self.flags, k, true);
        Ok(())
    }

    /// Keeps the first n, and forgets the others.
    pub fn keep(&mut self, n: usize)
        requires { n ≤ length self.old.numbers }
        ensures size { self.new.size ≡ self.old.size }
        ensures numbers { self.new.numbers ≡ take n self.old.numbers }
    {
        clear_flags(&mut self.flags, &self.numbers[n..]);
        self.numbers.truncate(n);
    }

    /// How many there are.
    pub fn len(&self) -> usize
        ensures { result ≡ length self.now.numbers }
    {
        self.numbers.len()
    }

    /// The actions.
    pub fn as_slice(&self) -> &[u32]
        ensures { result.now ≡ self.now.numbers }
    {
        self.numbers.as_slice()
    }
}

// The flag of action k; none where there is no such action.
fn flag(flags: &[bool], k: u32) -> bool
    ensures { result ≡ flag_at flags.now k }
{
    if k == 0 || k as usize > flags.len() {
        return false;
    }
    flags[k as usize - 1]
}

// Sets the flag of action k.
fn set_flag(flags: &mut [bool], k: u32, value: bool)
    requires first { 1 ≤ k }
    requires last { k ≤ length flags.old }
    ensures { flags.new ≡ slice_set flags.old (k - 1) value }
{
    flags[k as usize - 1] = value;
}

// Clears the flags of these actions.
fn clear_flags(flags: &mut [bool], numbers: &[u32])
    requires first { (k : ℕ) → IsTrue (has numbers.now k) → 1 ≤ k }
    requires last { (k : ℕ) → IsTrue (has numbers.now k) → k ≤ length flags.old }
    ensures flags { (k : ℕ) → flag_at flags.new k ≡ (flag_at flags.old k && not (has numbers.now k)) }
    ensures length { length flags.new ≡ length flags.old }
{
    for k in numbers {
        set_flag(flags, *k, false);
    }
}
