//! What orders actions and notes their acknowledgements.
ghost use Rattle.std.specs.Prelude.{◌≡◌, ◌<◌, ◌≤◌, ◌^◌, ◌++◌, ◌∷◌, [], Bool, IfOk, IsFalse, OnErr, if◌then◌else◌, length, nat_lt, not, take};
ghost use Rattle.std.specs.List.{find};
ghost use Rattle.metis_universe.specs.Terms.{has};
ghost use Rattle.metis_waits.specs.Terms.{AreWaits, list_of};
ghost use Rattle.metis_control.specs.Terms.{leave};

use crate::acknowledged::Acknowledged;
use crate::happening::Leave;
use metis_ids::{Action, NoMemory};
use metis_waits::Waits;
use std::alloc::Global;
use std::marker::Model;

/// The controller. Contracts see the waits of each action and the acknowledgements.
#[derive(Drop)]
pub struct Controller<'a> {
    waits: &'a Waits,
    acked: Acknowledged,
}

impl<'a> Model for Controller<'a> {
    ghost use Rattle.std.specs.Prelude.{◌≡◌, length};
    ghost use Rattle.metis_control.specs.Controller.{ControllerState};

    ghost Value = { ControllerState };

    ghost view = { λ c. record { each = c.waits.now.each; acked = c.acked.numbers } };

    ghost invariant = { λ c. c.acked.size ≡ length c.waits.now.each };
}

impl<'a> Controller<'a> {
    /// Nothing is acknowledged.
    pub fn new(alloc: Global, actions: &[Action], w: &'a Waits) -> Result<Controller<'a>, NoMemory>
        requires { AreWaits actions.now w.now }
        ensures { IfOk result (λ c. c ≡ record { each = w.now.each; acked = [] }) }
    {
        Ok(Controller {
            waits: w,
            acked: Acknowledged::none(alloc, w.count())?,
        })
    }

    /// Whether the action may be ordered.
    pub fn leave(&self, k: u32) -> Leave
        ensures { result ≡ leave self.now.each self.now.acked k }
    {
        if k == 0 || k as usize > self.waits.count() {
            return Leave::NoAction;
        }
        if self.acked.has(k) {
            return Leave::Acked;
        }
        match first_missing(&self.acked, self.waits.of(k)) {
            Some(m) => Leave::Held(m),
            None => Leave::Send,
        }
    }

    /// Notes that the action was done. Whether this is new.
    pub fn note(&mut self, k: u32) -> Result<bool, NoMemory>
        requires first { 1 ≤ k }
        requires last { k ≤ length self.old.each }
        ensures each { self.new.each ≡ self.old.each }
        ensures answer { IfOk result (λ fresh. fresh ≡ not (has self.old.acked k)) }
        ensures noted { IfOk result (λ fresh. self.new.acked ≡ (if fresh then self.old.acked ++ k ∷ [] else self.old.acked)) }
        ensures err { OnErr result (self.new.acked ≡ self.old.acked) }
        ensures cause { OnErr result (IsFalse (has self.old.acked k)) }
    {
        if self.acked.has(k) {
            return Ok(false);
        }
        self.acked.add(k)?;
        Ok(true)
    }

    /// Keeps the first n acknowledgements, where there are as many.
    pub fn restart(&mut self, n: u32) -> bool
        ensures each { self.new.each ≡ self.old.each }
        ensures answer { result ≡ not (nat_lt (length self.old.acked) n) }
        ensures acked { self.new.acked ≡ (if result then take n self.old.acked else self.old.acked) }
    {
        if n as usize > self.acked.len() {
            return false;
        }
        self.acked.keep(n as usize);
        true
    }

    /// The acknowledgements, in their order.
    pub fn acknowledged(&self) -> &[u32]
        ensures { result.now ≡ self.now.acked }
    {
        self.acked.as_slice()
    }
}

// The first number of the row that is not acknowledged.
fn first_missing(acked: &Acknowledged, row: &[u32]) -> Option<u32>
    ensures { result ≡ find (λ m. not (has acked.now.numbers m)) row.now }
{
    for m in row {
        if !acked.has(*m) {
            return Some(*m);
        }
    }
    None
}
