//! The waits of all actions of a list.
ghost use Rattle.std.specs.Prelude.{◌≡◌, ◌<◌, ◌≤◌, ◌^◌, List, length};
ghost use Rattle.metis_ids.specs.declared.actions.Action.{Action};
ghost use Rattle.metis_universe.specs.Terms.{waits};
ghost use Rattle.metis_waits.specs.Terms.{AreWaits, IsNumbered, list_of, waits_on_others};

use crate::rows::Rows;
use std::marker::Model;

/// For each action of a list the numbers of those that it waits for.
#[derive(Drop)]
pub struct Waits {
    each: Rows,
    others: Rows,
}

impl Model for Waits {
    ghost use Rattle.metis_waits.specs.Waits.{IsNumbered, WaitLists};

    ghost Value = { WaitLists };

    ghost view = { λ w. record { each = w.each; others = w.others } };

    ghost invariant = { λ w. IsNumbered w.each w.others };
}

impl Waits {
    /// As many lists of others as there are lists, and few enough to be numbered.
    pub(crate) fn new(each: Rows, others: Rows) -> Waits
        requires { IsNumbered each others }
        ensures { result ≡ record { each = each; others = others } }
    {
        Waits { each, others }
    }

    /// How many actions there are.
    pub fn count(&self) -> usize
        ensures count { result ≡ length self.now.each }
        ensures few { length self.now.each < 2 ^ 32 }
    {
        self.each.len()
    }

    /// The numbers that action k waits for, ascending.
    pub fn of(&self, k: u32) -> &[u32]
        requires first { 1 ≤ k }
        requires last { k ≤ length self.now.each }
        ensures list { result.now ≡ list_of self.now.each k }
        ensures waits { (actions : List Action) → AreWaits actions self.now → result.now ≡ waits actions k }
    {
        self.each.row(k as usize - 1)
    }

    /// The numbers that action k waits for, ascending, without the previous action of its own instance.
    pub fn after(&self, k: u32) -> &[u32]
        requires first { 1 ≤ k }
        requires last { k ≤ length self.now.each }
        ensures list { result.now ≡ list_of self.now.others k }
        ensures waits { (actions : List Action) → AreWaits actions self.now → result.now ≡ waits_on_others actions k }
    {
        self.others.row(k as usize - 1)
    }
}
