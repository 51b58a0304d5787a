//! The actions of a list, judged one after the other.
ghost use Rattle.std.specs.Prelude.{◌≡◌, ◌<◌, ◌-◌, ◌^◌, ◌==◌, ◌++◌, ◌∷◌, [], IfOk, IsTrue, List, OnOk, length, not};
ghost use Rattle.std.specs.List.{All, filter};
ghost use Rattle.metis_ids.specs.Terms.{actor_of};
ghost use Rattle.metis_ids.specs.declared.actions.Action.{Action};
ghost use Rattle.metis_universe.specs.Terms.{IsOf, Universe, is_steadfast, is_steadfast_after, is_wait, last_number, numbers};
ghost use Rattle.metis_waits.specs.Terms.{AreWaits, IfLoose, IsBegun, IsFirstLoose, IsJudged, IsSummary, is_by};

use crate::fault::WFault;
use crate::rows::Rows;
use crate::summary::Summary;
use crate::wait_lists::Waits;
use metis_ids::{Action, NoMemory};
use metis_universe::Universe;
use std::alloc::Global;

/// The actions that are judged so far, all of them steadfast: what they come to, and what each of them waits for.
#[derive(Drop)]
pub struct Judged {
    summary: Summary,
    lists: Lists,
}

impl Judged {
    /// No action is judged.
    pub fn new(alloc: Global, u: &Universe) -> Judged
        ensures { IsJudged u.now [] result }
    {
        Judged {
            summary: Summary::new(alloc, u),
            lists: Lists::new(alloc),
        }
    }

    /// Judges the further actions of the list, which begins with those that are judged; or says which is the first that is not
    /// steadfast. The actions are numbered from 1. Where there is a fault, nothing is left of what was judged.
    pub fn go_on(self, alloc: Global, u: &Universe, actions: &[Action]) -> Result<Judged, WFault>
        requires numbers { All (IsOf u.now) actions.now }
        requires few { length actions.now < 2 ^ 32 - 1 }
        requires begun { IsBegun u.now actions.now self }
        ensures judged { IfOk result (IsJudged u.now actions.now) }
        ensures loose { IfLoose result (IsFirstLoose u.now actions.now) }
    {
        let mut judged = self;
        let start = judged.count();
        for index in start..actions.len() {
            let earlier = &actions[..index];
            let action = &actions[index];
            if !judged.summary.is_steadfast(u, earlier, action) {
                return Err(WFault::Loose(index as u32 + 1));
            }
            judged.take_in(alloc, u, earlier, action)?;
        }
        Ok(judged)
    }

    /// Judges the further actions of the list, which begins with those that are judged, for a caller who knows that the whole list
    /// is steadfast.
    pub fn go_on_steadfast(
        self,
        alloc: Global,
        u: &Universe,
        actions: &[Action],
    ) -> Result<Judged, NoMemory>
        requires numbers { All (IsOf u.now) actions.now }
        requires few { length actions.now < 2 ^ 32 - 1 }
        requires steadfast { IsTrue (is_steadfast u.now actions.now) }
        requires begun { IsBegun u.now actions.now self }
        ensures { IfOk result (IsJudged u.now actions.now) }
    {
        let mut judged = self;
        let start = judged.count();
        for index in start..actions.len() {
            judged.take_in(alloc, u, &actions[..index], &actions[index])?;
        }
        Ok(judged)
    }

    /// What each of the actions waits for.
    pub fn into_waits(self) -> Waits
        requires { (u : Universe) × (actions : List Action) × IsJudged u actions self }
        ensures { (u : Universe) (actions : List Action) → IsJudged u actions self → AreWaits actions result }
    {
        let lists = self.lists;
        Waits::new(lists.each, lists.others)
    }

    // How many actions are judged.
    fn count(&self) -> usize
        ensures { result ≡ length self.now.lists.each }
    {
        self.lists.each.len()
    }

    // Takes the next action in, which is steadfast.
    fn take_in(
        &mut self,
        alloc: Global,
        u: &Universe,
        earlier: &[Action],
        action: &Action,
    ) -> Result<(), NoMemory>
        requires few { length earlier.now < 2 ^ 32 - 1 }
        requires number { IsOf u.now action.now }
        requires steadfast { IsTrue (is_steadfast_after u.now earlier.now action.now) }
        requires summary { IsSummary u.now earlier.now self.old.summary }
        ensures summary { OnOk result (IsSummary u.now (earlier.now ++ action.now ∷ []) self.new.summary) }
        ensures each { OnOk result (self.new.lists.each ≡ self.old.lists.each ++ filter (is_wait earlier.now action.now) (numbers earlier.now) ∷ []) }
        ensures others { OnOk result (self.new.lists.others ≡ self.old.lists.others ++ filter (λ m. not (m == last_number (is_by (actor_of action.now)) earlier.now)) (filter (is_wait earlier.now action.now) (numbers earlier.now)) ∷ []) }
    {
        let numbers = &mut self.lists.numbers;
        let previous = self.summary.note_waits(numbers, u, earlier, action)?;
        self.lists.push(previous)?;
        self.summary.add(alloc, u, earlier, action)
    }
}

// The lists of the actions so far, with and without their own instances' previous actions.
#[derive(Drop)]
struct Lists {
    each: Rows,
    others: Rows,
    /// The numbers that the action at hand waits for.
    numbers: Vec<u32>,
}

impl Lists {
    fn new(alloc: Global) -> Lists
        ensures each { result.each ≡ [] }
        ensures others { result.others ≡ [] }
    {
        Lists {
            each: Rows::new(alloc),
            others: Rows::new(alloc),
            numbers: Vec::new(alloc),
        }
    }

    // One action more, which waits for the numbers at hand. The previous action of its own instance is given.
    fn push(&mut self, previous: u32) -> Result<(), NoMemory>
        ensures each { OnOk result (self.new.each ≡ self.old.each ++ self.old.numbers.items ∷ []) }
        ensures others { OnOk result (self.new.others ≡ self.old.others ++ filter (λ m. not (m == previous)) self.old.numbers.items ∷ []) }
    {
        self.others.push_without(&self.numbers, previous)?;
        self.each.push(&self.numbers)
    }
}
