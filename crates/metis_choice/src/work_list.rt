//! The work list of a selection.
ghost use Rattle.std.specs.Prelude.{◌≡◌, ◌<◌, [], ◌∷◌, ◌++◌, IfOk, MatchOption, OnOk};
ghost use Rattle.std.specs.List.{All};
ghost use Rattle.std.specs.Option.{ForSome, option_to_list};
ghost use Rattle.metis_choice.specs.Terms.{Adds};

use metis_ids::{NoMemory, PairIx, PairSet};
use std::alloc::Global;
use std::marker::Model;

/// The pairs that are selected so far, and those of them whose needs are still to be looked at.
#[derive(Drop)]
pub struct WorkList {
    selected: PairSet,
    waiting: Vec<PairIx>,
}

impl Model for WorkList {
    ghost use Rattle.metis_choice.specs.WorkList as model;

    ghost Value = { model.WorkList };

    ghost view = { λ w. record { selected = w.selected; waiting = w.waiting.items } };
}

impl WorkList {
    /// No pair of so many is selected.
    pub fn new(alloc: Global, pairs: u32) -> Result<WorkList, NoMemory>
        ensures size { IfOk result (λ w. w.selected.size ≡ pairs) }
        ensures selected { IfOk result (λ w. w.selected.members ≡ []) }
        ensures waiting { IfOk result (λ w. w.waiting ≡ []) }
    {
        let selected = PairSet::with_pairs(alloc, pairs)?;
        Ok(WorkList {
            selected,
            waiting: Vec::new(alloc),
        })
    }

    /// Selects the pair. If it was not selected before, it waits.
    pub fn add(&mut self, pair: PairIx) -> Result<(), NoMemory>
        requires { pair < self.old.selected.size }
        ensures { OnOk result (Adds (pair ∷ []) self.old self.new) }
    {
        if self.selected.has(pair) {
            return Ok(());
        }
        self.waiting.push(pair)?;
        self.selected.add(pair);
        // For the proof alone: a set has no more members than its size.
        let _count = self.selected.count();
        Ok(())
    }

    /// Selects the pair, if there is one.
    pub fn add_need(&mut self, need: Option<PairIx>) -> Result<(), NoMemory>
        requires { ForSome need (λ p. p < self.old.selected.size) }
        ensures { OnOk result (Adds (option_to_list need) self.old self.new) }
    {
        match need {
            Some(pair) => self.add(pair),
            None => Ok(()),
        }
    }

    /// Selects all these pairs.
    pub fn add_all(&mut self, pairs: &[PairIx]) -> Result<(), NoMemory>
        requires { All (λ p. p < self.old.selected.size) pairs.now }
        ensures { OnOk result (Adds pairs.now self.old self.new) }
    {
        for pair in pairs {
            self.add(*pair)?;
        }
        Ok(())
    }

    /// Takes the last of the pairs that wait.
    pub fn pop(&mut self) -> Option<PairIx>
        ensures selected { self.new.selected ≡ self.old.selected }
        ensures waiting { MatchOption result (self.old.waiting ≡ []) (λ p. self.old.waiting ≡ self.new.waiting ++ p ∷ []) }
    {
        self.waiting.pop()
    }

    pub fn into_selected(self) -> PairSet
        ensures { result ≡ self.selected }
    {
        self.selected
    }
}
