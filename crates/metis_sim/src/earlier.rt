//! The changes that a session keeps.
ghost use Rattle.std.specs.Prelude.{◌≡◌, [], ◌∷◌, OnErr, OnOk, MatchOption, length};
ghost use Rattle.metis_sim.specs.Terms.{IsUndoable, before};

use crate::change::Change;
use metis_config::Config;
use metis_ids::NoMemory;
use std::alloc::Global;
use std::marker::Model;

/// Changes, of which the last one that was kept comes first.
#[derive(Drop)]
pub struct Earlier {
    kept: Vec<Change>,
}

impl Model for Earlier {
    ghost use Rattle.std.specs.Prelude.{List, reverse};
    ghost use Rattle.metis_sim.specs.declared.change.Change.{Change};

    ghost Value = { List Change };

    ghost view = { λ e. reverse e.kept.items };
}

impl Earlier {
    /// None is kept.
    pub fn new(alloc: Global) -> Earlier
        ensures { result ≡ [] }
    {
        Earlier {
            kept: Vec::new(alloc),
        }
    }

    /// Keeps the change that led to the configuration. Where memory runs out, it is undone.
    pub fn keep(&mut self, change: Change, c: &mut Config) -> Result<(), NoMemory>
        requires { IsUndoable c.old change }
        ensures ok { OnOk result (self.new ≡ change ∷ self.old) }
        ensures same { OnOk result (c.new ≡ c.old) }
        ensures err { OnErr result (self.new ≡ self.old) }
        ensures undone { OnErr result (c.new ≡ before c.old change) }
    {
        match self.kept.push(change) {
            Ok(()) => Ok(()),
            Err(failed) => {
                failed.value.undo(c);
                Err(NoMemory)
            }
        }
    }

    /// Takes the last one away, if there is one.
    pub fn take(&mut self) -> Option<Change>
        ensures last { MatchOption result (self.old ≡ []) (λ change. self.old ≡ change ∷ self.new) }
        ensures none { MatchOption result (self.new ≡ []) (λ _. self.old ≡ self.old) }
    {
        self.kept.pop()
    }

    /// Keeps none any more.
    pub fn forget(&mut self)
        ensures { self.new ≡ [] }
    {
        self.kept.clear();
    }

    /// How many are kept.
    pub fn len(&self) -> u64
        ensures { result ≡ length self.now }
    {
        self.kept.len() as u64
    }
}
