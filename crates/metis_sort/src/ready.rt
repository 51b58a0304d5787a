//! The nodes that are ready.
ghost use Rattle.std.specs.Prelude.{◌≡◌, ◌==◌, ◌&&◌, ◌||◌, ℕ, false, not, IfNone, IfSome, OnOk};
ghost use Rattle.metis_ids.specs.Terms.{has};
ghost use Rattle.metis_sort.specs.Ready.{offers, IsFirst};

use metis_ids::{NoMemory, NodeIx};
use std::alloc::Global;
use std::collections::BTreeSet;

/// Nodes that are ready: the last node is taken only where no other is there.
#[derive(Drop)]
pub struct Ready {
    pub others: BTreeSet<NodeIx>,
    pub last: NodeIx,
    pub with_last: bool,
    ghost apart: { has others.keys last ≡ false },
}

impl Ready {
    /// None are ready.
    pub fn new(alloc: Global, last: NodeIx) -> Ready
        ensures last { result.last ≡ last }
        ensures none { (n : ℕ) → offers result.others.keys result.last result.with_last n ≡ false }
    {
        Ready {
            others: BTreeSet::new(alloc),
            last,
            with_last: false,
        }
    }

    /// Puts a node in.
    pub fn add(&mut self, node: NodeIx) -> Result<(), NoMemory>
        ensures last { self.new.last ≡ self.old.last }
        ensures added { OnOk result ((n : ℕ) → offers self.new.others.keys self.new.last self.new.with_last n ≡ ((n == node) || offers self.old.others.keys self.old.last self.old.with_last n)) }
    {
        if node == self.last {
            self.with_last = true;
        } else {
            self.others.insert(node)?;
        }
        Ok(())
    }

    /// Takes out the node that comes next.
    pub fn take(&mut self) -> Option<NodeIx>
        ensures last { self.new.last ≡ self.old.last }
        ensures none { IfNone result ((n : ℕ) → offers self.old.others.keys self.old.last self.old.with_last n ≡ false) }
        ensures first { IfSome result (IsFirst self.old.last (offers self.old.others.keys self.old.last self.old.with_last)) }
        ensures left { IfSome result (λ x. (n : ℕ) → offers self.new.others.keys self.new.last self.new.with_last n ≡ (offers self.old.others.keys self.old.last self.old.with_last n && not (n == x))) }
    {
        match self.others.pop_first() {
            Some(node) => Some(node),
            None if self.with_last => {
                self.with_last = false;
                Some(self.last)
            }
            None => None,
        }
    }
}
