//! Rows of nodes in one list, one behind the other.
ghost use Rattle.std.specs.Prelude.{◌≡◌, ◌++◌, ◌∷◌, ◌^◌, ◌<◌, [], IfOk, OnOk, length};
ghost use Rattle.std.specs.List.{slice_index_or};
ghost use Rattle.metis_sort.specs.Terms.{joined};

use metis_ids::{NoMemory, NodeIx};
use std::alloc::Global;
use std::marker::Model;

/// Rows of nodes. Contracts see them as a list of lists.
#[derive(Drop)]
pub struct NodeRows {
    /// Where each row starts, and behind the last one where it ends.
    pub(crate) starts: Vec<u32>,
    pub(crate) nodes: Vec<NodeIx>,
}

impl Model for NodeRows {
    ghost use Rattle.std.specs.Prelude.{List, ℕ};
    ghost use Rattle.metis_sort.specs.Rows.{IsSpread, rows_by};

    ghost Value = { List (List ℕ) };

    ghost view = { λ a. rows_by a.starts.items a.nodes.items };

    ghost invariant = { λ a. IsSpread a.starts.items a.nodes.items };
}

impl NodeRows {
    /// No row.
    pub fn new(alloc: Global) -> Result<NodeRows, NoMemory>
        ensures { IfOk result (λ rows. rows ≡ []) }
    {
        Ok(NodeRows {
            starts: vec![in alloc; 0; 1]?,
            nodes: Vec::new(alloc),
        })
    }

    /// Appends a row. No memory is said to be there for 2^32 nodes and more.
    pub fn push(&mut self, row: &[NodeIx]) -> Result<(), NoMemory>
        ensures { OnOk result (self.new ≡ self.old ++ row.now ∷ []) }
    {
        let count = self.nodes.len();
        if row.len() > (u32::MAX as usize) - count {
            return Err(NoMemory);
        }
        self.nodes.extend_from_slice(row)?;
        match self.starts.push((count + row.len()) as u32) {
            Ok(()) => Ok(()),
            Err(_) => {
                self.nodes.truncate(count);
                Err(NoMemory)
            }
        }
    }

    /// How many rows there are.
    pub fn len(&self) -> usize
        ensures { result ≡ length self.now }
    {
        self.starts.len() - 1
    }

    /// The nodes of a row.
    pub fn row(&self, number: usize) -> &[NodeIx]
        requires { number < length self.now }
        ensures { result.now ≡ slice_index_or self.now number [] }
    {
        let start = self.starts[number] as usize;
        let end = self.starts[number + 1] as usize;
        &self.nodes[start..end]
    }

    /// The nodes of all rows.
    pub fn all(&self) -> &[NodeIx]
        ensures nodes { result.now ≡ joined self.now }
        ensures few { length result.now < 2 ^ 32 }
    {
        // For the proof alone: to name a field is to open the invariant.
        let _starts = &self.starts;
        &self.nodes
    }
}
