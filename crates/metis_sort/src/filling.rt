//! Rows of nodes that are filled in any order, each up to the room that it has.
ghost use Rattle.std.specs.Prelude.{◌≡◌, ◌+◌, ◌++◌, ◌∷◌, ◌<◌, ℕ, [], IfOk, length, slice_index, slice_set};
ghost use Rattle.std.specs.List.{slice_index_or};
ghost use Rattle.metis_sort.specs.Terms.{AreSpaced, HasRoom, IsFull};

use crate::rows::NodeRows;
use metis_ids::{NoMemory, NodeIx};
use std::alloc::Global;
use std::marker::Model;

/// Rows that still have room. Contracts see them as their nodes so far, and where each of them starts in the one list.
#[derive(Drop)]
pub struct Filling {
    /// Where each row starts, and behind the last one where its room ends.
    starts: Vec<u32>,
    /// Up to where each row is filled.
    ends: Vec<u32>,
    nodes: Vec<NodeIx>,
}

impl Model for Filling {
    ghost use Rattle.metis_sort.specs.Rows as model;

    ghost Value = { model.Filling };

    ghost view = { λ a. model.filling_of a.starts.items a.ends.items a.nodes.items };

    ghost invariant = { λ a. model.IsRoomy a.starts.items a.ends.items a.nodes.items };
}

impl Filling {
    /// Empty rows, each with room for so many nodes. No memory is said to be there for 2^32 nodes and more.
    pub fn with_room(alloc: Global, counts: &[u32]) -> Result<Filling, NoMemory>
        ensures size { IfOk result (λ f. length f.rows ≡ length counts.now) }
        ensures rows { IfOk result (λ f. (x : ℕ) → slice_index_or f.rows x [] ≡ []) }
        ensures room { IfOk result (λ f. AreSpaced f.starts counts.now) }
    {
        let starts = starts_of(alloc, counts)?;
        let mut ends = Vec::with_capacity(alloc, counts.len())?;
        ends.extend_from_slice(&starts[..counts.len()])?;
        let nodes = vec![in alloc; NodeIx(0); starts[counts.len()] as usize]?;
        Ok(Filling {
            starts,
            ends,
            nodes,
        })
    }

    /// Appends a node to a row that has room.
    pub fn push(&mut self, row: NodeIx, node: NodeIx)
        requires within { row < length self.old.rows }
        requires room { HasRoom self.old row 1 }
        ensures starts { self.new.starts ≡ self.old.starts }
        ensures rows { self.new.rows ≡ slice_set self.old.rows row (slice_index_or self.old.rows row [] ++ node ∷ []) }
    {
        let end = self.ends[row.0 as usize];
        self.nodes[end as usize] = node;
        self.ends[row.0 as usize] = end + 1;
    }

    /// The rows, of which each is full.
    pub fn done(self) -> NodeRows
        requires { (x : ℕ) → x < length self.rows → IsFull self x }
        ensures { result ≡ self.rows }
    {
        let Filling { starts, nodes, .. } = self;
        NodeRows { starts, nodes }
    }
}

// Where rows with room for so many nodes each start, and behind the last one where its room ends.
fn starts_of(alloc: Global, counts: &[u32]) -> Result<Vec<u32>, NoMemory>
    ensures size { IfOk result (λ starts. length starts.items ≡ length counts.now + 1) }
    ensures first { IfOk result (λ starts. slice_index starts.items 0 ≡ 0) }
    ensures each { IfOk result (λ starts. AreSpaced starts.items counts.now) }
{
    let mut starts = vec![in alloc; 0; 1]?;
    let mut start: u32 = 0;
    for count in counts {
        let Some(next) = start.checked_add(*count) else {
            return Err(NoMemory);
        };
        start = next;
        starts.push(start)?;
    }
    Ok(starts)
}
