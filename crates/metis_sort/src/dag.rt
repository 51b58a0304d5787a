//! Graphs that hold the predecessors and the successors of each node.
ghost use Rattle.std.specs.Prelude.{◌≡◌, ◌^◌, ◌<◌, ◌++◌, ℕ, [], IsTrue, IfOk, length, map, replicate, slice_index};
ghost use Rattle.std.specs.List.{All, filter, slice_index_or};
ghost use Rattle.metis_ids.specs.Terms.{has, joins, occurrences};
ghost use Rattle.metis_sort.specs.Terms.{HasEdgesOf, HasRoom, ascending, edges_into, graph_into, turned_row};

use crate::filling::Filling;
use crate::reach::Reach;
use crate::rows::NodeRows;
use metis_ids::{NoMemory, NodeIx, Steps};
use std::alloc::Global;
use std::marker::Model;
use std::sync::ledger::Ledger;

/// A graph. Contracts see it as its nodes, its edges, by the nodes that they lead to and then by those that they lead from, and
/// its last node.
#[derive(Drop)]
pub struct Dag {
    last: NodeIx,
    before: NodeRows,
    after: NodeRows,
}

impl Model for Dag {
    ghost use Rattle.metis_ids.specs.Graph.{Graph};
    ghost use Rattle.metis_sort.specs.Dag.{IsDag, graph_into};

    ghost Value = { Graph };

    ghost view = { λ a. graph_into a.before a.last };

    ghost invariant = { λ a. IsDag (graph_into a.before a.last) a.after a.before };
}

impl Dag {
    /// The graph of so many nodes and these edges, in any order. It goes over the edges four times, and counts them before each time.
    pub fn new(
        alloc: Global,
        n: u32,
        edges: Vec<(NodeIx, NodeIx)>,
        last: NodeIx,
    ) -> Result<Dag, NoMemory>
        requires last { last < n }
        requires from { All (λ e. e.0 < n) edges.items }
        requires to { All (λ e. e.1 < n) edges.items }
        requires few { length edges.items < 2 ^ 32 }
        ensures { IfOk result (HasEdgesOf (record { nodes = n; edges = edges.items; last = last })) }
    {
        let ends = rows_by_end(alloc, n as usize, &edges)?;
        let after = turned(alloc, &ends)?;
        let before = turned(alloc, &after)?;
        Dag::of_befores(alloc, before, last)
    }

    /// The graph in which these rows, one for each node, are the nodes from which edges lead to it: ascending, each as often as
    /// there are edges. It goes over the edges twice.
    pub fn of_befores(alloc: Global, before: NodeRows, last: NodeIx) -> Result<Dag, NoMemory>
        requires last { last < length before }
        requires small { length before < 2 ^ 32 }
        requires rows { All (λ row. ascending (length before) row ≡ row) before }
        ensures { IfOk result (λ g. g ≡ graph_into before last) }
    {
        let after = turned(alloc, &before)?;
        Ok(Dag {
            last,
            before,
            after,
        })
    }
}

impl Reach for Dag {
    ghost graph = { λ g. g };

    fn nodes(&self) -> u32 {
        self.before.len() as u32
    }

    fn last_node(&self) -> NodeIx {
        self.last
    }

    fn indegree<L: Ledger>(&self, n: NodeIx, steps: &mut Steps<L>) -> u32 {
        steps.tick();
        self.before.row(n.0 as usize).len() as u32
    }

    fn after_at<L: Ledger>(&self, n: NodeIx, k: u32, steps: &mut Steps<L>) -> Option<NodeIx> {
        steps.tick();
        self.after.row(n.0 as usize).get(k as usize).copied()
    }

    fn before_at<L: Ledger>(&self, n: NodeIx, k: u32, steps: &mut Steps<L>) -> Option<NodeIx> {
        steps.tick();
        self.before.row(n.0 as usize).get(k as usize).copied()
    }
}

// For each node, from where edges lead to it.
fn rows_by_end(
    alloc: Global,
    count: usize,
    edges: &[(NodeIx, NodeIx)],
) -> Result<NodeRows, NoMemory>
    requires to { All (λ e. e.1 < count) edges.now }
    requires few { length edges.now < 2 ^ 32 }
    ensures size { IfOk result (λ rows. length rows ≡ count) }
    ensures counts { IfOk result (λ rows. (a b : ℕ) → b < count → occurrences a (slice_index_or rows b []) ≡ length (filter (joins a b) edges.now)) }
{
    let counts = counts_of(alloc, count, &ends_of(alloc, edges)?)?;
    let mut rows = Filling::with_room(alloc, &counts)?;
    for (from, to) in edges {
        rows.push(*to, *from);
    }
    Ok(rows.done())
}

// The nodes to which the edges lead.
fn ends_of(alloc: Global, edges: &[(NodeIx, NodeIx)]) -> Result<Vec<NodeIx>, NoMemory>
    ensures { IfOk result (λ ends. ends.items ≡ map (λ e. e.1) edges.now) }
{
    let mut ends = Vec::with_capacity(alloc, edges.len())?;
    for (_, to) in edges {
        ends.push(*to)?;
    }
    Ok(ends)
}

// How often each of so many nodes stands among these.
fn counts_of(alloc: Global, count: usize, nodes: &[NodeIx]) -> Result<Vec<u32>, NoMemory>
    requires within { (x : ℕ) → IsTrue (has nodes.now x) → x < count }
    requires few { length nodes.now < 2 ^ 32 }
    ensures size { IfOk result (λ counts. length counts.items ≡ count) }
    ensures counts { IfOk result (λ counts. (x : ℕ) → slice_index counts.items x ≡ occurrences x nodes.now) }
{
    let mut counts = vec![in alloc; 0; count]?;
    for node in nodes {
        counts[node.0 as usize] += 1;
    }
    Ok(counts)
}

// For each node, the numbers of the rows in which it stands.
fn turned(alloc: Global, rows: &NodeRows) -> Result<NodeRows, NoMemory>
    requires small { length rows.now < 2 ^ 32 }
    requires within { (i x : ℕ) → IsTrue (has (slice_index_or rows.now i []) x) → x < length rows.now }
    ensures size { IfOk result (λ turned. length turned ≡ length rows.now) }
    ensures rows { IfOk result (λ turned. (x : ℕ) → x < length rows.now → slice_index_or turned x [] ≡ turned_row rows.now x) }
    ensures few { IfOk result (λ _. length (edges_into rows.now) < 2 ^ 32) }
{
    let counts = counts_of(alloc, rows.len(), rows.all())?;
    let mut turned = Filling::with_room(alloc, &counts)?;
    for i in 0..rows.len() {
        add_to_rows(&mut turned, NodeIx(i as u32), rows.row(i));
    }
    Ok(turned.done())
}

// Adds the node to the rows of these nodes.
fn add_to_rows(rows: &mut Filling, node: NodeIx, to: &[NodeIx])
    requires within { (x : ℕ) → IsTrue (has to.now x) → x < length rows.old.rows }
    requires room { (x : ℕ) → x < length rows.old.rows → HasRoom rows.old x (occurrences x to.now) }
    ensures size { length rows.new.rows ≡ length rows.old.rows }
    ensures starts { rows.new.starts ≡ rows.old.starts }
    ensures rows { (x : ℕ) → slice_index_or rows.new.rows x [] ≡ slice_index_or rows.old.rows x [] ++ replicate (occurrences x to.now) node }
{
    for x in to {
        rows.push(*x, node);
    }
}
