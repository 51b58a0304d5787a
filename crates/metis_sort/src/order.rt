//! The order of a graph, as far as it goes.
ghost use Rattle.std.specs.Prelude.{◌≡◌, ◌+◌, ◌*◌, ◌-◌, ◌^◌, ◌<◌, ◌≤◌, ◌==◌, ◌&&◌, ◌||◌, ℕ, nat_lt, [], length, map, slice_index, slice_set, IfOk, OnOk};
ghost use Rattle.metis_ids.specs.Terms.{Graph, IsGraph, afters, all_nodes, has, occurrences, order_of};
ghost use Rattle.metis_sort.specs.Terms.{all_waiting, offers};

use crate::reach::Reach;
use crate::ready::Ready;
use metis_ids::{NoMemory, NodeIx, Steps};
use std::alloc::Global;
use std::sync::ledger::Ledger;

/// How far the order goes, and for how many edges each node waits then.
pub fn order_within<G: Reach, L: Ledger>(
    alloc: Global,
    g: &G,
    steps: &mut Steps<L>,
) -> Result<(Vec<NodeIx>, Vec<u32>), NoMemory>
    ensures order { IfOk result (λ x. x.0.items ≡ order_of (G.graph g.now)) }
    ensures waits { IfOk result (λ x. x.1.items ≡ all_waiting (G.graph g.now) (order_of (G.graph g.now))) }
    ensures few { IfOk result (λ x. length x.1.items < 2 ^ 32) }
    ensures graph { IsGraph (G.graph g.now) }
    ensures cost { steps.new ≤ steps.old + (2 * (G.graph g.now).nodes + length (G.graph g.now).edges) }
{
    let nodes = g.nodes();
    let mut waits = in_degrees(alloc, g, nodes, steps)?;
    let mut ready = ready_first(alloc, g.last_node(), &waits)?;
    let mut order = Vec::with_capacity(alloc, nodes as usize)?;
    while let Some(node) = ready.take() {
        order.push(node)?;
        release(g, node, &mut waits, &mut ready, steps)?;
    }
    Ok((order, waits))
}

// For how many edges each node waits at first.
fn in_degrees<G: Reach, L: Ledger>(
    alloc: Global,
    g: &G,
    nodes: u32,
    steps: &mut Steps<L>,
) -> Result<Vec<u32>, NoMemory>
    requires nodes { nodes ≡ (G.graph g.now).nodes }
    requires graph { IsGraph (G.graph g.now) }
    ensures waits { IfOk result (λ w. w.items ≡ all_waiting (G.graph g.now) []) }
    ensures cost { steps.new ≤ steps.old + (G.graph g.now).nodes }
{
    let mut waits = Vec::with_capacity(alloc, nodes as usize)?;
    for number in 0..nodes {
        waits.push(g.indegree(NodeIx(number), steps))?;
    }
    Ok(waits)
}

// The nodes that wait for no edge.
fn ready_first(alloc: Global, last: NodeIx, waits: &[u32]) -> Result<Ready, NoMemory>
    requires { length waits.now < 2 ^ 32 }
    ensures last { IfOk result (λ r. r.last ≡ last) }
    ensures ready { IfOk result (λ r. (n : ℕ) → offers r.others.keys r.last r.with_last n ≡ (nat_lt n (length waits.now) && (slice_index waits.now n == 0))) }
{
    let mut ready = Ready::new(alloc, last);
    for number in 0..waits.len() as u32 {
        if waits[number as usize] == 0 {
            ready.add(NodeIx(number))?;
        }
    }
    Ok(ready)
}

// Each successor of the node waits for one edge fewer, for each edge, and is ready where it waits for none.
fn release<G: Reach, L: Ledger>(
    g: &G,
    node: NodeIx,
    waits: &mut [u32],
    ready: &mut Ready,
    steps: &mut Steps<L>,
) -> Result<(), NoMemory>
    requires graph { IsGraph (G.graph g.now) }
    requires few { length (G.graph g.now).edges < 2 ^ 32 }
    requires node { node < (G.graph g.now).nodes }
    requires size { length waits.old ≡ (G.graph g.now).nodes }
    requires owed { (n : ℕ) → occurrences n (afters (G.graph g.now) node) ≤ slice_index waits.old n }
    ensures last { ready.new.last ≡ ready.old.last }
    ensures waits { OnOk result ((n : ℕ) → slice_index waits.new n + occurrences n (afters (G.graph g.now) node) ≡ slice_index waits.old n) }
    ensures ready { OnOk result ((n : ℕ) → offers ready.new.others.keys ready.new.last ready.new.with_last n ≡ (offers ready.old.others.keys ready.old.last ready.old.with_last n || (has (afters (G.graph g.now) node) n && (slice_index waits.new n == 0)))) }
    ensures cost { steps.new ≤ steps.old + length (afters (G.graph g.now) node) + 1 }
{
    let mut k = 0;
    while let Some(next) = g.after_at(node, k, steps) {
        settle(waits, next, ready)?;
        k += 1;
    }
    Ok(())
}

// The node waits for one edge fewer, and is ready where it waits for none.
fn settle(waits: &mut [u32], node: NodeIx, ready: &mut Ready) -> Result<(), NoMemory>
    requires within { node < length waits.old }
    requires owed { 0 < slice_index waits.old node }
    ensures last { ready.new.last ≡ ready.old.last }
    ensures waits { waits.new ≡ slice_set waits.old node (slice_index waits.old node - 1) }
    ensures ready { OnOk result ((n : ℕ) → offers ready.new.others.keys ready.new.last ready.new.with_last n ≡ (((n == node) && (slice_index waits.new node == 0)) || offers ready.old.others.keys ready.old.last ready.old.with_last n)) }
{
    let at = node.0 as usize;
    waits[at] -= 1;
    if waits[at] == 0 {
        ready.add(node)?;
    }
    Ok(())
}
