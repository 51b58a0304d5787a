//! Plain graphs, and how their nodes are sorted.
ghost use Rattle.std.specs.Prelude.{◌<◌, ◌≤◌, IfOk, length};
ghost use Rattle.std.specs.List.{All};

use crate::lists::{put, put_number};
use crate::stop::Stop;
use metis_ids::NodeIx;
use metis_sort::{Dag, Sorted, sort};
use std::alloc::Global;

/// Writes the order of the nodes of a graph, or its cycle. The words are how many nodes there are, the last one, and each edge as
/// `0>1` from node 0 to node 1.
pub fn write_sorting(alloc: Global, text: &mut String, words: &[&str]) -> Result<(), Stop> {
    let [count, last, edges @ ..] = words else {
        return Err(Stop::NoProbe);
    };
    let (count, last) = (number_of(count)?, number_of(last)?);
    let graph = graph_in(alloc, count, last, edges)?;
    write_order(alloc, text, &graph)
}

// The graph of so many nodes with this last one and the edges that these words name.
fn graph_in(alloc: Global, count: u32, last: u32, words: &[&str]) -> Result<Dag, Stop> {
    if last >= count {
        return Err(Stop::NoProbe);
    }
    let edges = edges_in(alloc, count, words)?;
    Ok(Dag::new(alloc, count, edges, NodeIx(last))?)
}

fn write_order(alloc: Global, text: &mut String, graph: &Dag) -> Result<(), Stop> {
    let sorted = sort(alloc, graph)?;
    match &sorted {
        Sorted::Order(nodes) => write_nodes(text, "order:", nodes),
        Sorted::Cycle(nodes) => write_nodes(text, "cycle:", nodes),
    }
}

fn write_nodes(text: &mut String, word: &str, nodes: &[NodeIx]) -> Result<(), Stop> {
    put(text, word)?;
    for node in nodes {
        put_number(text, node.0)?;
    }
    put(text, "\n")
}

// The edges that these words name, in a graph of so many nodes.
fn edges_in(alloc: Global, count: u32, words: &[&str]) -> Result<Vec<(NodeIx, NodeIx)>, Stop>
    ensures from { IfOk result (λ edges. All (λ e. e.0 < count) edges.items) }
    ensures to { IfOk result (λ edges. All (λ e. e.1 < count) edges.items) }
    ensures few { IfOk result (λ edges. length edges.items ≤ 256) }
{
    let mut edges = Vec::new(alloc);
    for word in words {
        let (from, to) = edge_of(word)?;
        if from >= count || to >= count || edges.len() >= 256 {
            return Err(Stop::NoProbe);
        }
        edges.push((NodeIx(from), NodeIx(to)))?;
    }
    Ok(edges)
}

fn edge_of(word: &str) -> Result<(u32, u32), Stop> {
    let (from, to) = word.split_once('>').ok_or(Stop::NoProbe)?;
    Ok((number_of(from)?, number_of(to)?))
}

/// The number that the word says.
pub fn number_of(word: &str) -> Result<u32, Stop> {
    word.parse().ok().ok_or(Stop::NoProbe)
}
