//! Writes what the rounds of the planner come to.
ghost use Rattle.std.specs.Prelude.{◌≡◌, ◌+◌, ◌<◌, ◌≤◌, ℕ, IfOk, IsTrue, OnOk, length};
ghost use Rattle.std.specs.List.{All};
ghost use Rattle.metis_universe.specs.Terms.{Universe as Model, has, pair_count};
ghost use Rattle.metis_choice.specs.Terms.{IfSupport};
ghost use Rattle.metis_support.specs.Terms.{IsSupport, is_selected};
ghost use Rattle.metis_lines.specs.Terms.{AreLines, graph_over, loose};
ghost use Rattle.metis_events.specs.Terms.{dag_of, graph_of};
ghost use Rattle.metis_ids.specs.Terms.{IsOrder};
ghost use Rattle.metis_sort.specs.Terms.{IsSorted};

use crate::event_graph::{count_edges, events_of, write_edges, write_event, write_sorted};
use crate::goals::targets_in;
use crate::life_lines::{goes_on, write_lines};
use crate::lists::put;
use crate::stop::Stop;
use metis_choice::{Choice, choose};
use metis_emit::{emit, least_order_ends_late, sorted_numbers_are_least};
use metis_events::{EventGraph, dag_is_of_the_plan};
use metis_ids::{Action, Dup, NoMemory, NodeIx, PairIx, order_is_a_sorting};
use metis_layers::layers;
use metis_lines::{Lines, OverLines};
use metis_rounds::{Round, Rounds, StuckRounds};
use metis_sort::{Reach, Sorted, sort};
use metis_support::Support;
use metis_universe::Universe;
use std::alloc::Global;

/// Writes the life lines for the targets, the edges between their events, and the order or the cycle of these, and what the rounds of
/// the planner double; and while they do, the same again with a line of its own for that pair. At last the actions of the order.
pub fn write_rounds(
    alloc: Global,
    text: &mut String,
    u: &Universe,
    words: &[&str],
) -> Result<(), Stop> {
    let targets = targets_in(alloc, u, words)?;
    match chosen(alloc, u, &targets)? {
        Choice::Support(support) => rounds(alloc, text, u, &support, &targets),
        Choice::Lacks(pair) => write_lacks(text, pair),
    }
}

/// Writes how many life lines for the targets, events and edges there are, and how long the order or the cycle is.
pub fn write_counts(
    alloc: Global,
    text: &mut String,
    u: &Universe,
    words: &[&str],
) -> Result<(), Stop> {
    let targets = targets_in(alloc, u, words)?;
    match chosen(alloc, u, &targets)? {
        Choice::Support(support) => counts(alloc, text, u, &support, &targets),
        Choice::Lacks(pair) => write_lacks(text, pair),
    }
}

// The support of the targets, or the first one that has no layer.
fn chosen(alloc: Global, u: &Universe, targets: &[PairIx]) -> Result<Choice, NoMemory>
    requires { All (λ p. p < pair_count u.now) targets.now }
    ensures over { IfSupport result (IsSupport u.now) }
    ensures selected { IfSupport result (λ s. (p : ℕ) → IsTrue (has targets.now p) → IsTrue (is_selected s p)) }
{
    u.keeps_invariant();
    let layers = layers(alloc, u)?;
    choose(alloc, u, &layers, targets)
}

fn write_lacks(text: &mut String, pair: PairIx) -> Result<(), Stop> {
    let number = pair.0;
    write!(text, "lacks pair {number}\n")?;
    Ok(())
}

fn rounds(
    alloc: Global,
    text: &mut String,
    u: &Universe,
    s: &Support,
    targets: &[PairIx],
) -> Result<(), Stop>
    requires over { IsSupport u.now s.now }
    requires selected { (p : ℕ) → IsTrue (has targets.now p) → IsTrue (is_selected s.now p) }
    requires few { length targets.now ≤ 256 }
{
    let gone = gone_through(alloc, u, s, targets)?;
    write_gone(alloc, text, u, s, targets, &gone)
}

// What the planner's rounds doubled, and how many lines there are at last.
#[derive(Drop)]
struct Gone {
    dups: Vec<Dup>,
    count: u32,
}

fn gone_through(alloc: Global, u: &Universe, s: &Support, targets: &[PairIx]) -> Result<Gone, Stop>
    requires over { IsSupport u.now s.now }
    requires selected { (p : ℕ) → IsTrue (has targets.now p) → IsTrue (is_selected s.now p) }
    requires few { length targets.now ≤ 256 }
{
    let mut dups = Vec::new(alloc);
    let count = go_through(alloc, u, s, targets, &mut dups)?;
    Ok(Gone { dups, count })
}

fn write_gone(
    alloc: Global,
    text: &mut String,
    u: &Universe,
    s: &Support,
    targets: &[PairIx],
    gone: &Gone,
) -> Result<(), Stop>
    requires over { IsSupport u.now s.now }
    requires selected { (p : ℕ) → IsTrue (has targets.now p) → IsTrue (is_selected s.now p) }
    requires few { length targets.now ≤ 256 }
{
    write_all(alloc, text, u, s, targets, &gone.dups)?;
    write_ended(text, gone.count)
}

// Goes from round to round of the planner, notes what they double, and tells how many lines there are at last.
fn go_through(
    alloc: Global,
    u: &Universe,
    s: &Support,
    targets: &[PairIx],
    dups: &mut Vec<Dup>,
) -> Result<u32, Stop>
    requires over { IsSupport u.now s.now }
    requires selected { (p : ℕ) → IsTrue (has targets.now p) → IsTrue (is_selected s.now p) }
    requires few { length targets.now ≤ 256 }
{
    let mut rounds = Rounds::new(alloc, u, s, targets)?;
    'rounds: loop {
        match rounds.go_on(alloc)? {
            Round::Ended(lines) => return Ok(lines.count()),
            Round::Stuck(stuck) => rounds = doubled(alloc, stuck, dups)?,
        }
    }
}

// Notes what is doubled.
fn doubled<'a>(
    alloc: Global,
    stuck: StuckRounds<'a>,
    dups: &mut Vec<Dup>,
) -> Result<Rounds<'a>, Stop>
    ensures { IfOk result (λ rounds. loose rounds.lines + 1 ≡ loose stuck.entry.lines) }
{
    let (dup, rounds) = stuck.double(alloc)?;
    dups.push(dup)?;
    Ok(rounds)
}

// Writes each round, by the graph of the lines, which is made anew, and what is doubled then.
fn write_all(
    alloc: Global,
    text: &mut String,
    u: &Universe,
    s: &Support,
    targets: &[PairIx],
    dups: &[Dup],
) -> Result<(), Stop>
    requires over { IsSupport u.now s.now }
    requires selected { (p : ℕ) → IsTrue (has targets.now p) → IsTrue (is_selected s.now p) }
    requires few { length targets.now ≤ 256 }
{
    let mut lines = Lines::new(alloc, u, s, targets)?;
    write_each(alloc, text, u, s, &mut lines, dups)
}

fn write_each(
    alloc: Global,
    text: &mut String,
    u: &Universe,
    s: &Support,
    lines: &mut Lines,
    dups: &[Dup],
) -> Result<(), Stop>
    requires over { IsSupport u.now s.now }
    requires lines { AreLines u.now s.now lines.old }
{
    for dup in dups {
        write_round(alloc, text, u, s, lines)?;
        double(alloc, text, s, lines, dup)?;
    }
    write_round(alloc, text, u, s, lines)
}

fn write_ended(text: &mut String, count: u32) -> Result<(), Stop> {
    write!(text, "rounds end with lines {count}\n")?;
    Ok(())
}

// Writes the dup, and gives its pair a line of its own, unless no line goes on from it.
fn double(
    alloc: Global,
    text: &mut String,
    s: &Support,
    lines: &mut Lines,
    dup: &Dup,
) -> Result<(), Stop>
    requires { (u : Model) × AreLines u s.now lines.old }
    ensures { OnOk result ((u : Model) → AreLines u s.now lines.old → AreLines u s.now lines.new) }
{
    write_dup(text, dup)?;
    if goes_on(lines, dup.pair) {
        let line = lines.own_line(alloc, s, dup.pair)?;
        write_own_line(text, line.0, dup.pair)?;
    }
    Ok(())
}

fn write_dup(text: &mut String, dup: &Dup) -> Result<(), Stop> {
    write_doubled(text, dup.pair.0)?;
    for event in &dup.cycle {
        write_event(text, event)?;
    }
    put(text, "\n")
}

fn write_doubled(text: &mut String, pair: u32) -> Result<(), Stop> {
    write!(text, "rounds double pair {pair} by:")?;
    Ok(())
}

fn write_own_line(text: &mut String, line: u32, pair: PairIx) -> Result<(), Stop> {
    let number = pair.0;
    write!(text, "line {line} is pair {number}'s own\n")?;
    Ok(())
}

// Writes the round, and where its events have an order the actions.
fn write_round<'a>(
    alloc: Global,
    text: &mut String,
    u: &'a Universe,
    s: &'a Support,
    lines: &'a Lines,
) -> Result<(), Stop>
    requires over { IsSupport u.now s.now }
    requires lines { AreLines u.now s.now lines.now }
{
    write_lines(text, s, lines)?;
    write_events(alloc, text, &OverLines::over(u, s, lines))
}

fn write_events(alloc: Global, text: &mut String, over: &OverLines<'_>) -> Result<(), Stop> {
    let graph = EventGraph::of(alloc, over)?;
    write_graph(alloc, text, over, &graph)
}

fn write_graph(
    alloc: Global,
    text: &mut String,
    over: &OverLines<'_>,
    graph: &EventGraph,
) -> Result<(), Stop>
    requires { graph.now ≡ graph_of (graph_over over.now) }
{
    write_edges(text, graph, graph.dag().nodes())?;
    write_order(alloc, text, over, graph)
}

fn write_order(
    alloc: Global,
    text: &mut String,
    over: &OverLines<'_>,
    graph: &EventGraph,
) -> Result<(), Stop>
    requires { graph.now ≡ graph_of (graph_over over.now) }
{
    let sorted = sort(alloc, graph.dag())?;
    write_sorting(alloc, text, over, graph, &sorted)
}

fn write_sorting(
    alloc: Global,
    text: &mut String,
    over: &OverLines<'_>,
    graph: &EventGraph,
    sorted: &Sorted,
) -> Result<(), Stop>
    requires graph { graph.now ≡ graph_of (graph_over over.now) }
    requires sorted { IsSorted (dag_of graph.now) sorted.now }
{
    write_sorted(text, graph, graph.dag().nodes(), sorted)?;
    match sorted {
        Sorted::Order(nodes) => write_ordered(alloc, text, over, graph, nodes),
        Sorted::Cycle(_) => Ok(()),
    }
}

fn write_ordered(
    alloc: Global,
    text: &mut String,
    over: &OverLines<'_>,
    graph: &EventGraph,
    nodes: &[NodeIx],
) -> Result<(), Stop>
    requires graph { graph.now ≡ graph_of (graph_over over.now) }
    requires order { IsOrder (dag_of graph.now) nodes.now }
{
    let actions = actions_of(alloc, over, graph, nodes)?;
    write_actions(text, &actions)
}

// The actions of the events, where these stand in an order of the graph.
fn actions_of(
    alloc: Global,
    over: &OverLines<'_>,
    graph: &EventGraph,
    nodes: &[NodeIx],
) -> Result<Vec<Action>, Stop>
    requires graph { graph.now ≡ graph_of (graph_over over.now) }
    requires order { IsOrder (dag_of graph.now) nodes.now }
{
    over.keeps_invariant();
    dag_is_of_the_plan();
    order_is_a_sorting();
    sorted_numbers_are_least();
    least_order_ends_late();
    let events = events_of(alloc, graph, nodes)?;
    Ok(emit(alloc, over, &events)?)
}

fn write_actions(text: &mut String, actions: &[Action]) -> Result<(), Stop> {
    for action in actions {
        write!(text, "{action:?}\n")?;
    }
    Ok(())
}

fn counts<'a>(
    alloc: Global,
    text: &mut String,
    u: &'a Universe,
    s: &'a Support,
    targets: &[PairIx],
) -> Result<(), Stop>
    requires over { IsSupport u.now s.now }
    requires selected { (p : ℕ) → IsTrue (has targets.now p) → IsTrue (is_selected s.now p) }
    requires few { length targets.now ≤ 256 }
{
    let lines = Lines::new(alloc, u, s, targets)?;
    counts_of(alloc, text, &OverLines::over(u, s, &lines))
}

fn counts_of(alloc: Global, text: &mut String, over: &OverLines<'_>) -> Result<(), Stop> {
    write_line_counts(text, over.count(), over.lines().loose())?;
    let graph = EventGraph::of(alloc, over)?;
    graph_counts(alloc, text, &graph)
}

fn write_line_counts(text: &mut String, count: u32, loose: u32) -> Result<(), Stop> {
    write!(text, "lines {count} loose {loose}\n")?;
    Ok(())
}

fn graph_counts(alloc: Global, text: &mut String, graph: &EventGraph) -> Result<(), Stop> {
    let nodes = graph.dag().nodes();
    write_event_counts(text, nodes, count_edges(graph, nodes))?;
    let sorted = sort(alloc, graph.dag())?;
    match &sorted {
        Sorted::Order(nodes) => write_length(text, "order", nodes.len()),
        Sorted::Cycle(nodes) => write_length(text, "cycle", nodes.len()),
    }
}

fn write_event_counts(text: &mut String, events: u32, edges: u64) -> Result<(), Stop> {
    write!(text, "events {events} edges {edges}\n")?;
    Ok(())
}

fn write_length(text: &mut String, word: &str, length: usize) -> Result<(), Stop> {
    write!(text, "{word} of {length}\n")?;
    Ok(())
}
