//! What has to happen before what on life lines, as a graph.
#![tactic(auto)]

mod edges;
mod gather;
pub mod graph;
mod laws;
mod numbers;
mod rows;

pub use edges::{Edge, EdgeKind, events_are_ordered};
pub use gather::{leaving, step_count};
pub use graph::EventGraph;
pub use laws::{
    all_events_are_listed, cycles_of_lines_return, cycles_return_into_moves, dag_is_of_the_plan,
    edges_are_listed, edges_ascend, edges_into_events, edges_join_events, events_ascend,
    events_have_nodes, graphs_are_joined, last_stations_make_no_cycle, no_loose_no_cycle,
    no_return_no_cycle, nodes_have_events, returns_are_of_loose_holders, returns_are_of_supplies,
};
pub use rows::is_same_event;
