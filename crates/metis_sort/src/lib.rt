//! Sorting graphs: the order in which the least ready node comes next, or the cycle that stands in the way.
#![tactic(auto)]

mod cycle;
mod dag;
mod filling;
mod order;
mod reach;
mod ready;
mod rows;
mod sorted;
mod sorting;

pub use dag::Dag;
pub use reach::Reach;
pub use rows::NodeRows;
pub use sorted::Sorted;
pub use sorting::{sort, sort_counted};
