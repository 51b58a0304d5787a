//! Which pairs a plan for a list of targets stands on, and which pairs goals come to.
#![tactic(auto)]

mod choice;
mod laws;
mod origins;
mod resolution;
mod selection;
mod tables;
mod work_list;

pub use choice::{Choice, choose, support};
pub use laws::{
    goals_are_attained_where_none_is_lacking, pairs_for_goals_are_unique, pairs_for_goals_hold_them,
};
pub use resolution::{Resolved, resolve, resolve_goals};
