//! From a universe and a list of targets to a plan, or to a set of pairs that shows why there is none.
#![tactic(auto)]

mod laws;
mod order;
mod outcome;
mod planner;

pub use laws::{
    attained_targets_have_a_plan_by_rounds, nothing_is_done_for_no_targets,
    nothing_is_doubled_without_a_cycle, planned_instances_come_to_each_pair_once,
    rounds_come_to_one_plan,
};
pub use outcome::Outcome;
pub use planner::{plan, plan_over};
