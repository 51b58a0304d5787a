//! Fresh instances beside what stands, bound to it where it provides what they demand.
#![tactic(auto)]

mod completing;
mod given;
mod laws;

pub use completing::complete;
pub use given::Given;
pub use laws::{
    attained_stays_attained, completed_list_is_short, completed_list_keeps_to_fresh_instances,
    fresh_and_given_stand_together, fresh_binds_go_to_what_is_not_avoided,
    fresh_instances_lead_to_fresh_and_given_ones, nothing_given_leaves_all, residual_is_a_universe,
};
