//! The universe of component types, and the definitions that the planner's contracts cite.
#![tactic(auto)]

mod check;
mod faults;
mod goal_laws;
mod goals;
mod laws;
mod limits;
mod names;
mod needs;
mod numbered;
mod reading;
mod rows;
mod seen;
mod sights;
mod universe;

pub use faults::{LimitKind, RowFault};
pub use goal_laws::{lacked_goals_are_not_held, pairs_are_goals, refused_goals_are_not_attained};
pub use laws::{
    bindings_count_providers, correctness_is_decided, demands_are_limited, first_fault_comes_first,
    greatest_demand_is_met, layer_is_least, layers_are_closed, no_demand_is_greater,
    one_provider_is_correct, origin_is_the_least_below, pair_is_of_the_last_action,
    provider_comes_first, refused_is_not_attained, rows_are_spelled, runs_stay_inside,
    selection_is_least, slots_are_demanded, standing_is_made_and_not_ended, version_1_demands_one,
    version_1_is_single, what_is_given_is_not_demanded, what_is_required_is_demanded,
};
pub use limits::{LONGEST_NAME, MOST_DEMANDED, MOST_PAIRS, MOST_PORTS, MOST_REQUIRED, MOST_STATES};
pub use names::{is_name, name_in, pair_names};
pub use reading::Reading;
pub use rows::{NeedRow, StateRow, TypeRow, rows_fit};
pub use universe::Universe;
