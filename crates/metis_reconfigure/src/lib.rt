//! From what stands to what is wished and wanted: what leaves, what is settled, and what stays.
#![tactic(auto)]

mod aims;
mod answer;
mod avoiding;
mod edges;
mod giving;
mod goal_laws;
mod laws;
mod leaving;
mod missing;
mod reach;
mod rebinding;
mod reconfiguring;
mod request;
mod staying;
mod targets;
mod use_laws;
mod wished;

pub use answer::{Obstacle, Reconfigured};
pub use avoiding::{avoided_of, unavoidable};
pub use edges::{dependents_of, holds_up_of, leads_up_of};
pub use goal_laws::{
    attained_goals_are_answered_where_nothing_is_avoided, few_instances_are_made,
    new_instances_stay_within_what_is_left_to_plan, nothing_is_done_for_nothing,
    the_goals_are_held_in_the_end, where_all_leaves_it_is_a_rollout,
    where_nothing_stands_it_is_the_plan,
};
pub use laws::{
    a_reconfiguration_ends_in_what_stays, a_reconfiguration_is_a_steadfast_run,
    a_reconfiguration_is_of_the_universe, a_reconfiguration_is_short, a_reconfiguration_is_tidy,
    guarded_reconfiguration_goes_on, guarded_reconfiguration_never_lacks,
    no_new_bind_goes_to_what_is_avoided, old_and_fresh_and_rebound_stand_together,
    the_kept_are_left_alone, the_kept_never_fall, what_a_kept_instance_stands_on_stays,
    what_is_given_stands_and_is_settled, what_is_wished_stays, what_stays_is_served_by_what_stays,
};
pub use missing::missing_of;
pub use reach::{Edge, reached};
pub use reconfiguring::reconfigure;
pub use request::Request;
pub use targets::{Sources, Targets, lack_of, targets_of};
pub use use_laws::{
    a_goal_is_missing_where_too_few_serve_it, each_line_is_kept,
    the_unmet_wants_more_than_there_are, what_is_made_takes_what_serves, what_serves_is_given,
};
pub use wished::{kept_set, rebound_set, retired_set};
