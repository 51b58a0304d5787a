//! Rounds over the events of life lines, each of which goes on where the last one stopped.
#![tactic(auto)]

mod course;
mod doubled;
mod event_table;
mod going;
mod laws;
mod least;
mod returns;
mod rounds;
mod tables;
mod uses;
mod walk;
mod walk_laws;
mod walking;

pub use laws::{
    ended_rounds_have_no_cycle, next_round_is_safe, own_line_only_frees, own_lines_only_free,
    own_pairs_have_own_lines, own_pairs_move_supplies, stopped_rounds_have_a_cycle,
    stopped_rounds_leave_the_stuck, stuck_events_are_the_greatest,
    stuck_numbers_are_of_stuck_events, stuck_twins_were_stuck, taking_is_safe,
    what_follows_is_stuck,
};
pub use rounds::{Round, Rounds, StuckRounds};
pub use walk_laws::{own_line_keeps_first_steps, walks_close_to_the_cycle, what_is_kept_is_a_walk};
