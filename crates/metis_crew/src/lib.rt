//! Who may act next: a crew with one actor for each instance, over actions and what they wait for.
#![tactic(auto)]

mod crew;
mod laws;
mod own_numbers;
mod row;
mod turn;

pub use crew::Crew;
pub use laws::{
    counts_are_what_was_done, did_is_done, done_is_kept, kept_is_did, some_turn_acts,
    turn_is_exact, turns_are_a_run,
};
pub use turn::Turn;
