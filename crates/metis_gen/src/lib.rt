//! Universes of any size up to 128 places, and their targets, for runs under load.
#![tactic(auto)]

mod generate;
mod laws;
mod names;
mod rows;

pub use generate::{targets_of, universe_of};
pub use laws::{
    closed_sets_hold_all, generated_has_tables, targets_are_attained, targets_are_last_states,
    targets_are_pairs,
};
