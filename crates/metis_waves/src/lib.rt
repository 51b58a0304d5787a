//! Schedules of the actions of a list: when each starts at the earliest and at the latest, and the least time for all.
#![tactic(auto)]

mod chain;
mod durations;
mod earliest;
mod ends;
mod latest;
mod laws;
mod least;
mod wave_lists;

pub use durations::Durations;
pub use laws::{early_finish_is_never_late, schedule_order_is_kept, waves_are_unique};
pub use least::waves;
pub use wave_lists::{Starts, Waves};
