//! Whether the actions of a plan are a steadfast run, what they leave, and the line that says why not.
#![tactic(auto)]

mod steady;

pub use steady::{
    Followed, Unsteady, bad_line, check_steady, follow, replay_of, replayed, steady_waits,
    unsteady_answer,
};
