//! The whole run of the program, over files and an output that are passed in.
#![tactic(auto)]

mod adapters;
mod commands;
mod laws;
mod program;
mod stop;
mod top;

pub use adapters::{headline_over_adapters, run_in_memory};
pub use laws::codes_tell_statuses;
pub use metis_output::Status;
pub use program::exit_code;
pub use top::run;
