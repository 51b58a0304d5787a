//! Configurations: which instance is in which pair, and what is bound to what.
#![tactic(auto)]

mod bindings;
mod config;
mod crowd;
mod crowds;
mod ends;
mod lists;
mod met;
mod supply;

pub use bindings::Bindings;
pub use config::Config;
pub use ends::first_to;
pub use lists::{Instances, Ties};
