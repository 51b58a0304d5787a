//! The five actions on a configuration, and why one is refused.
#![tactic(auto)]

mod faults;
mod laws;
mod steps;
mod texts;

pub use faults::AFault;
pub use laws::{each_reason_comes_first, none_where_the_step_is_correct};
pub use steps::apply;
pub use texts::{fault_text, write_fault};
