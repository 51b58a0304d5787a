//! The answers of the commands that plan, a file for each: a plan for goals or a refusal of them, a rollout, a reconfiguration, and the
//! plan for a generated universe.
#![tactic(auto)]

mod laws;
pub mod load;
mod old;
pub mod plan;
mod planned;
pub mod reconfigure;
pub mod rollout;

pub use laws::printed_plans_are_justified;
pub use planned::Planned;
