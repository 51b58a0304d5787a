//! Whether the instances of a plan's text are the life lines for its targets and its dups, each of these forced by a cycle.
#![tactic(auto)]

mod answers;
mod auditing;
mod cycles;
mod dups;
mod edges;
mod laws;
mod others;
mod walks;

pub use answers::Answer;
pub use auditing::audit;
pub use laws::{answers_are_one, justified_texts_double_few};
