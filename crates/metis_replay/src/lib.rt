//! Actions done one after the other from the empty configuration, and what they came to.
#![tactic(auto)]

mod lacking;
mod laws;
mod replay;
mod verdict;

pub use lacking::shortage;
pub use laws::{replay_is_exact, replay_keeps_what_was_done};
pub use replay::Replay;
pub use verdict::Verdict;
