//! Checks a set of pairs that is claimed to be closed and to lack a goal.
#![tactic(auto)]

mod check;
mod supply;
mod verdict;

pub use check::check_closed;
pub use verdict::Verdict2;
