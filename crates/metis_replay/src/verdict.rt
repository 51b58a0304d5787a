//! What a replay of actions came to.
use metis_actions::AFault;
use metis_ids::Goal;

/// What a replay of actions came to.
#[derive(Clone, Copy, PartialEq, Eq)]
pub enum Verdict {
    /// Each action was done, and the configuration holds the goals.
    Good,
    /// The number of the first action that was refused, counted from 1, and why.
    Bad(u32, AFault),
    /// Each action was done. The goal is the first that too few instances serve: how many do, and how many are wanted.
    Missing(Goal, u64, u64),
}
