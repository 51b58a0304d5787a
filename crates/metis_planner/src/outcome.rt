//! What the planner finds.
use metis_ids::{PairIx, PairSet, Plan};

/// What is said of a list of targets.
#[derive(Drop)]
pub enum Outcome {
    /// A plan that attains the targets.
    Plan(Plan),
    /// The attainable pairs, and the first target that is not among them.
    Closed(PairSet, PairIx),
}
