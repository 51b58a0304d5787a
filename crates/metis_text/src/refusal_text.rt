//! What the text of a refusal says.
use metis_ids::{Goal, PairSet};

/// A set of pairs, and the goal that it is said to lack.
#[derive(Drop)]
pub struct Refusal {
    pub lacks: Goal,
    pub pairs: PairSet,
}
