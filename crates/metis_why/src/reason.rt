//! What keeps a pair from being attained.
use metis_ids::{Goal, PairIx, PortIx};

/// What keeps a pair from being attained.
#[derive(Clone, Copy, PartialEq, Eq)]
pub enum Reason {
    /// It requires the port, and waits for each pair that provides it.
    Needs(PortIx),
    /// No instance is made in it, and it waits for each pair from which a move leads to it.
    Comes,
}

/// A pair, and what keeps it from being attained.
#[derive(Clone, Copy, PartialEq, Eq)]
pub struct Line {
    pub pair: PairIx,
    pub reason: Reason,
}

/// Why a goal is never attained, line by line.
#[derive(Drop)]
pub struct Explanation {
    /// The goal.
    pub lacks: Goal,
    pub lines: Vec<Line>,
}
