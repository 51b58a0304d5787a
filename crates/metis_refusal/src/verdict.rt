//! What a claim that a set of pairs is closed comes to.
use metis_ids::{Goal, PairIx};

/// What a claim comes to that a set of pairs is closed and lacks a goal. The set is closed where it has each free pair, and
/// each pair to which a move leads from one of its own, where pairs of the set provide each port that is required there.
#[derive(Clone, Copy, PartialEq, Eq)]
pub enum Verdict2 {
    /// The set is closed, and the goal is the first that it lacks, a pair that is not in it or a port that no pair of it
    /// provides: no list of actions attains the goals.
    Closed(Goal),
    /// The pair is the least free one that the set lacks.
    NotFree(PairIx),
    /// The set has each free pair, but a move leads from the first pair, which it has, to the second, which it lacks. The first
    /// is the least, and the second the least for it.
    Open(PairIx, PairIx),
    /// The set is closed, and lacks none of the goals.
    LacksNone,
}
