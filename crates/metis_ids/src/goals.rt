//! What is asked for.
use crate::indices::{PairIx, PortIx};

/// What a target asks for: an instance in a pair, or one whose pair provides a port.
#[derive(Clone, Copy, PartialEq, Eq)]
pub enum Goal {
    Pair(PairIx),
    Port(PortIx),
}
