//! What an audit answers.
use metis_ids::PairIx;

/// What is wrong with the text of a plan for its targets, or that nothing is. The first thing in this order is told:
/// a target that is not attainable; the number of a dup that its cycle does not justify; how many instances are made, and how
/// many there should be; a line that its instance does not follow; the number of an action that is not steadfast; the number
/// of an action behind which other waits stand than its own.
#[derive(Clone, Copy, PartialEq, Eq)]
pub enum Answer {
    Justified,
    NotAttained(PairIx),
    NoCycle(u32),
    Count(u32, u32),
    Path(u32),
    Loose(u32),
    After(u32),
}
