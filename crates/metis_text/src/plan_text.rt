//! What the text of a plan says.
use metis_ids::Plan;

/// A plan, and for each of its actions the numbers of the other actions that it waits for, counted from 1.
#[derive(Debug, Drop)]
pub struct PlanText {
    pub plan: Plan,
    pub after: Vec<Vec<u32>>,
}
