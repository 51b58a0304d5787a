//! What is asked of a reconfiguration.

use metis_ids::Goal;
use metis_wishes::Wish;

/// What is wanted, and what is wished of the instances that stand.
#[derive(Clone, Copy)]
pub struct Request<'a> {
    pub goals: &'a [Goal],
    pub wishes: &'a [Wish],
}
