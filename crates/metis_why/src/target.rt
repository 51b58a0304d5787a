//! A goal of a universe.
ghost use Rattle.metis_universe.specs.Terms.{IsGoalOf};
ghost use Rattle.metis_why.specs.Targets.{IsGoalOf-prop};

use metis_ids::Goal;
use metis_universe::Universe;

/// A goal whose pair or port is the universe's.
#[derive(Drop)]
pub struct Target<'a> {
    pub u: &'a Universe,
    pub goal: Goal,
    ghost of_universe: { IsGoalOf u.now goal } by { IsGoalOf-prop u.now goal },
}
