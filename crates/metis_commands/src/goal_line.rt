//! A line that names a goal.
ghost use Rattle.std.specs.Prelude.{◌≡◌, IfOk, string_bytes};
ghost use Rattle.metis_commands.specs.Terms.{word_line};
ghost use Rattle.metis_universe.specs.Terms.{IsGoalOf, goal_word};

use metis_ids::Goal;
use metis_universe::Universe;
use std::alloc::{AllocError, Global};

/// A word, and then the goal's.
pub fn goal_line(alloc: Global, u: &Universe, start: &str, goal: Goal) -> Result<String, AllocError>
    requires { IsGoalOf u.now goal }
    ensures { IfOk result (λ line. string_bytes line ≡ word_line start.now (goal_word u.now goal)) }
{
    let (kind, name) = u.goal_names(goal);
    format!(in alloc; "{start} {kind}:{name}\n")
}
