//! The line of a target of which there are too few instances.
ghost use Rattle.std.specs.Prelude.{◌≡◌, IfOk, string_bytes};
ghost use Rattle.metis_universe.specs.Terms.{IsGoalOf, goal_word};
ghost use Rattle.metis_tokens.specs.Terms.{missing_line};

use metis_ids::Goal;
use metis_universe::Universe;
use std::alloc::{AllocError, Global};

/// The line of a goal that so many instances serve, where so many are wanted.
pub fn missing_line(
    alloc: Global,
    u: &Universe,
    goal: Goal,
    have: u64,
    want: u64,
) -> Result<String, AllocError>
    requires { IsGoalOf u.now goal }
    ensures { IfOk result (λ line. string_bytes line ≡ missing_line (goal_word u.now goal) have want) }
{
    let (kind, name) = u.goal_names(goal);
    format!(in alloc; "missing {kind}:{name} have {have} want {want}\n")
}
