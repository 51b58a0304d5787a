//! Writes what the planner comes to, called as a library.
ghost use Rattle.std.specs.Prelude.{◌≤◌, ◌<◌, length};
ghost use Rattle.std.specs.List.{All};
ghost use Rattle.metis_universe.specs.Terms.{pair_count};

use crate::goals::targets_in;
use crate::stop::Stop;
use metis_ids::PairIx;
use metis_planner::{Outcome, plan};
use metis_universe::Universe;
use std::alloc::Global;

/// Writes how many instances, actions and dups the plan for the targets has, or how many pairs are attainable and which target is not
/// among them.
pub fn write_plan(
    alloc: Global,
    text: &mut String,
    u: &Universe,
    words: &[&str],
) -> Result<(), Stop> {
    let targets = targets_in(alloc, u, words)?;
    write_outcome(alloc, text, u, &targets)
}

fn write_outcome(
    alloc: Global,
    text: &mut String,
    u: &Universe,
    targets: &[PairIx],
) -> Result<(), Stop>
    requires few { length targets.now ≤ 256 }
    requires within { All (λ p. p < pair_count u.now) targets.now }
{
    match plan(alloc, u, targets)? {
        Outcome::Plan(made) => {
            let (instances, actions, dups) = (made.instances, made.actions.len(), made.dups.len());
            write!(
                text,
                "plan instances {instances} actions {actions} dups {dups}\n"
            )?;
        }
        Outcome::Closed(_pairs, lacks) => {
            let number = lacks.0;
            write!(text, "closed lacks pair {number}\n")?;
        }
    }
    Ok(())
}
