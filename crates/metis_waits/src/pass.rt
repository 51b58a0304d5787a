//! One pass over a list of actions.
ghost use Rattle.std.specs.Prelude.{◌<◌, ◌-◌, ◌^◌, IfOk, IsTrue, MatchOption, length};
ghost use Rattle.std.specs.List.{All};
ghost use Rattle.metis_universe.specs.Terms.{IsOf, is_steadfast};
ghost use Rattle.metis_waits.specs.Terms.{AreWaits, IfLoose, IsFirstLoose};

use crate::fault::WFault;
use crate::judged::Judged;
use crate::summary::Summary;
use crate::wait_lists::Waits;
use metis_ids::{Action, NoMemory};
use metis_universe::Universe;
use std::alloc::Global;

/// What each action of the list waits for, where the list is steadfast; else the first action that is not.
/// The actions are numbered from 1.
pub fn waits(alloc: Global, u: &Universe, actions: &[Action]) -> Result<Waits, WFault>
    requires numbers { All (IsOf u.now) actions.now }
    requires few { length actions.now < 2 ^ 32 - 1 }
    ensures waits { IfOk result (λ w. AreWaits actions.now w) }
    ensures steadfast { IfOk result (λ _. IsTrue (is_steadfast u.now actions.now)) }
    ensures loose { IfLoose result (IsFirstLoose u.now actions.now) }
{
    let judged = Judged::new(alloc, u).go_on(alloc, u, actions)?;
    Ok(judged.into_waits())
}

/// The number of the first action that is not steadfast, if there is one. The actions are numbered from 1. It keeps no waits, so a
/// caller who needs none pays for none.
pub fn first_loose(alloc: Global, u: &Universe, actions: &[Action]) -> Result<Option<u32>, NoMemory>
    requires numbers { All (IsOf u.now) actions.now }
    requires few { length actions.now < 2 ^ 32 - 1 }
    ensures { IfOk result (λ k. MatchOption k (IsTrue (is_steadfast u.now actions.now)) (IsFirstLoose u.now actions.now)) }
{
    let mut summary = Summary::new(alloc, u);
    for index in 0..actions.len() {
        let (earlier, action) = (&actions[..index], &actions[index]);
        if !summary.is_steadfast(u, earlier, action) {
            return Ok(Some(index as u32 + 1));
        }
        summary.add(alloc, u, earlier, action)?;
    }
    Ok(None)
}
