//! The actions of a plan that was carried out.
ghost use Rattle.std.specs.Prelude.{◌≡◌, ◌<◌, ◌^◌, IfErr, IfOk, length};
ghost use Rattle.std.specs.List.{All};
ghost use Rattle.metis_plan_commands.specs.Terms.{IsOld};
ghost use Rattle.metis_steady.specs.Terms.{IsUnsteady};
ghost use Rattle.metis_universe.specs.Terms.{IsOf};

use metis_config::Config;
use metis_ids::Action;
use metis_steady::{Followed, Unsteady, follow};
use metis_universe::Universe;
use metis_waits::{Judged, WFault};
use std::alloc::Global;

/// The old actions, with what they leave, and judged.
#[derive(Drop)]
pub struct Old<'a> {
    pub actions: &'a [Action],
    pub left: Config,
    pub judged: Judged,
}

/// The old actions, if they are a steadfast run.
pub fn old_of<'a>(alloc: Global, u: &Universe, old: &'a [Action]) -> Result<Old<'a>, Unsteady>
    requires numbers { All (IsOf u.now) old.now }
    requires short { length old.now < 2 ^ 28 }
    ensures old { IfOk result (λ o. IsOld u.now old.now o.left o.judged) }
    ensures same { IfOk result (λ o. o.actions.now ≡ old.now) }
    ensures steady { IfErr result (IsUnsteady u.now old.now) }
{
    match follow(alloc, u, old) {
        Ok(Followed::Left(left)) => match Judged::new(alloc, u).go_on(alloc, u, old) {
            Ok(judged) => Ok(Old {
                actions: old,
                left,
                judged,
            }),
            Err(WFault::Loose(number)) => Err(Unsteady::Loose(number)),
            Err(WFault::NoMemory) => Err(Unsteady::NoMemory),
        },
        Ok(Followed::Bad(number, fault)) => Err(Unsteady::Bad(number, fault)),
        Err(_) => Err(Unsteady::NoMemory),
    }
}
