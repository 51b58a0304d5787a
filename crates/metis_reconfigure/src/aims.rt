//! What stands in the way, and else what is to be planned for.
ghost use Rattle.std.specs.Prelude.{◌<◌, ◌^◌, List, IfErr, IfOk, length};
ghost use Rattle.std.specs.List.{All};
ghost use Rattle.metis_config.specs.Terms.{IsOver};
ghost use Rattle.metis_ids.specs.declared.goals.Goal.{Goal};
ghost use Rattle.metis_universe.specs.Terms.{IsGoalOf};
ghost use Rattle.metis_reconfigure.specs.Terms.{AreAimsOf, IsBar, IsGroundOf};

use crate::answer::{Bar, Obstacle};
use crate::avoiding::{avoided_of, unavoidable};
use crate::giving::{given_of, what_is_left};
use crate::leaving::{first_absent, first_firm_leaving, least_root_under, leaving_of};
use crate::missing::missing_of;
use crate::rebinding::rebound_in;
use crate::request::Request;
use crate::targets::{Sources, Targets, targets_of};
use crate::wished::{kept_set, rebound_set};
use metis_completion::Given;
use metis_config::Config;
use metis_ids::{InstNo, PairIx, PairSet};
use metis_layers::table::Layers;
use metis_layers::table::counted::layers;
use metis_universe::Universe;
use metis_wishes::Wish;
use std::alloc::Global;
use std::collections::BTreeSet;

/// What stands, by what is wished of it.
#[derive(Drop)]
pub struct Ground {
    pub avoided: PairSet,
    /// The instances that may be bound anew.
    pub free: BTreeSet<InstNo>,
    pub leaving: BTreeSet<InstNo>,
    /// The settled providers of each port.
    pub given: Given,
}

/// What is to be planned for, and over which universe.
#[derive(Drop)]
pub struct Aims {
    /// What is left to plan over, and its layers.
    pub left: Universe,
    pub layers: Layers,
    pub targets: Vec<PairIx>,
    /// The instances that may be bound anew and stand, ascending.
    pub rebound: Vec<InstNo>,
}

/// What is wished of what stands. In the way are the first named instance that does not stand, and the first that is to stay or may be
/// bound anew and leaves.
pub fn settle(alloc: Global, u: &Universe, c: &Config, wishes: &[Wish]) -> Result<Ground, Bar>
    requires { IsOver u.now c.now }
    ensures ground { IfOk result (IsGroundOf u.now wishes.now c.now) }
    ensures obstacle { (goals : List Goal) → IfErr result (IsBar u.now wishes.now c.now goals) }
{
    if let Some(z) = first_absent(c, wishes) {
        return Err(Bar::Obstacle(Obstacle::Absent(z)));
    }
    let avoided = avoided_of(alloc, u, wishes)?;
    let free = rebound_set(alloc, wishes)?;
    let leaving = leaving_of(alloc, u, c, wishes, &avoided, &free)?;
    let kept = kept_set(alloc, wishes)?;
    if let Some(z) = first_firm_leaving(wishes, &kept, &free, &leaving.all) {
        let y = least_root_under(alloc, u, c, &leaving, &free, z)?;
        return Err(Bar::Obstacle(Obstacle::Kept(z, y)));
    }
    let given = given_of(alloc, u, c, &leaving.all)?;
    Ok(Ground {
        avoided,
        free,
        leaving: leaving.all,
        given,
    })
}

/// What is to be planned for. In the way are the first missing goal that is unavoidable, the first port that is short and has no
/// provider, and more than 256 targets.
pub fn aim(
    alloc: Global,
    u: &Universe,
    c: &Config,
    ground: &Ground,
    request: &Request,
) -> Result<Aims, Bar>
    requires over { IsOver u.now c.now }
    requires few { length c.now.instances < 2 ^ 32 }
    requires ground { IsGroundOf u.now request.now.wishes.now c.now ground.now }
    requires within { All (IsGoalOf u.now) request.now.goals.now }
    ensures aims { IfOk result (AreAimsOf u.now request.now.wishes.now c.now ground.now request.now.goals.now) }
    ensures obstacle { IfErr result (IsBar u.now request.now.wishes.now c.now request.now.goals.now) }
{
    let left = what_is_left(alloc, u, &ground.given, &ground.avoided)?;
    let layers = layers(alloc, &left)?;
    let missing = missing_of(alloc, u, c, &ground.leaving, request.goals)?;
    if let Some(goal) = unavoidable(u, request.wishes, &layers, &missing) {
        return Err(Bar::Obstacle(Obstacle::Unavoidable(goal)));
    }
    let rebound = rebound_in(alloc, c, &ground.free)?;
    let sources = Sources {
        given: &ground.given,
        layers: &layers,
    };
    match targets_of(alloc, u, c, &sources, &rebound, &missing)? {
        Targets::Unmet(z, port) => Err(Bar::Obstacle(Obstacle::Unmet(z, port))),
        Targets::Pairs(targets) => {
            if targets.len() > 256 {
                return Err(Bar::Obstacle(Obstacle::Needs(targets.len() as u64)));
            }
            Ok(Aims {
                left,
                layers,
                targets,
                rebound,
            })
        }
    }
}
