//! Plans.
use crate::{Action, Event, PairIx};
use std::marker::Model;

/// A pair whose instances had to be doubled, and the cycle of events that forced it.
#[derive(Debug, Drop)]
pub struct Dup {
    pub pair: PairIx,
    pub cycle: Vec<Event>,
}

impl Model for Dup {
    ghost use Rattle.metis_ids.specs.Plans.{Dup};

    ghost Value = { Dup };

    ghost view = { λ d. record { pair = d.pair; cycle = d.cycle.items } };
}

/// The actions of a plan in their order, what was doubled, and how many instances there are.
#[derive(Debug, Drop)]
pub struct Plan {
    pub actions: Vec<Action>,
    pub dups: Vec<Dup>,
    pub instances: u32,
}

impl Model for Plan {
    ghost use Rattle.metis_ids.specs.Plans.{Plan};

    ghost Value = { Plan };

    ghost view = { λ p. record { actions = p.actions.items; dups = p.dups.items; instances = p.instances } };
}
