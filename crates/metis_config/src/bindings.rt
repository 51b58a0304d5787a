//! The bindings of a configuration, apart from its instances.
use crate::crowds::Crowds;
use metis_ids::{InstNo, PortIx};
use std::collections::BTreeSet;
use std::marker::Model;

/// The bindings of a configuration, apart from its instances.
#[derive(Drop)]
pub struct Bindings {
    pub(crate) ties: BTreeSet<(PortIx, InstNo, InstNo)>,
    pub(crate) clients: BTreeSet<(InstNo, InstNo, PortIx)>,
    pub(crate) crowds: Crowds,
}

impl Model for Bindings {
    ghost use Rattle.metis_config.specs.Kept as model;
    ghost use Rattle.metis_config.specs.Supply.{shares_in};

    ghost Value = { model.Bindings };

    ghost view = { λ b. record { ties = b.ties.keys; clients = b.clients.keys; crowds = shares_in b.crowds.map.entries } };
}
