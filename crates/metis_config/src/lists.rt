//! The instances and the bindings of a configuration, one by one.
ghost use Rattle.std.specs.Iterator.{YieldsFirst, item_count};

use metis_ids::{InstNo, PairIx, PortIx};
use std::collections::{btree_map, btree_set};
use std::marker::Model;

/// The instances that are still to come, each with its pair, ascending. Contracts see them as their list.
#[derive(Drop)]
pub struct Instances<'a> {
    pub(crate) rest: btree_map::Iter<'a, InstNo, PairIx>,
}

impl<'a> Model for Instances<'a> {
    ghost use Rattle.std.specs.Prelude.{List, ℕ};

    ghost Value = { List (ℕ × ℕ) };

    ghost view = { λ i. i.rest };
}

impl Iterator for Instances<'_> {
    type Item = (InstNo, PairIx);

    ghost next_gives = { YieldsFirst (λ i. i) };

    ghost remaining = { item_count (λ i. i) };

    fn next(&mut self) -> Option<(InstNo, PairIx)> {
        let (z, p) = self.rest.next()?;
        Some((*z, *p))
    }
}

/// The bindings that are still to come, each as its port, its requirer and its provider, ascending. Contracts see them as their list.
#[derive(Drop)]
pub struct Ties<'a> {
    pub(crate) rest: btree_set::Iter<'a, (PortIx, InstNo, InstNo)>,
}

impl<'a> Model for Ties<'a> {
    ghost use Rattle.std.specs.Prelude.{List};
    ghost use Rattle.metis_universe.specs.Config.{Binding};

    ghost Value = { List Binding };

    ghost view = { λ i. i.rest };
}

impl Iterator for Ties<'_> {
    type Item = (PortIx, InstNo, InstNo);

    ghost next_gives = { YieldsFirst (λ i. i) };

    ghost remaining = { item_count (λ i. i) };

    fn next(&mut self) -> Option<(PortIx, InstNo, InstNo)> {
        self.rest.next().copied()
    }
}
