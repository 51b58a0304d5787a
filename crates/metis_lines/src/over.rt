//! Life lines with what they stand on.
ghost use Rattle.std.specs.Prelude.{◌≡◌, ◌<◌, ◌≤◌, ◌+◌, length, nat_lt};
ghost use Rattle.std.specs.List.{slice_index_or};
ghost use Rattle.metis_support.specs.Terms.{IsSupport};
ghost use Rattle.metis_universe.specs.Terms.{IsTable};
ghost use Rattle.metis_lines.specs.Terms.{AreLines, IsOver, holder_of, line_at, over_of, slots};

use crate::lines::Lines;
use metis_ids::{LineIx, PairIx, StepIx};
use metis_support::Support;
use metis_universe::Universe;
use std::marker::Model;

/// Life lines with the support that they are over, and its universe.
#[derive(Drop)]
pub struct OverLines<'a> {
    universe: &'a Universe,
    support: &'a Support,
    lines: &'a Lines,
}

impl<'a> Model for OverLines<'a> {
    ghost use Rattle.metis_lines.specs.Over as model;

    ghost Value = { model.Over };

    ghost view = { λ o. model.over_of o.universe.now o.support.now o.lines.now };

    ghost invariant = { λ o. model.IsOver (model.over_of o.universe.now o.support.now o.lines.now) };
}

impl<'a> OverLines<'a> {
    /// The lines with what they are over.
    pub fn over(universe: &'a Universe, support: &'a Support, lines: &'a Lines) -> OverLines<'a>
        requires support { IsSupport universe.now support.now }
        requires lines { AreLines universe.now support.now lines.now }
        ensures { result ≡ over_of universe.now support.now lines.now }
    {
        OverLines {
            universe,
            support,
            lines,
        }
    }

    /// The universe.
    pub fn universe(&self) -> &'a Universe
        ensures { result.now ≡ self.now.universe }
    {
        self.universe
    }

    /// The support.
    pub fn support(&self) -> &'a Support
        ensures { result.now ≡ self.now.support }
    {
        self.support
    }

    /// The lines.
    pub fn lines(&self) -> &'a Lines
        ensures { result.now ≡ self.now.lines }
    {
        self.lines
    }

    /// How many lines there are.
    pub fn count(&self) -> u32
        ensures count { result ≡ length self.now.lines.lines }
        ensures few { length self.now.lines.lines ≤ 34256 }
    {
        self.lines.count()
    }

    /// The number of the line's last station.
    pub fn last(&self, l: LineIx) -> StepIx
        requires { l < length self.now.lines.lines }
        ensures last { result + 1 ≡ length (line_at self.now.lines l) }
        ensures short { result < 64 }
    {
        self.lines.last(l)
    }

    /// The pair of a station.
    pub fn station(&self, l: LineIx, j: StepIx) -> PairIx
        requires line { l < length self.now.lines.lines }
        requires station { j < length (line_at self.now.lines l) }
        ensures { result ≡ slice_index_or (line_at self.now.lines l) j 0 }
    {
        self.lines.station(l, j)
    }

    /// Whether the line is a target's.
    pub fn is_target(&self, l: LineIx) -> bool
        ensures { result ≡ nat_lt l (length self.now.lines.targets) }
    {
        self.lines.is_target(l)
    }

    /// How many slots a provider pair has; 0 where it is no provider pair.
    pub fn slots(&self, p: PairIx) -> u32
        ensures { result ≡ slots self.now.lines p }
    {
        self.lines.slots(p)
    }

    /// The line that is a slot of a provider pair, with the pair's station there; none where the pair has no such slot.
    pub fn holder(&self, p: PairIx, slot: u32) -> Option<(LineIx, StepIx)>
        ensures { result ≡ holder_of self.now.lines p slot }
    {
        self.lines.holder(p, slot)
    }

    /// Each is over the one before. A call does nothing when it runs: a proof that needs the fact makes it.
    pub fn keeps_invariant(&self)
        ensures table { IsTable self.now.universe }
        ensures over { IsOver self.now }
    {
        self.universe.keeps_invariant();
    }
}
