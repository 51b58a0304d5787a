//! Life lines.
ghost use Rattle.std.specs.Prelude.{ℕ, ◌≡◌, ◌<◌, ◌≤◌, ◌+◌, ◌++◌, ◌∷◌, [], length, IfOk, OnOk, OnErr, IsTrue, nat_lt};
ghost use Rattle.std.specs.List.{slice_index_or};
ghost use Rattle.metis_support.specs.Terms.{IsSupport, is_selected};
ghost use Rattle.metis_universe.specs.Terms.{Universe as Model, has};
ghost use Rattle.metis_lines.specs.Terms.{AreLines, holder_of, is_loose, line_at, lines_of, loose, slots};

use crate::first::first_lines;
use crate::held::{count_loose, first_holders, holder_in};
use crate::line::Line;
use crate::slots::add_later_lines;
use metis_ids::{IxVec, LineIx, NoMemory, PairIx, StepIx};
use metis_support::{Support, count_in, slot_counts};
use metis_universe::Universe;
use std::alloc::Global;
use std::marker::Model;

/// The life lines for targets and own pairs, and which of them is each slot of each provider pair.
#[derive(Drop)]
pub struct Lines {
    lines: Vec<Line>,
    targets: Vec<PairIx>,
    own: Vec<PairIx>,
    providers: Vec<PairIx>,
    /// The pairs of the lines for later slots.
    later: Vec<PairIx>,
    /// Where slot 1 of each pair is, by pair.
    holders: IxVec<PairIx, Option<(LineIx, StepIx)>>,
    /// How many slots each pair has, by pair.
    counts: IxVec<PairIx, u32>,
    /// Which line is slot 2 of each pair, by pair.
    seconds: IxVec<PairIx, u32>,
    loose: u32,
}

impl Model for Lines {
    ghost use Rattle.metis_lines.specs.LifeLines as model;
    ghost use Rattle.metis_lines.specs.Tables.{IsTabled};

    ghost Value = { model.LifeLines };

    ghost view = { λ a. model.lines_by a.lines.items a.targets.items a.own.items a.providers.items a.later.items };

    ghost invariant = { λ a. IsTabled (model.lines_by a.lines.items a.targets.items a.own.items a.providers.items a.later.items) a.holders a.counts a.seconds a.loose };
}

impl Lines {
    /// The lines for selected targets, and no own pairs. It goes once over the selected pairs and what they require, and twice
    /// over their lines.
    pub fn new(
        alloc: Global,
        u: &Universe,
        s: &Support,
        targets: &[PairIx],
    ) -> Result<Lines, NoMemory>
        requires support { IsSupport u.now s.now }
        requires selected { (p : ℕ) → IsTrue (has targets.now p) → IsTrue (is_selected s.now p) }
        requires few { length targets.now ≤ 256 }
        ensures lines { IfOk result (λ x. x ≡ lines_of u.now s.now targets.now []) }
        ensures are { IfOk result (AreLines u.now s.now) }
    {
        u.keeps_invariant();
        let selected = s.selected();
        // For the proof alone: a set has no more members than its size.
        let _count = selected.count();
        let mut lines = first_lines(alloc, s, targets)?;
        let providers = Vec::from_slice(alloc, s.provider_pairs())?;
        let holders = first_holders(alloc, selected.size(), &providers, &lines)?;
        let loose = count_loose(&providers, &lines, &holders);
        let counts = slot_counts(alloc, u, s)?;
        let later = add_later_lines(alloc, s, &counts, &mut lines)?;
        let targets = Vec::from_slice(alloc, targets)?;
        Ok(Lines {
            lines,
            targets,
            own: Vec::new(alloc),
            providers,
            later: later.pairs,
            holders,
            counts,
            seconds: later.seconds,
            loose,
        })
    }

    /// How many lines there are.
    pub fn count(&self) -> u32
        ensures count { result ≡ length self.now.lines }
        ensures few { length self.now.lines ≤ 34256 }
    {
        // For the proof alone: to name a field is to open the invariant.
        let _table = &self.holders;
        self.lines.len() as u32
    }

    /// The number of the line's last station.
    pub fn last(&self, l: LineIx) -> StepIx
        requires { l < length self.now.lines }
        ensures last { result + 1 ≡ length (line_at self.now l) }
        ensures short { result < 64 }
    {
        self.lines[l.0 as usize].last()
    }

    /// The pair of a station.
    pub fn station(&self, l: LineIx, j: StepIx) -> PairIx
        requires line { l < length self.now.lines }
        requires station { j < length (line_at self.now l) }
        ensures { result ≡ slice_index_or (line_at self.now l) j 0 }
    {
        self.lines[l.0 as usize].station(j)
    }

    /// Whether the line is a target's.
    pub fn is_target(&self, l: LineIx) -> bool
        ensures { result ≡ nat_lt l (length self.now.targets) }
    {
        (l.0 as usize) < self.targets.len()
    }

    /// The pairs that have a line of their own.
    pub fn own(&self) -> &[PairIx]
        ensures { result.now ≡ self.now.own }
    {
        self.own.as_slice()
    }

    /// How many slots a provider pair has: as many as a selected pair demands of a port that is taken from it; 0 where it is no
    /// provider pair.
    pub fn slots(&self, p: PairIx) -> u32
        ensures { result ≡ slots self.now p }
    {
        // For the proof alone: to name a field is to open the invariant.
        let _lines = &self.lines;
        count_in(&self.counts, p)
    }

    /// The line that is a slot of a provider pair, with the pair's station there; none where the pair has no such slot. Slots
    /// are numbered from 1.
    pub fn holder(&self, p: PairIx, slot: u32) -> Option<(LineIx, StepIx)>
        ensures { result ≡ holder_of self.now p slot }
    {
        if slot == 0 || slot > self.slots(p) {
            return None;
        }
        if slot == 1 {
            return holder_in(&self.holders, p);
        }
        let line = LineIx(count_in(&self.seconds, p) + (slot - 2));
        Some((line, self.last(line)))
    }

    /// How many provider pairs have as slot 1 a line that goes on from them.
    pub fn loose(&self) -> u32
        ensures { result ≡ loose self.now }
    {
        // For the proof alone: to name a field is to open the invariant.
        let _lines = &self.lines;
        self.loose
    }

    /// Gives a provider pair a line of its own as slot 1, where the line that is it so far goes on from there, and answers that
    /// line. One pair less is then held so. Where memory runs out the lines stay as they were.
    pub fn own_line(&mut self, alloc: Global, s: &Support, p: PairIx) -> Result<LineIx, NoMemory>
        requires lines { (u : Model) × AreLines u s.now self.old }
        requires provider { IsTrue (has self.old.providers p) }
        requires loose { IsTrue (is_loose self.old p) }
        ensures line { IfOk result (λ l. l ≡ length self.old.lines) }
        ensures own { OnOk result ((u : Model) → AreLines u s.now self.old → self.new ≡ lines_of u s.now self.old.targets (self.old.own ++ p ∷ [])) }
        ensures lines { OnOk result ((u : Model) → AreLines u s.now self.old → AreLines u s.now self.new) }
        ensures loose { OnOk result (loose self.new + 1 ≡ loose self.old) }
        ensures err { OnErr result (self.new ≡ self.old) }
    {
        // For the proof alone: what every support keeps.
        let _kept = s.selected();
        let line = Line::to(alloc, s, p)?;
        let number = LineIx(self.lines.len() as u32);
        let last = line.last();
        push_both(&mut self.lines, line, &mut self.own, p)?;
        self.holders.set(p, Some((number, last)));
        self.loose -= 1;
        Ok(number)
    }
}

// Appends the line and its pair, or neither.
fn push_both(
    lines: &mut Vec<Line>,
    line: Line,
    own: &mut Vec<PairIx>,
    p: PairIx,
) -> Result<(), NoMemory>
    ensures lines { OnOk result (lines.new.items ≡ lines.old.items ++ line ∷ []) }
    ensures own { OnOk result (own.new.items ≡ own.old.items ++ p ∷ []) }
    ensures no_lines { OnErr result (lines.new.items ≡ lines.old.items) }
    ensures no_own { OnErr result (own.new.items ≡ own.old.items) }
{
    own.push(p)?;
    if lines.push(line).is_err() {
        own.pop();
        return Err(NoMemory);
    }
    Ok(())
}
