//! The lines for the later slots of provider pairs.
ghost use Rattle.std.specs.Prelude.{◌≡◌, ◌<◌, ◌+◌, ◌-◌, ◌^◌, ◌++◌, length, map, replicate, IfOk, IsTrue, OnOk};
ghost use Rattle.std.specs.List.{flat_map, slice_index_or};
ghost use Rattle.metis_lines.specs.Terms.{AreSeconds};
ghost use Rattle.metis_support.specs.Terms.{is_selected, path_to, provider_pairs};

use crate::line::Line;
use metis_ids::{IxVec, NoMemory, PairIx};
use metis_support::{Support, count_in, filled};
use std::alloc::Global;

/// The lines for later slots: their pairs, and for each pair the number of its slot 2's line.
#[derive(Drop)]
pub struct LaterLines {
    pub pairs: Vec<PairIx>,
    pub seconds: IxVec<PairIx, u32>,
}

/// Appends a line for each slot from 2 on of each provider pair.
pub fn add_later_lines(
    alloc: Global,
    s: &Support,
    counts: &IxVec<PairIx, u32>,
    lines: &mut Vec<Line>,
) -> Result<LaterLines, NoMemory>
    requires few { length lines.old.items + length (flat_map (λ p. replicate (slice_index_or counts.now p 0 - 1) p) (provider_pairs s.now)) < 2 ^ 32 }
    ensures pairs { IfOk result (λ later. later.pairs.items ≡ flat_map (λ p. replicate (slice_index_or counts.now p 0 - 1) p) (provider_pairs s.now)) }
    ensures lines { OnOk result (lines.new.items ≡ lines.old.items ++ map (path_to s.now) (flat_map (λ p. replicate (slice_index_or counts.now p 0 - 1) p) (provider_pairs s.now))) }
    ensures seconds { IfOk result (λ later. AreSeconds (length lines.old.items) later.pairs.items later.seconds (provider_pairs s.now)) }
{
    // For the proof alone: what every support keeps.
    let _kept = s.selected();
    let mut pairs = Vec::new(alloc);
    let mut seconds = filled(alloc, s.selected().size(), 0)?;
    for pair in s.provider_pairs() {
        seconds.set(*pair, lines.len() as u32);
        let further = count_in(counts, *pair).saturating_sub(1);
        add_slots(alloc, s, *pair, further, lines, &mut pairs)?;
    }
    Ok(LaterLines { pairs, seconds })
}

// Appends as many lines to the pair.
fn add_slots(
    alloc: Global,
    s: &Support,
    pair: PairIx,
    number: u32,
    lines: &mut Vec<Line>,
    pairs: &mut Vec<PairIx>,
) -> Result<(), NoMemory>
    requires { IsTrue (is_selected s.now pair) }
    ensures lines { OnOk result (lines.new.items ≡ lines.old.items ++ replicate number (path_to s.now pair)) }
    ensures pairs { OnOk result (pairs.new.items ≡ pairs.old.items ++ replicate number pair) }
{
    for _ in 0..number {
        lines.push(Line::to(alloc, s, pair)?)?;
        pairs.push(pair)?;
    }
    Ok(())
}
