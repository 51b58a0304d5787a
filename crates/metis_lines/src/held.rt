//! Which line holds each provider pair, before any own pair has a line.
ghost use Rattle.std.specs.Prelude.{◌≡◌, ◌<◌, ◌≤◌, ◌^◌, ℕ, None, Some, length, map, replicate, IfOk, slice_set, if◌then◌else◌};
ghost use Rattle.std.specs.List.{All, filter, range_with_len, slice_index_or};
ghost use Rattle.std.specs.Option.{option_or};
ghost use Rattle.metis_universe.specs.Terms.{has};
ghost use Rattle.metis_lines.specs.Terms.{AreHeld, IsLineOf, ends_in, first_held, first_holder, goes_on, goes_through, held_by, on_line};

use crate::line::Line;
use metis_ids::{IxVec, LineIx, NoMemory, PairIx, StepIx};
use std::alloc::Global;

/// Where each pair is held: the provider pairs by the first line that ends in them, else by the first through them. It goes
/// twice over the lines.
pub fn first_holders(
    alloc: Global,
    pairs: u32,
    providers: &[PairIx],
    lines: &[Line],
) -> Result<IxVec<PairIx, Option<(LineIx, StepIx)>>, NoMemory>
    requires few { length lines.now < 2 ^ 32 }
    requires lines { All (IsLineOf pairs) lines.now }
    requires providers { All (λ p. p < pairs) providers.now }
    ensures { IfOk result (λ holders. holders ≡ map (first_holder lines.now providers.now) (range_with_len 0 pairs)) }
{
    let found = found_on(alloc, pairs, lines)?;
    let mut holders = unheld(alloc, pairs)?;
    copy_holders(&mut holders, &found, providers);
    Ok(holders)
}

// Copies the entries of these pairs.
fn copy_holders(
    holders: &mut IxVec<PairIx, Option<(LineIx, StepIx)>>,
    found: &IxVec<PairIx, Option<(LineIx, StepIx)>>,
    pairs: &[PairIx],
)
    requires { All (λ p. p < length holders.old) pairs.now }
    ensures size { length holders.new ≡ length holders.old }
    ensures copied { (p : ℕ) → slice_index_or holders.new p None ≡ (if has pairs.now p then slice_index_or found.now p None else slice_index_or holders.old p None) }
{
    for pair in pairs {
        holders.set(*pair, holder_in(found, *pair));
    }
}

// Where each pair is held by a line, whether it is a provider pair or not.
fn found_on(
    alloc: Global,
    pairs: u32,
    lines: &[Line],
) -> Result<IxVec<PairIx, Option<(LineIx, StepIx)>>, NoMemory>
    requires few { length lines.now < 2 ^ 32 }
    requires lines { All (IsLineOf pairs) lines.now }
    ensures { IfOk result (λ found. (p : ℕ) → slice_index_or found p None ≡ first_held lines.now p) }
{
    let mut found = unheld(alloc, pairs)?;
    note_ends(&mut found, lines);
    note_all(&mut found, lines);
    Ok(found)
}

// No pair of so many is held.
fn unheld(alloc: Global, pairs: u32) -> Result<IxVec<PairIx, Option<(LineIx, StepIx)>>, NoMemory>
    ensures { IfOk result (λ found. found ≡ replicate pairs None) }
{
    let mut found = IxVec::new(alloc);
    for _ in 0..pairs {
        found.push(None)?;
    }
    Ok(found)
}

// Notes for each pair in which lines end the first of these, where nothing is noted yet.
fn note_ends(found: &mut IxVec<PairIx, Option<(LineIx, StepIx)>>, lines: &[Line])
    requires few { length lines.now < 2 ^ 32 }
    requires lines { All (IsLineOf (length found.old)) lines.now }
    ensures size { length found.new ≡ length found.old }
    ensures noted { (p : ℕ) → slice_index_or found.new p None ≡ option_or (slice_index_or found.old p None) (held_by (ends_in p) lines.now p) }
{
    for number in 0..lines.len() {
        let line = &lines[number];
        let last = line.last();
        note(found, line.station(last), LineIx(number as u32), last);
    }
}

// Notes for each pair on lines the first of these, where nothing is noted yet.
fn note_all(found: &mut IxVec<PairIx, Option<(LineIx, StepIx)>>, lines: &[Line])
    requires few { length lines.now < 2 ^ 32 }
    requires lines { All (IsLineOf (length found.old)) lines.now }
    ensures { (p : ℕ) → slice_index_or found.new p None ≡ option_or (slice_index_or found.old p None) (held_by (goes_through p) lines.now p) }
{
    for number in 0..lines.len() {
        note_stations(found, LineIx(number as u32), &lines[number]);
    }
}

// Notes the line for each pair on it, where nothing is noted yet.
fn note_stations(found: &mut IxVec<PairIx, Option<(LineIx, StepIx)>>, number: LineIx, line: &Line)
    requires { All (λ p. p < length found.old) line.now }
    ensures size { length found.new ≡ length found.old }
    ensures noted { (p : ℕ) → slice_index_or found.new p None ≡ option_or (slice_index_or found.old p None) (on_line number line.now p) }
{
    for place in 0..line.count() {
        note(found, line.station(StepIx(place)), number, StepIx(place));
    }
}

// Notes where the pair is, where nothing is noted yet.
fn note(
    found: &mut IxVec<PairIx, Option<(LineIx, StepIx)>>,
    pair: PairIx,
    line: LineIx,
    place: StepIx,
)
    requires { pair < length found.old }
    ensures { found.new ≡ slice_set found.old pair (option_or (slice_index_or found.old pair None) (Some (line, place))) }
{
    let known = holder_in(found, pair);
    found.set(pair, known.or(Some((line, place))));
}

/// Where the pair is held in the table.
pub fn holder_in(
    holders: &IxVec<PairIx, Option<(LineIx, StepIx)>>,
    pair: PairIx,
) -> Option<(LineIx, StepIx)>
    ensures { result ≡ slice_index_or holders.now pair None }
{
    holders.get(pair).copied().flatten()
}

/// How many of the pairs are held by a line that goes on from them.
pub fn count_loose(
    providers: &[PairIx],
    lines: &[Line],
    holders: &IxVec<PairIx, Option<(LineIx, StepIx)>>,
) -> u32
    requires few { length providers.now ≤ 2000 }
    requires held { AreHeld holders.now lines.now }
    ensures { result ≡ length (filter (goes_on lines.now holders.now) providers.now) }
{
    let mut count = 0;
    for pair in providers {
        if goes_on(lines, holders, *pair) {
            count += 1;
        }
    }
    count
}

// Whether the pair is held by a line that goes on from it.
fn goes_on(lines: &[Line], holders: &IxVec<PairIx, Option<(LineIx, StepIx)>>, pair: PairIx) -> bool
    requires { AreHeld holders.now lines.now }
    ensures { result ≡ goes_on lines.now holders.now pair }
{
    match holder_in(holders, pair) {
        Some(held) => !lines[held.0.0 as usize].ends_in(pair),
        None => false,
    }
}
