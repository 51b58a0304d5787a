//! Writes what `Lines` answers.
ghost use Rattle.std.specs.Prelude.{◌≡◌, ◌<◌, IsTrue, length, not};
ghost use Rattle.metis_universe.specs.Terms.{has};
ghost use Rattle.metis_lines.specs.Terms.{ends_in, is_loose, line_at};

use crate::lists::{put, put_number};
use crate::stop::Stop;
use metis_ids::{LineIx, PairIx, StepIx};
use metis_lines::Lines;
use metis_support::Support;

/// Writes the pairs of each line, where each provider pair is held, and how many of these are loose.
pub fn write_lines(text: &mut String, s: &Support, lines: &Lines) -> Result<(), Stop> {
    for number in 0..lines.count() {
        write_line(text, lines, LineIx(number))?;
    }
    for pair in s.provider_pairs() {
        write_holders(text, lines, *pair)?;
    }
    write_loose(text, lines.loose())
}

fn write_loose(text: &mut String, loose: u32) -> Result<(), Stop> {
    write!(text, "loose {loose}\n")?;
    Ok(())
}

fn write_line(text: &mut String, lines: &Lines, line: LineIx) -> Result<(), Stop>
    requires { line < length lines.now.lines }
{
    write_line_name(text, line.0, lines.is_target(line))?;
    let last = lines.last(line);
    for step in 0..last.0 + 1 {
        put_number(text, lines.station(line, StepIx(step)).0)?;
    }
    put(text, "\n")
}

fn write_line_name(text: &mut String, number: u32, target: bool) -> Result<(), Stop> {
    let of = if target { ", a target's" } else { "" };
    write!(text, "line {number}{of}:")?;
    Ok(())
}

// Writes where each slot of the pair is held.
fn write_holders(text: &mut String, lines: &Lines, pair: PairIx) -> Result<(), Stop> {
    for before in 0..lines.slots(pair) {
        write_slot(text, pair.0, before + 1)?;
        write_holder(text, lines, pair, before + 1)?;
    }
    Ok(())
}

// The first slot goes without its number.
fn write_slot(text: &mut String, pair: u32, slot: u32) -> Result<(), Stop> {
    if slot == 1 {
        write!(text, "pair {pair} is ")?;
    } else {
        write!(text, "pair {pair} slot {slot} is ")?;
    }
    Ok(())
}

fn write_holder(text: &mut String, lines: &Lines, pair: PairIx, slot: u32) -> Result<(), Stop> {
    match lines.holder(pair, slot) {
        Some((line, station)) => write_station(text, line.0, station.0),
        None => put(text, "not held\n"),
    }
}

fn write_station(text: &mut String, line: u32, station: u32) -> Result<(), Stop> {
    write!(text, "held at {line}.{station}\n")?;
    Ok(())
}

/// Whether the line that holds the provider pair goes on from it.
pub fn goes_on(lines: &Lines, pair: PairIx) -> bool
    ensures provider { IsTrue result → IsTrue (has lines.now.providers pair) }
    ensures loose { IsTrue result → IsTrue (is_loose lines.now pair) }
{
    match lines.holder(pair, 1) {
        Some((line, _)) if line.0 < lines.count() => ends_elsewhere(lines, line, pair),
        _ => false,
    }
}

// Whether the line ends in another pair.
fn ends_elsewhere(lines: &Lines, line: LineIx, pair: PairIx) -> bool
    requires { line < length lines.now.lines }
    ensures { result ≡ not (ends_in pair (line_at lines.now line)) }
{
    lines.station(line, lines.last(line)) != pair
}
