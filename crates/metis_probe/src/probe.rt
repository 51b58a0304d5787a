//! Makes the probes of a file, line by line.
use crate::graphs::write_sorting;
use crate::layers::write_layers;
use crate::names::write_names;
use crate::plans::write_plan;
use crate::reasons::{write_reason_count, write_reasons};
use crate::rounds::{write_counts, write_rounds};
use crate::stop::Stop;
use crate::tables::write_tables;
use crate::waits::write_waits;
use crate::writers::{Writer, write_call, writer_of};
use metis_ujson::read_universe;
use metis_universe::Universe;
use std::fs;
use std::rt::Files;

/// Makes the probes of the file of this name, one a line. Empty lines and those that begin with `#` are only printed.
pub fn probe_file<R: Files + Print + AllocGlobal>(rt: &R, name: &str) -> Result<(), Stop> {
    let text = fs::read_to_string(rt, name)?;
    for line in text.lines() {
        probe_line(rt, line)?;
    }
    Ok(())
}

fn probe_line<R: Files + Print + AllocGlobal>(rt: &R, line: &str) -> Result<(), Stop> {
    if line.is_empty() || line.starts_with('#') {
        println!(rt; "{line}")?;
        return Ok(());
    }
    println!(rt; "$ {line}")?;
    let mut text = String::new(rt.alloc());
    write_words(rt, &mut text, line)?;
    print!(rt; "{text}")?;
    Ok(())
}

fn write_words<R: Files + AllocGlobal>(rt: &R, text: &mut String, line: &str) -> Result<(), Stop> {
    let words: Vec<&str> = line.split(' ').collect(rt.alloc())?;
    write_probe(rt, text, &words)
}

// The first word says what is written. The second is the file of the universe, but for a plain graph.
fn write_probe<R: Files + AllocGlobal>(
    rt: &R,
    text: &mut String,
    words: &[&str],
) -> Result<(), Stop> {
    let [verb, file, rest @ ..] = words else {
        return Err(Stop::NoProbe);
    };
    if *verb == "sort" {
        return write_sorting(rt.alloc(), text, &words[1..]);
    }
    let kind = kind_of(verb).ok_or(Stop::NoProbe)?;
    let universe = universe_in(rt, file)?;
    write_kind(rt, text, &universe, kind, rest)
}

// What a probe writes.
#[derive(Clone, Copy)]
enum Kind {
    Tables,
    Names,
    Layers,
    Waits,
    Reasons,
    ReasonCount,
    Rounds,
    Counts,
    Plan,
    Call(Writer),
}

fn kind_of(verb: &str) -> Option<Kind> {
    match verb {
        "universe" => Some(Kind::Tables),
        "names" => Some(Kind::Names),
        "layers" => Some(Kind::Layers),
        "waits" => Some(Kind::Waits),
        "why" => Some(Kind::Reasons),
        "count-why" => Some(Kind::ReasonCount),
        "rounds" => Some(Kind::Rounds),
        "graph" => Some(Kind::Counts),
        "plan" => Some(Kind::Plan),
        _ => writer_of(verb).map(Kind::Call),
    }
}

fn write_kind<R: Files + AllocGlobal>(
    rt: &R,
    text: &mut String,
    u: &Universe,
    kind: Kind,
    rest: &[&str],
) -> Result<(), Stop> {
    let alloc = rt.alloc();
    match kind {
        Kind::Tables => write_tables(text, u),
        Kind::Names => write_names(text, u, rest),
        Kind::Layers => write_layers(alloc, text, u),
        Kind::Waits => write_waits(rt, text, u, first_of(rest)?),
        Kind::Reasons => write_reasons(alloc, text, u, first_of(rest)?),
        Kind::ReasonCount => write_reason_count(alloc, text, u, first_of(rest)?),
        Kind::Rounds => write_rounds(alloc, text, u, rest),
        Kind::Counts => write_counts(alloc, text, u, rest),
        Kind::Plan => write_plan(alloc, text, u, rest),
        Kind::Call(writer) => write_call(rt, text, u, writer, rest),
    }
}

// The one word that is asked for.
fn first_of<'a>(words: &[&'a str]) -> Result<&'a str, Stop> {
    words.first().copied().ok_or(Stop::NoProbe)
}

fn universe_in<R: Files + AllocGlobal>(rt: &R, file: &str) -> Result<Universe, Stop> {
    let bytes = fs::read(rt, file)?;
    match read_universe(rt.alloc(), &bytes) {
        Ok(universe) => Ok(universe),
        Err(_) => Err(Stop::NoUniverse),
    }
}
