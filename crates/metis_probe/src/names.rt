//! Writes what names mean.
use crate::lists::{put, put_number};
use crate::stop::Stop;
use metis_ids::{PairIx, PortIx, TypeIx};
use metis_universe::Universe;

/// Writes what each word means in the universe: a pair, where it has a colon, and else a type and a port.
pub fn write_names(text: &mut String, u: &Universe, words: &[&str]) -> Result<(), Stop> {
    for word in words {
        put(text, word)?;
        write_meaning(text, u, word)?;
    }
    Ok(())
}

fn write_meaning(text: &mut String, u: &Universe, word: &str) -> Result<(), Stop> {
    match word.split_once(':') {
        Some((kind, state)) => write_pair(text, u.pair_named(kind, state))?,
        None => {
            write_type(text, u.type_named(word))?;
            write_port(text, u.port_named(word))?;
        }
    }
    put(text, "\n")
}

fn write_pair(text: &mut String, pair: Option<PairIx>) -> Result<(), Stop> {
    put(text, ": pair")?;
    match pair {
        Some(pair) => put_number(text, pair.0),
        None => put(text, " none"),
    }
}

fn write_type(text: &mut String, kind: Option<TypeIx>) -> Result<(), Stop> {
    put(text, ": type")?;
    match kind {
        Some(kind) => put_number(text, kind.0),
        None => put(text, " none"),
    }
}

fn write_port(text: &mut String, port: Option<PortIx>) -> Result<(), Stop> {
    put(text, ", port")?;
    match port {
        Some(port) => put_number(text, port.0),
        None => put(text, " none"),
    }
}
