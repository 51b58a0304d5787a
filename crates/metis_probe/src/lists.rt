//! Writes words, numbers and lists.
use crate::stop::Stop;
use metis_ids::{PairIx, PortIx};

/// Writes the words.
pub fn put(text: &mut String, words: &str) -> Result<(), Stop> {
    text.push_str(words)?;
    Ok(())
}

/// Writes the number, behind a space.
pub fn put_number(text: &mut String, number: u32) -> Result<(), Stop> {
    write!(text, " {number}")?;
    Ok(())
}

/// Writes that there are none, where that is so.
pub fn put_none(text: &mut String, is_none: bool) -> Result<(), Stop> {
    if is_none {
        return put(text, " none");
    }
    Ok(())
}

/// Writes the numbers, each behind a space, or that there are none.
pub fn write_numbers(text: &mut String, numbers: &[u32]) -> Result<(), Stop> {
    for number in numbers {
        put_number(text, *number)?;
    }
    put_none(text, numbers.is_empty())
}

/// Writes the numbers of the pairs, as `write_numbers` does.
pub fn write_pairs(text: &mut String, pairs: &[PairIx]) -> Result<(), Stop> {
    for pair in pairs {
        put_number(text, pair.0)?;
    }
    put_none(text, pairs.is_empty())
}

/// Writes the numbers of the ports, as `write_numbers` does.
pub fn write_ports(text: &mut String, ports: &[PortIx]) -> Result<(), Stop> {
    for port in ports {
        put_number(text, port.0)?;
    }
    put_none(text, ports.is_empty())
}

/// Writes the number, behind a space, or the word where there is none.
pub fn write_or(text: &mut String, number: Option<u32>, word: &str) -> Result<(), Stop> {
    match number {
        Some(number) => put_number(text, number),
        None => {
            put(text, " ")?;
            put(text, word)
        }
    }
}
