//! The lines of a text, one after another.
ghost use Rattle.std.specs.Prelude.{◌≡◌, ◌+◌, ◌-◌, ◌<◌, ◌^◌, length};
ghost use Rattle.metis_tokens.specs.Cursor.{ended, exactly, lines_of, next_line, read_next, Reads, ReadsLine};

use crate::bytes::{is, place_of};
use crate::fault::TFault;
use crate::flaw::Flaw;
use std::marker::Model;

/// What is left of a text of which so many lines were read.
#[derive(Drop)]
pub struct Cursor<'a> {
    rest: &'a [u8],
    number: u32,
    ghost fits: { number + length rest.now < 2 ^ 32 - 1 },
}

impl<'a> Model for Cursor<'a> {
    ghost use Rattle.metis_tokens.specs.Cursor.{Cursor, lines_of};

    ghost Value = { Cursor };

    ghost view = { λ l. lines_of l.rest.now l.number };
}

impl<'a> Cursor<'a> {
    /// The whole text.
    pub fn of(bytes: &'a [u8]) -> Cursor<'a>
        requires { length bytes.now < 2 ^ 32 - 1 }
        ensures { result ≡ lines_of bytes.now 0 }
    {
        Cursor {
            rest: bytes,
            number: 0,
        }
    }

    /// The next line, without its line feed.
    pub fn next_line(&mut self) -> Result<&'a [u8], TFault>
        ensures { ReadsLine result self.new (next_line self.old) }
    {
        match place_of(self.rest, b'\n') {
            Some(end) => {
                let line = &self.rest[..end];
                self.rest = &self.rest[end + 1..];
                self.number += 1;
                Ok(line)
            }
            None => Err(TFault::Short),
        }
    }

    /// The number of the line that was read last, from 1.
    pub fn number(&self) -> u32
        ensures { result ≡ self.now.number }
    {
        self.number
    }

    /// Whether nothing stands behind the line that was read last.
    pub fn ended(&self) -> Result<(), TFault>
        ensures { result ≡ ended self.now }
    {
        if self.rest.is_empty() {
            Ok(())
        } else {
            Err(TFault::Line(self.number + 1))
        }
    }
}

/// Reads a line of this text.
pub fn read_exactly(text: &str, lines: &mut Cursor<'_>) -> Result<(), TFault>
    ensures { Reads (λ x. x) result lines.new (read_next (exactly text.now) lines.old) }
{
    if is(lines.next_line()?, text) {
        Ok(())
    } else {
        Err(Flaw::Form.at(lines.number()))
    }
}
