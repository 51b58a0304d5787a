//! Reads the texts that are the product's own: a header, lines that are taken in one after another, a last line, and nothing
//! behind it.
ghost use Rattle.std.specs.Prelude.{◌≡◌, ◌<◌, ◌^◌, length, map};
ghost use Rattle.metis_tokens.specs.Terms.{TakesAs, last_piece, line_rules, lines_from, text_from, whole_lines};

use crate::bytes::is;
use metis_universe::Universe;
use std::alloc::Global;

/// What the lines of a text say, as far as they were read.
pub trait Lined: Sized {
    /// Why bytes are no such text.
    type Fault;

    ghost use Rattle.std.specs.Prelude.{ℕ, Bool, List, Result};
    ghost use Rattle.metis_universe.specs.Terms.{Universe};

    /// Which line is the last one.
    ghost ends: { Self → List ℕ → Bool };

    /// What is seen with the line of this number, or its fault.
    ghost taken: { Universe → ℕ → Self → List ℕ → Result Self Self.Fault };

    /// The fault of the line of this number, which may not stand at its place.
    ghost of_line: { ℕ → Self.Fault };

    /// The fault of bytes that end before the last line does.
    ghost short: { Self.Fault };

    /// The fault of memory that ran out.
    ghost memory: { Self.Fault };

    /// Whether this is the last line.
    fn ends_with(&self, line: &[u8]) -> bool
        ensures { result ≡ ends self.now line.now };

    /// Takes in the line of this number.
    fn take(
        &mut self,
        alloc: Global,
        u: &Universe,
        number: u32,
        line: &[u8],
    ) -> Result<(), Self::Fault>
        ensures { TakesAs memory result self.new (taken u.now number self.old line.now) };

    /// The fault of the line of this number, which may not stand at its place.
    fn line_fault(number: u32) -> Self::Fault
        ensures { result ≡ of_line number };

    /// The fault of bytes that end before the last line does.
    fn short_fault() -> Self::Fault
        ensures { result ≡ short };
}

/// Takes in the lines that stand between these pieces, the header first. The last piece is what stands behind the last line feed.
pub fn read_own<T: Lined>(
    alloc: Global,
    u: &Universe,
    header: &str,
    pieces: &[&[u8]],
    seen: &mut T,
) -> Result<(), T::Fault>
    requires { length pieces.now < 2 ^ 31 }
    ensures { TakesAs T.memory result seen.new (text_from header.now (line_rules T.ends (T.taken u.now) T.of_line T.short) (λ s. s) seen.old (whole_lines (map (λ piece. piece.now) pieces.now)) (last_piece (map (λ piece. piece.now) pieces.now))) }
{
    match pieces {
        [first, lines @ .., rest] => {
            if !is(first, header) {
                return Err(T::line_fault(1));
            }
            read_lines(alloc, u, lines, rest, seen)
        }
        _ => Err(T::short_fault()),
    }
}

// The lines from the second on, and what stands behind the last of them.
fn read_lines<T: Lined>(
    alloc: Global,
    u: &Universe,
    lines: &[&[u8]],
    rest: &[u8],
    seen: &mut T,
) -> Result<(), T::Fault>
    requires { length lines.now < 2 ^ 31 }
    ensures { TakesAs T.memory result seen.new (lines_from (line_rules T.ends (T.taken u.now) T.of_line T.short) (λ s. s) seen.old 2 (map (λ line. line.now) lines.now) rest.now) }
{
    for (k, line) in lines.iter().enumerate() {
        let number = k as u32 + 2;
        if seen.ends_with(line) {
            if k + 1 < lines.len() || !rest.is_empty() {
                return Err(T::line_fault(number + 1));
            }
            return Ok(());
        }
        seen.take(alloc, u, number, line)?;
    }
    Err(T::short_fault())
}
