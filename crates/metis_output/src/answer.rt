//! What a command answers.
ghost use Rattle.std.specs.Prelude.{◌≡◌, ◌∷◌, [], string_bytes};
ghost use Rattle.metis_outside.specs.Terms.{IsLine};

use crate::{Lines, Once};

/// The lines that answer, and whether the answer is good, because the work was done, or what was asked is so.
#[derive(Drop)]
pub struct Answer<L: Lines + Drop> {
    pub lines: L,
    pub good: bool,
}

/// The answer of one line.
pub fn line_answer(line: String, good: bool) -> Answer<Once>
    requires { IsLine (string_bytes line) }
    ensures lines { result.lines ≡ string_bytes line ∷ [] }
    ensures good { result.good ≡ good }
{
    Answer {
        lines: Once::of(line),
        good,
    }
}
