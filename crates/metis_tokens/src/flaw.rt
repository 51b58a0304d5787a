//! What is wrong with a line that is read.
ghost use Rattle.std.specs.Prelude.{◌≡◌};
ghost use Rattle.metis_tokens.specs.Terms.{both, found, graver, made};

/// What is wrong with a line that is read.
#[derive(Clone, Copy, PartialEq, Eq)]
pub enum Flaw {
    /// It does not have the tokens of the form that stands at its place.
    Form,
    /// A number is out of range, or not one that may stand at its place, or a pair not behind the one before it.
    Number,
    /// A name or an instance is not there.
    Name,
}

/// Of two flaws of a line the one that is told: of its form before its numbers, of its numbers before its names.
pub fn graver(first: Flaw, second: Flaw) -> Flaw
    ensures { result ≡ graver first second }
{
    match (first, second) {
        (Flaw::Form, _) | (_, Flaw::Form) => Flaw::Form,
        (Flaw::Number, _) | (_, Flaw::Number) => Flaw::Number,
        (Flaw::Name, Flaw::Name) => Flaw::Name,
    }
}

/// Two parts of a line, or the graver of their flaws.
pub fn both<A: Drop, B: Drop>(
    first: Result<A, Flaw>,
    second: Result<B, Flaw>,
) -> Result<(A, B), Flaw>
    ensures { result ≡ both first second }
{
    match (first, second) {
        (Ok(first), Ok(second)) => Ok((first, second)),
        (Ok(_), Err(flaw)) => Err(flaw),
        (Err(flaw), Ok(_)) => Err(flaw),
        (Err(first), Err(second)) => Err(graver(first, second)),
    }
}

/// What a line says behind its number, or the graver of their flaws.
pub fn numbered<A: Drop>(number: Result<u32, Flaw>, line: Result<A, Flaw>) -> Result<A, Flaw>
    ensures { result ≡ made (λ p. p.1) (both number line) }
{
    match both(number, line) {
        Ok((_, line)) => Ok(line),
        Err(flaw) => Err(flaw),
    }
}

/// What was looked for under a name.
pub fn found<A: Drop>(looked: Option<A>) -> Result<A, Flaw>
    ensures { result ≡ found looked }
{
    looked.ok_or(Flaw::Name)
}
