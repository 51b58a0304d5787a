//! Reads what stands in the lines of a refusal.
ghost use Rattle.std.specs.Prelude.{◌≡◌, map};
ghost use Rattle.metis_tokens.specs.Terms.{right};
ghost use Rattle.metis_text.specs.Terms.{follows, lacks_of_tokens, pair_of_tokens, size_of_tokens};

use metis_ids::{Goal, PairIx};
use metis_tokens::bytes::is;
use metis_tokens::{Flaw, goal_in, number_in, pair_in};
use metis_universe::Universe;

/// The goal that the set lacks, by the tokens of its line.
pub fn lacks_of(u: &Universe, tokens: &[&[u8]]) -> Result<Goal, Flaw>
    ensures { result ≡ lacks_of_tokens u.now (map (λ t. t.now) tokens.now) }
{
    match tokens {
        [lacks, word] if is(lacks, "lacks") => goal_in(u, word),
        _ => Err(Flaw::Form),
    }
}

/// How many pairs the set has, by the tokens of its line.
pub fn size_of(tokens: &[&[u8]]) -> Result<u32, Flaw>
    ensures { result ≡ size_of_tokens (map (λ t. t.now) tokens.now) }
{
    match tokens {
        [pairs, size] if is(pairs, "pairs") => number_in(size),
        _ => Err(Flaw::Form),
    }
}

fn pair_of(u: &Universe, tokens: &[&[u8]]) -> Result<PairIx, Flaw>
    ensures { result ≡ pair_of_tokens u.now (map (λ t. t.now) tokens.now) }
{
    match tokens {
        [word] => pair_in(u, word),
        _ => Err(Flaw::Form),
    }
}

/// The pair that stands alone in its line, and behind the last one in the universe.
pub fn next_pair_of(u: &Universe, last: Option<PairIx>, tokens: &[&[u8]]) -> Result<PairIx, Flaw>
    ensures { result ≡ right (follows last) (pair_of_tokens u.now (map (λ t. t.now) tokens.now)) }
{
    match pair_of(u, tokens) {
        Ok(pair) if !follows(last, pair) => Err(Flaw::Number),
        read => read,
    }
}

// Whether the pair stands behind the last one, if there is one.
fn follows(last: Option<PairIx>, pair: PairIx) -> bool
    ensures { result ≡ follows last pair }
{
    match last {
        Some(last) => last < pair,
        None => true,
    }
}
