//! Reads the numbers that stand in all of some tokens.
ghost use Rattle.std.specs.Prelude.{◌≡◌, Err, IfOk, Ok, [], map};
ghost use Rattle.metis_tokens.specs.Terms.{all_behind, made, number_in};

use crate::flaw::{Flaw, graver};
use crate::tokens::number_in;
use std::alloc::{AllocError, Global};

/// The numbers that the tokens are.
pub fn numbers_in(alloc: Global, tokens: &[&[u8]]) -> Result<Result<Vec<u32>, Flaw>, AllocError>
    ensures { IfOk result (λ read. made (λ v. v.items) read ≡ all_behind number_in (Ok []) (map (λ t. t.now) tokens.now)) }
{
    let mut list = Vec::with_capacity(alloc, tokens.len())?;
    for index in 0..tokens.len() {
        match number_in(tokens[index]) {
            Ok(number) => list.push(number)?,
            Err(flaw) => return Ok(Err(gravest(flaw, &tokens[index + 1..]))),
        }
    }
    Ok(Ok(list))
}

// The gravest of this flaw and those of the tokens that are no numbers.
fn gravest(flaw: Flaw, tokens: &[&[u8]]) -> Flaw
    ensures { Err result ≡ all_behind number_in (Err flaw) (map (λ t. t.now) tokens.now) }
{
    let mut worst = flaw;
    for token in tokens {
        if let Err(next) = number_in(token) {
            worst = graver(worst, next);
        }
    }
    worst
}
