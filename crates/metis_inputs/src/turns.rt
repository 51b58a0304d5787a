//! The text of a crew's turns.
ghost use Rattle.std.specs.Prelude.{◌≡◌, ◌<◌, ◌≤◌, ◌+◌, ◌-◌, ◌^◌, IfOk, length, map};
ghost use Rattle.metis_inputs.specs.Terms.{Judges, is_blank, turn_tokens, turns_in, turns_of, turns_then};

use crate::stop::{InputFault, Stop};
use metis_ids::InstNo;
use metis_tokens::number_in;
use std::alloc::{AllocError, Global};

/// The instances that the numbers among the bytes name, one for each turn, or the place, from 1, of the first token that is no number
/// in range.
pub fn read_turns(alloc: Global, bytes: &[u8]) -> Result<Vec<InstNo>, Stop>
    requires { length bytes.now < 2 ^ 32 - 1 }
    ensures { Judges (λ turns. turns.items) (turns_then (turns_in bytes.now)) result }
{
    let tokens = tokens_of(alloc, bytes)?;
    read_tokens(alloc, &tokens)
}

// The instances that these tokens name, one a token.
fn read_tokens(alloc: Global, tokens: &[&[u8]]) -> Result<Vec<InstNo>, Stop>
    requires { length tokens.now < 2 ^ 32 }
    ensures { Judges (λ turns. turns.items) (turns_then (turns_of (map (λ token. token.now) tokens.now))) result }
{
    let mut turns = Vec::new(alloc);
    for (k, token) in tokens.iter().enumerate() {
        match number_in(token) {
            Ok(number) => turns.push(InstNo(number))?,
            Err(_) => return Err(Stop::Faulty(InputFault::Turns(k as u32 + 1))),
        }
    }
    Ok(turns)
}

// What stands between the blanks.
fn tokens_of<'a>(alloc: Global, bytes: &'a [u8]) -> Result<Vec<&'a [u8]>, AllocError>
    ensures tokens { IfOk result (λ v. map (λ token. token.now) v.items ≡ turn_tokens bytes.now) }
    ensures few { IfOk result (λ v. length v.items ≤ length bytes.now + 1) }
{
    bytes
        .split(|byte| is_blank(*byte))
        .filter(|token| !token.is_empty())
        .collect(alloc)
}

// A space, a tab, a carriage return or a line feed.
fn is_blank(byte: u8) -> bool
    ensures { result ≡ is_blank byte }
{
    matches!(byte, b' ' | b'\t' | b'\r' | b'\n')
}
