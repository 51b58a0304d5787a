//! Reads the events of a cycle.
ghost use Rattle.std.specs.Prelude.{◌≡◌, ◌==◌, IfOk, Ok, [], map};
ghost use Rattle.std.specs.List.{after_first, before_first};
ghost use Rattle.metis_text.specs.Terms.{event_in};
ghost use Rattle.metis_tokens.specs.Terms.{all_behind, behind, made};

use metis_ids::{Event, LineIx, StepIx};
use metis_tokens::bytes::{is, place_of};
use metis_tokens::{Flaw, both, graver, number_in};
use std::alloc::{AllocError, Global};

// One more thing behind those that were read, or the graver flaw.
fn behind<T: Copy + Drop>(
    read: Result<Vec<T>, Flaw>,
    next: Result<T, Flaw>,
) -> Result<Result<Vec<T>, Flaw>, AllocError>
    ensures { IfOk result (λ read'. made (λ v. v.items) read' ≡ behind (made (λ v. v.items) read) next) }
{
    match (read, next) {
        (Ok(mut list), Ok(next)) => {
            list.push(next)?;
            Ok(Ok(list))
        }
        (Ok(_), Err(flaw)) => Ok(Err(flaw)),
        (Err(flaw), Ok(_)) => Ok(Err(flaw)),
        (Err(first), Err(second)) => Ok(Err(graver(first, second))),
    }
}

/// The events that the tokens are.
pub fn events_in(alloc: Global, tokens: &[&[u8]]) -> Result<Result<Vec<Event>, Flaw>, AllocError>
    ensures { IfOk result (λ read. made (λ v. v.items) read ≡ all_behind event_in (Ok []) (map (λ t. t.now) tokens.now)) }
{
    let mut read = Ok(Vec::new(alloc));
    for token in tokens {
        read = behind(read, event_in(token))?;
    }
    Ok(read)
}

// What stands before the first such byte, and what behind it.
fn cut(token: &[u8], at: u8) -> (&[u8], &[u8])
    ensures before { result.0.now ≡ before_first (λ byte. byte == at) token.now }
    ensures behind { result.1.now ≡ after_first (λ byte. byte == at) token.now }
{
    match place_of(token, at) {
        Some(place) => (&token[..place], &token[place + 1..]),
        None => (token, &[]),
    }
}

// The end, or a line and a step with a point between them.
fn event_in(token: &[u8]) -> Result<Event, Flaw>
    ensures { result ≡ event_in token.now }
{
    if is(token, "end") {
        return Ok(Event::End);
    }
    let (line, step) = cut(token, b'.');
    let (line, step) = both(number_in(line), number_in(step))?;
    Ok(Event::At(LineIx(line), StepIx(step)))
}
