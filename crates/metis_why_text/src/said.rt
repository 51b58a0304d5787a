//! What the lines of the text say. Their first words tell what they are about; the whole line has to be what is written for that.
ghost use Rattle.std.specs.Prelude.{◌≡◌, ◌<◌, ◌||◌, IfOk, Ok, Err, codes, map, if◌then◌else◌};
ghost use Rattle.std.specs.Str.{bytes_eq};
ghost use Rattle.metis_tokens.specs.Terms.{both, made};
ghost use Rattle.metis_tokens.specs.declared.flaw.Flaw.TheVariants.{Form};
ghost use Rattle.metis_universe.specs.Terms.{IsWordable, pair_count};
ghost use Rattle.metis_why.specs.Terms.{IsLineOf};
ghost use Rattle.metis_why_text.specs.Terms.{count_of_tokens, fitting, goal_of_tokens, is_held_up, is_lacks_of, is_text_of, lacks_in, lacks_of_tokens, line_in, line_of_tokens, line_with, needs_of_tokens, reason_by, reason_of_tokens};

use crate::words::{lacks_words, line_words};
use metis_ids::{Goal, PairIx};
use metis_tokens::bytes::is;
use metis_tokens::{Flaw, both, goal_in, number_in, pair_in, port_in, tokens_of};
use metis_universe::Universe;
use metis_why::{Line, Reason};
use std::alloc::{AllocError, Global};

/// How many pairs there are with a reason, by the tokens of the line.
pub fn count_of(tokens: &[&[u8]]) -> Result<u32, Flaw>
    ensures { result ≡ count_of_tokens (map (λ t. t.now) tokens.now) }
{
    match tokens {
        [lines, count] if is(lines, "lines") => number_in(count),
        _ => Err(Flaw::Form),
    }
}

/// The goal of the line.
pub fn lacks_in(alloc: Global, u: &Universe, bytes: &[u8]) -> Result<Result<Goal, Flaw>, AllocError>
    ensures { IfOk result (λ read. read ≡ lacks_in u.now bytes.now) }
{
    let tokens = tokens_of(alloc, bytes)?;
    whole_lacks(alloc, u, &tokens, bytes)
}

// The goal that the tokens name, if the bytes are its line.
fn whole_lacks(
    alloc: Global,
    u: &Universe,
    tokens: &[&[u8]],
    bytes: &[u8],
) -> Result<Result<Goal, Flaw>, AllocError>
    ensures { IfOk result (λ read. read ≡ fitting (is_lacks_of u.now bytes.now) (lacks_of_tokens u.now (map (λ t. t.now) tokens.now))) }
{
    match lacks_of(u, tokens) {
        Ok(goal) => Ok(fitting(goal, is_lacks_of(alloc, u, goal, bytes)?)),
        Err(flaw) => Ok(Err(flaw)),
    }
}

// What was read, if the line is what is written for it.
fn fitting<A: Drop>(read: A, fits: bool) -> Result<A, Flaw>
    ensures { result ≡ (if fits then Ok read else Err Form) }
{
    if fits { Ok(read) } else { Err(Flaw::Form) }
}

fn is_lacks_of(alloc: Global, u: &Universe, goal: Goal, bytes: &[u8]) -> Result<bool, AllocError>
    requires { IsWordable u.now goal }
    ensures { IfOk result (λ fits. fits ≡ is_lacks_of u.now bytes.now goal) }
{
    let text = lacks_words(alloc, u, goal)?;
    Ok(is(bytes, text.as_str()))
}

fn lacks_of(u: &Universe, tokens: &[&[u8]]) -> Result<Goal, Flaw>
    ensures { result ≡ lacks_of_tokens u.now (map (λ t. t.now) tokens.now) }
{
    match tokens {
        [lacks, behind @ ..] => {
            if is(lacks, "lacks") {
                goal_of(u, behind)
            } else {
                Err(Flaw::Form)
            }
        }
        [] => Err(Flaw::Form),
    }
}

fn goal_of(u: &Universe, tokens: &[&[u8]]) -> Result<Goal, Flaw>
    ensures { result ≡ goal_of_tokens u.now (map (λ t. t.now) tokens.now) }
{
    match tokens {
        [word, _more @ ..] => goal_in(u, word),
        [] => Err(Flaw::Form),
    }
}

/// The pair of the line with its reason.
pub fn line_in(alloc: Global, u: &Universe, bytes: &[u8]) -> Result<Result<Line, Flaw>, AllocError>
    ensures { IfOk result (λ read. read ≡ line_in u.now bytes.now) }
{
    let tokens = tokens_of(alloc, bytes)?;
    whole_line(alloc, u, &tokens, bytes)
}

// The pair with its reason that the tokens name, if the bytes are its line.
fn whole_line(
    alloc: Global,
    u: &Universe,
    tokens: &[&[u8]],
    bytes: &[u8],
) -> Result<Result<Line, Flaw>, AllocError>
    ensures { IfOk result (λ read. read ≡ fitting (is_text_of u.now bytes.now) (line_of_tokens u.now (map (λ t. t.now) tokens.now))) }
{
    match line_of(u, tokens) {
        Ok(line) => Ok(fitting(line, is_text_of(alloc, u, &line, bytes)?)),
        Err(flaw) => Ok(Err(flaw)),
    }
}

fn is_text_of(alloc: Global, u: &Universe, line: &Line, bytes: &[u8]) -> Result<bool, AllocError>
    requires { IsLineOf u.now line.now }
    ensures { IfOk result (λ fits. fits ≡ is_text_of u.now bytes.now line.now) }
{
    if !is_held_up(u, line.pair, line.reason) {
        return Ok(false);
    }
    let text = line_words(alloc, u, line)?;
    Ok(is(bytes, text.as_str()))
}

// A reason of moves is told of a pair in which no instance is made.
fn is_held_up(u: &Universe, pair: PairIx, reason: Reason) -> bool
    requires { pair < pair_count u.now }
    ensures { result ≡ is_held_up u.now pair reason }
{
    match reason {
        Reason::Needs(_) => true,
        Reason::Comes => !u.is_free(pair),
    }
}

fn line_of(u: &Universe, tokens: &[&[u8]]) -> Result<Line, Flaw>
    ensures { result ≡ line_of_tokens u.now (map (λ t. t.now) tokens.now) }
{
    match tokens {
        [word, behind @ ..] => line_with(pair_in(u, word), reason_of(u, behind)),
        [] => Err(Flaw::Form),
    }
}

fn line_with(pair: Result<PairIx, Flaw>, reason: Result<Reason, Flaw>) -> Result<Line, Flaw>
    ensures { result ≡ made line_with (both pair reason) }
{
    let (pair, reason) = both(pair, reason)?;
    Ok(Line { pair, reason })
}

fn reason_of(u: &Universe, tokens: &[&[u8]]) -> Result<Reason, Flaw>
    ensures { result ≡ reason_of_tokens u.now (map (λ t. t.now) tokens.now) }
{
    match tokens {
        [verb, behind @ ..] => reason_by(u, verb, behind),
        [] => Err(Flaw::Form),
    }
}

// The reason by its first word, and the tokens behind it.
fn reason_by(u: &Universe, verb: &[u8], behind: &[&[u8]]) -> Result<Reason, Flaw>
    ensures { result ≡ reason_by u.now verb.now (map (λ t. t.now) behind.now) }
{
    if is(verb, "needs") {
        needs_of(u, behind)
    } else if tells_moves(verb) {
        Ok(Reason::Comes)
    } else {
        Err(Flaw::Form)
    }
}

fn tells_moves(verb: &[u8]) -> bool
    ensures { result ≡ (bytes_eq verb.now (codes "comes") || bytes_eq verb.now (codes "starts")) }
{
    is(verb, "comes") || is(verb, "starts")
}

fn needs_of(u: &Universe, tokens: &[&[u8]]) -> Result<Reason, Flaw>
    ensures { result ≡ needs_of_tokens u.now (map (λ t. t.now) tokens.now) }
{
    match tokens {
        [port, _more @ ..] => Ok(Reason::Needs(port_in(u, port)?)),
        [] => Err(Flaw::Form),
    }
}
