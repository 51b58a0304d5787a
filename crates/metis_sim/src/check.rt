//! Whether the configuration holds the targets of a line.
ghost use Rattle.std.specs.Prelude.{◌≡◌, IfOk, map, option_map};
ghost use Rattle.std.specs.List.{list_all};
ghost use Rattle.metis_sim.specs.Terms.{check_reply, goal_of_word, goals_of, is_pair_word, reply_on, said_of};

use crate::Reply;
use metis_config::Config;
use metis_ids::{Goal, NoMemory};
use metis_replay::shortage;
use metis_universe::{Universe, pair_names};
use std::alloc::Global;

/// The most target words of a line.
const MOST_TARGETS: usize = 256;

/// The reply to a `check` with these words.
pub fn check_reply(
    alloc: Global,
    u: &Universe,
    c: &Config,
    words: &[&[u8]],
) -> Result<Reply, NoMemory>
    ensures { IfOk result (λ r. r ≡ check_reply u.now c.now (map (λ t. t.now) words.now)) }
{
    if words.len() > MOST_TARGETS || !are_pair_words(words) {
        return Ok(Reply::BadLine);
    }
    Ok(match goals_of(alloc, u, words)? {
        Some(goals) => said_of(u, c, &goals),
        None => Reply::Unknown,
    })
}

// Whether the word is two names with a colon between them.
fn is_pair_word(word: &[u8]) -> bool
    ensures { result ≡ is_pair_word word.now }
{
    pair_names(word).is_some()
}

// The goal that the word asks for, if it is there.
fn goal_of_word(u: &Universe, word: &[u8]) -> Option<Goal>
    ensures { result ≡ goal_of_word u.now word.now }
{
    match pair_names(word) {
        Some((kind, name)) => u.goal_named(kind, name),
        None => None,
    }
}

// Whether each of the words is so.
fn are_pair_words(words: &[&[u8]]) -> bool
    ensures { result ≡ list_all is_pair_word (map (λ t. t.now) words.now) }
{
    words.iter().all(|word| is_pair_word(word))
}

// The goals that the words ask for, if each asks for one.
fn goals_of(alloc: Global, u: &Universe, words: &[&[u8]]) -> Result<Option<Vec<Goal>>, NoMemory>
    ensures { IfOk result (λ g. option_map (λ goals. goals.items) g ≡ goals_of u.now (map (λ t. t.now) words.now)) }
{
    let mut goals = Vec::new(alloc);
    for word in words {
        match goal_of_word(u, word) {
            Some(goal) => goals.push(goal)?,
            None => return Ok(None),
        }
    }
    Ok(Some(goals))
}

// The first goal that is short, or that there is none.
fn said_of(u: &Universe, c: &Config, goals: &[Goal]) -> Reply
    ensures { result ≡ said_of u.now c.now goals.now }
{
    match shortage(u, c, goals) {
        Some((goal, have, want)) => Reply::Missing(goal, have, want),
        None => Reply::Holds,
    }
}
