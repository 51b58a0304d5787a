//! Lists of pairs in a line.
ghost use Rattle.std.specs.Prelude.{◌≡◌, ◌<◌, ◌++◌, OnOk, codes, map, string_bytes};
ghost use Rattle.std.specs.List.{All};
ghost use Rattle.metis_tokens.specs.Terms.{added};
ghost use Rattle.metis_universe.specs.Terms.{pair_count, pair_word};
ghost use Rattle.metis_why.specs.Terms.{IsNameable, before_of, named_by};
ghost use Rattle.metis_why_text.specs.Terms.{list_words};

use metis_ids::PairIx;
use metis_universe::Universe;
use metis_why::{Reason, named_by};
use std::alloc::{AllocError, Global};

/// Appends the pairs for which the pair waits by this reason, each behind a space.
pub fn push_named(
    text: &mut String,
    alloc: Global,
    u: &Universe,
    pair: PairIx,
    reason: Reason,
) -> Result<(), AllocError>
    requires { IsNameable u.now reason }
    ensures { OnOk result (string_bytes text.new ≡ string_bytes text.old ++ added (list_words u.now (named_by u.now pair reason))) }
{
    match reason {
        Reason::Needs(port) => push_list(text, u, u.providers(port)),
        Reason::Comes => push_before(text, alloc, u, pair),
    }
}

// Appends the pairs from which a move leads to the pair.
fn push_before(
    text: &mut String,
    alloc: Global,
    u: &Universe,
    pair: PairIx,
) -> Result<(), AllocError>
    ensures { OnOk result (string_bytes text.new ≡ string_bytes text.old ++ added (list_words u.now (before_of u.now pair))) }
{
    match named_by(alloc, u, pair, Reason::Comes) {
        Ok(from) => push_list(text, u, &from),
        Err(_) => Err(AllocError),
    }
}

/// Appends the pairs, each behind a space, or that there is none.
pub fn push_list(text: &mut String, u: &Universe, pairs: &[PairIx]) -> Result<(), AllocError>
    requires { All (λ p. p < pair_count u.now) pairs.now }
    ensures { OnOk result (string_bytes text.new ≡ string_bytes text.old ++ added (list_words u.now pairs.now)) }
{
    if pairs.is_empty() {
        return text.push_str(" none");
    }
    push_pairs(text, u, pairs)
}

fn push_pairs(text: &mut String, u: &Universe, pairs: &[PairIx]) -> Result<(), AllocError>
    requires { All (λ p. p < pair_count u.now) pairs.now }
    ensures { OnOk result (string_bytes text.new ≡ string_bytes text.old ++ added (map (pair_word u.now) pairs.now)) }
{
    for pair in pairs {
        push_pair(text, u, *pair)?;
    }
    Ok(())
}

fn push_pair(text: &mut String, u: &Universe, pair: PairIx) -> Result<(), AllocError>
    requires { pair < pair_count u.now }
    ensures { OnOk result (string_bytes text.new ≡ string_bytes text.old ++ (codes " " ++ pair_word u.now pair)) }
{
    push_names(text, u.type_name(u.type_of(pair)), u.state_name(pair))
}

fn push_names(text: &mut String, kind: &str, state: &str) -> Result<(), AllocError>
    ensures { OnOk result (string_bytes text.new ≡ string_bytes text.old ++ (codes " " ++ (kind.now ++ (codes ":" ++ state.now)))) }
{
    write!(text, " {kind}:{state}")
}
