//! The lines of the text, without their line feeds.
ghost use Rattle.std.specs.Prelude.{◌≡◌, ◌<◌, ◌++◌, ◌∷◌, [], IfOk, IfSome, codes, string_bytes};
ghost use Rattle.metis_ids.specs.declared.goals.Goal.TheVariants.{Pair, Port};
ghost use Rattle.metis_tokens.specs.Terms.{words};
ghost use Rattle.metis_universe.specs.Terms.{IsGoalOf, pair_count, pair_word, port_count, port_name_of};
ghost use Rattle.metis_why.specs.Terms.{IsLineOf, IsNameable};
ghost use Rattle.metis_why_text.specs.Terms.{comes_tokens, lacks_tokens, line_tokens, reason_tokens, start_port};

use crate::lists::{push_list, push_named};
use metis_ids::{Goal, PairIx, PortIx};
use metis_universe::Universe;
use metis_why::{Line, Reason};
use std::alloc::{AllocError, Global};

/// The line of the goal.
pub fn lacks_words(alloc: Global, u: &Universe, goal: Goal) -> Result<String, AllocError>
    requires { IsGoalOf u.now goal }
    ensures { IfOk result (λ text. string_bytes text ≡ words (lacks_tokens u.now goal)) }
{
    match goal {
        Goal::Pair(pair) => pair_words(alloc, u, pair),
        Goal::Port(port) => port_words(alloc, u, port),
    }
}

fn pair_words(alloc: Global, u: &Universe, pair: PairIx) -> Result<String, AllocError>
    requires { pair < pair_count u.now }
    ensures { IfOk result (λ text. string_bytes text ≡ words (lacks_tokens u.now (Pair pair))) }
{
    goal_words(alloc, u.type_name(u.type_of(pair)), u.state_name(pair))
}

fn port_words(alloc: Global, u: &Universe, port: PortIx) -> Result<String, AllocError>
    requires { port < port_count u.now }
    ensures { IfOk result (λ text. string_bytes text ≡ words (lacks_tokens u.now (Port port))) }
{
    let mut text = wanted_words(alloc, "port", u.port_name(port))?;
    push_list(&mut text, u, u.providers(port))?;
    Ok(text)
}

fn goal_words(alloc: Global, kind: &str, name: &str) -> Result<String, AllocError>
    ensures { IfOk result (λ text. string_bytes text ≡ words (codes "lacks" ∷ (kind.now ++ (codes ":" ++ name.now)) ∷ [])) }
{
    format!(in alloc; "lacks {kind}:{name}")
}

fn wanted_words(alloc: Global, kind: &str, name: &str) -> Result<String, AllocError>
    ensures { IfOk result (λ text. string_bytes text ≡ words (codes "lacks" ∷ (kind.now ++ (codes ":" ++ name.now)) ∷ codes "from" ∷ [])) }
{
    format!(in alloc; "lacks {kind}:{name} from")
}

/// The line of the pair with its reason.
pub fn line_words(alloc: Global, u: &Universe, line: &Line) -> Result<String, AllocError>
    requires { IsLineOf u.now line.now }
    ensures { IfOk result (λ text. string_bytes text ≡ words (line_tokens u.now line.now)) }
{
    let mut text = reason_words(alloc, u, line.pair, line.reason)?;
    push_named(&mut text, alloc, u, line.pair, line.reason)?;
    Ok(text)
}

// The pair, and what the reason says before the pairs that it names.
fn reason_words(
    alloc: Global,
    u: &Universe,
    pair: PairIx,
    reason: Reason,
) -> Result<String, AllocError>
    requires pair { pair < pair_count u.now }
    requires port { IsNameable u.now reason }
    ensures { IfOk result (λ text. string_bytes text ≡ words (pair_word u.now pair ∷ reason_tokens u.now pair reason)) }
{
    match reason {
        Reason::Needs(port) => needs_words(alloc, u, pair, port),
        Reason::Comes => comes_words(alloc, u, pair),
    }
}

fn needs_words(
    alloc: Global,
    u: &Universe,
    pair: PairIx,
    port: PortIx,
) -> Result<String, AllocError>
    requires pair { pair < pair_count u.now }
    requires port { port < port_count u.now }
    ensures { IfOk result (λ text. string_bytes text ≡ words (pair_word u.now pair ∷ codes "needs" ∷ port_name_of u.now port ∷ codes "from" ∷ [])) }
{
    let (kind, state) = (u.type_name(u.type_of(pair)), u.state_name(pair));
    needs_port(alloc, kind, state, u.port_name(port))
}

fn needs_port(alloc: Global, kind: &str, state: &str, port: &str) -> Result<String, AllocError>
    ensures { IfOk result (λ text. string_bytes text ≡ words ((kind.now ++ (codes ":" ++ state.now)) ∷ codes "needs" ∷ port.now ∷ codes "from" ∷ [])) }
{
    format!(in alloc; "{kind}:{state} needs {port} from")
}

fn comes_words(alloc: Global, u: &Universe, pair: PairIx) -> Result<String, AllocError>
    requires { pair < pair_count u.now }
    ensures { IfOk result (λ text. string_bytes text ≡ words (pair_word u.now pair ∷ comes_tokens u.now (start_port u.now pair))) }
{
    let (kind, state) = (u.type_name(u.type_of(pair)), u.state_name(pair));
    match start_port(u, pair) {
        Some(port) => starts_needing(alloc, kind, state, u.port_name(port)),
        None => comes(alloc, kind, state),
    }
}

// The first port that the pair requires, where it is the initial one of its type.
fn start_port(u: &Universe, pair: PairIx) -> Option<PortIx>
    requires { pair < pair_count u.now }
    ensures port { result ≡ start_port u.now pair }
    ensures within { IfSome result (λ r. r < port_count u.now) }
{
    if u.is_initial(pair) {
        u.requires_(pair).first().copied()
    } else {
        None
    }
}

fn starts_needing(alloc: Global, kind: &str, state: &str, port: &str) -> Result<String, AllocError>
    ensures { IfOk result (λ text. string_bytes text ≡ words ((kind.now ++ (codes ":" ++ state.now)) ∷ codes "starts" ∷ codes "needing" ∷ port.now ∷ codes "and" ∷ codes "comes" ∷ codes "from" ∷ [])) }
{
    format!(in alloc; "{kind}:{state} starts needing {port} and comes from")
}

fn comes(alloc: Global, kind: &str, state: &str) -> Result<String, AllocError>
    ensures { IfOk result (λ text. string_bytes text ≡ words ((kind.now ++ (codes ":" ++ state.now)) ∷ codes "comes" ∷ codes "from" ∷ [])) }
{
    format!(in alloc; "{kind}:{state} comes from")
}
