//! Whether lines tell why goals are never attained.
ghost use Rattle.std.specs.Prelude.{◌≡◌, ◌<◌, ℕ};
ghost use Rattle.std.specs.List.{All, list_all};
ghost use Rattle.metis_ids.specs.declared.goals.Goal.{Goal};
ghost use Rattle.metis_universe.specs.Terms.{AttainsGoals, IsGoalOf};
ghost use Rattle.metis_why.specs.Terms.{IsLineOf, IsWithin, before_of, first_bad, line_holds, listed, verdict};
ghost use Rattle.metis_refusal.specs.Terms.{flag};

use crate::covering::{covers, first_covered};
use crate::listing::is_listed;
use crate::named::leads;
use crate::outside::{PAIR_LIMIT, is_set};
use crate::reason::{Line, Reason};
use crate::target::Target;
use metis_ids::{Goal, PairIx};
use metis_universe::Universe;

/// What lines come to that are said to tell why goals are never attained.
#[derive(Clone, Copy, PartialEq, Eq)]
pub enum Confirmation {
    /// Each line holds, and the goal is the first that their pairs cover: no list of actions attains the goals.
    Confirmed(Goal),
    /// The line of this place, from 0, is the first that does not hold.
    Unfounded(usize),
    /// Each line holds, and their pairs cover none of the goals.
    LacksNone,
}

/// Whether each line holds, and which goal their pairs cover. It takes no memory, and looks at what the lines name alone, and for a
/// line that tells of moves once at all pairs.
pub fn confirm(u: &Universe, lines: &[Line], goals: &[Goal]) -> Confirmation
    requires lines { All (IsLineOf u.now) lines.now }
    requires goals { All (IsGoalOf u.now) goals.now }
    ensures verdict { result ≡ verdict u.now lines.now goals.now }
    ensures unattained { (g : Goal) → result ≡ Confirmation.Confirmed g → AttainsGoals u.now goals.now → ⊥ }
{
    u.keeps_invariant();
    let held = flags_of(u, lines);
    if let Some(place) = first_bad(u, &held, lines) {
        return Confirmation::Unfounded(place);
    }
    match first_covered(u, &held, goals) {
        Some(goal) => Confirmation::Confirmed(goal),
        None => Confirmation::LacksNone,
    }
}

// The pairs of the lines.
fn flags_of(u: &Universe, lines: &[Line]) -> [bool; PAIR_LIMIT]
    requires { IsWithin u.now (listed lines.now) }
    ensures { (p : ℕ) → flag result p ≡ listed lines.now p }
{
    let mut flags = [false; PAIR_LIMIT];
    for number in 0..u.pairs() {
        flags[number as usize] = is_listed(lines, PairIx(number));
    }
    flags
}

// The place of the first line that does not hold.
fn first_bad(u: &Universe, held: &[bool; PAIR_LIMIT], lines: &[Line]) -> Option<usize>
    requires lines { All (IsLineOf u.now) lines.now }
    requires held { (p : ℕ) → flag held.now p ≡ listed lines.now p }
    ensures { result ≡ first_bad u.now lines.now }
{
    lines
        .iter()
        .position(|line| !line_holds(u, held, lines, line))
}

// Whether the line's reason is one, where these are the pairs of all lines.
fn line_holds(u: &Universe, held: &[bool; PAIR_LIMIT], lines: &[Line], line: &Line) -> bool
    requires line { IsLineOf u.now line.now }
    requires held { (p : ℕ) → flag held.now p ≡ listed lines.now p }
    ensures { result ≡ line_holds u.now lines.now line.now }
{
    // The contract alone speaks of the lines.
    let _lines = lines;
    match line.reason {
        Reason::Needs(port) => {
            let goal = Goal::Port(port);
            u.requires_(line.pair).contains(&port) && covers(&Target { u, goal }, held)
        }
        Reason::Comes => !u.is_free(line.pair) && led_inside(u, held, line.pair),
    }
}

// Whether each pair from which a move leads to this one is in the set.
fn led_inside(u: &Universe, held: &[bool; PAIR_LIMIT], pair: PairIx) -> bool
    ensures { result ≡ list_all (flag held.now) (before_of u.now pair) }
{
    for number in 0..u.pairs() {
        if leads(u, PairIx(number), pair) && !is_set(held, PairIx(number)) {
            return false;
        }
    }
    true
}
