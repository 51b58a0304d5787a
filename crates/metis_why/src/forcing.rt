//! Pairs that no barred set can leave out that covers the goal.
ghost use Rattle.std.specs.Prelude.{◌≡◌, ◌<◌, ℕ, Bool, IfOk, IsFalse, IsTrue, MatchOption, OnOk};
ghost use Rattle.std.specs.List.{All};
ghost use Rattle.metis_universe.specs.Terms.{Universe, pair_count, port_count, requires};
ghost use Rattle.metis_ids.specs.declared.goals.Goal.{Goal};
ghost use Rattle.metis_why.specs.Terms.{AreForced, AreGiven, AreLed, AreMarked, IsEnough, IsMissed, IsOnlyReason};
ghost use Rattle.metis_refusal.specs.Terms.{flag};

use crate::falling::are_given;
use crate::named::{named, wanted};
use crate::outside::{PAIR_LIMIT, PORT_LIMIT, given_outside, is_set, led_outside};
use crate::reason::Reason;
use crate::target::Target;
use metis_ids::{NoMemory, PairIx, PortIx};
use metis_universe::Universe;
use std::alloc::Global;

/// The pairs that the goal wants, and those that the one reason of such a pair names, where it has only one, and so on: each barred
/// set inside this one that covers the goal has them.
pub fn forced(
    alloc: Global,
    target: &Target,
    held: &[bool; PAIR_LIMIT],
) -> Result<[bool; PAIR_LIMIT], NoMemory>
    ensures { IfOk result (AreForced target.now.u.now target.now.goal (flag held.now)) }
{
    let u = target.u;
    let given = given_outside(u, held);
    let led = led_outside(u, held);
    let mut forced = [false; PAIR_LIMIT];
    let mut list = Vec::new(alloc);
    let first = wanted(alloc, target)?;
    force_all(&mut list, &mut forced, &first)?;
    for next in 0..PAIR_LIMIT {
        if next >= list.len() {
            break;
        }
        let pair: PairIx = list[next];
        if let Some(reason) = only_reason(u, &given, &led, pair) {
            let names = named(alloc, u, pair, reason)?;
            force_all(&mut list, &mut forced, &names)?;
        }
    }
    Ok(forced)
}

// Notes the pairs that were not noted.
fn force_all(
    list: &mut Vec<PairIx>,
    forced: &mut [bool; PAIR_LIMIT],
    pairs: &[PairIx],
) -> Result<(), NoMemory>
    ensures { OnOk result ((u : Universe) (g : Goal) (x : ℕ → Bool) → All (IsMissed u g x) pairs.now → AreMarked u g x list.old.items forced.old → AreMarked u g x list.new.items forced.new) }
{
    for pair in pairs {
        let at = pair.0 as usize;
        if at < PAIR_LIMIT && !forced[at] {
            forced[at] = true;
            list.push(*pair)?;
        }
    }
    Ok(())
}

// The one reason that the pair has, where pairs outside a set give these ports and lead to these pairs; none where it has several.
fn only_reason(
    u: &Universe,
    given: &[bool; PORT_LIMIT],
    led: &[bool; PAIR_LIMIT],
    pair: PairIx,
) -> Option<Reason>
    ensures { (x : ℕ → Bool) → AreGiven u.now x given.now → AreLed u.now x led.now → IsOnlyReason u.now x pair result }
{
    u.keeps_invariant();
    if pair.0 >= u.pairs() {
        return None;
    }
    if is_set(led, pair) || u.is_free(pair) {
        return match only_missing(u, given, pair) {
            Some(port) => Some(Reason::Needs(port)),
            None => None,
        };
    }
    if are_given(u, given, pair) {
        return Some(Reason::Comes);
    }
    None
}

// The one port that the pair requires and whose flag is not set, where there is just one.
fn only_missing(u: &Universe, given: &[bool; PORT_LIMIT], pair: PairIx) -> Option<PortIx>
    requires { pair < pair_count u.now }
    ensures { MatchOption result (Unit {0}) (λ p. (p < port_count u.now) × ((r : ℕ) → IsTrue (requires u.now pair r) → IsFalse (flag given.now r) → r ≡ p)) }
{
    u.keeps_invariant();
    let mut found: Option<PortIx> = None;
    for port in u.requires_(pair) {
        if !given[port.0 as usize] {
            if found.is_some() {
                return None;
            }
            found = Some(*port);
        }
    }
    found
}
