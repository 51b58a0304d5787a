//! How far pairs are from a goal.
ghost use Rattle.std.specs.Prelude.{◌≡◌, ◌<◌, ◌≤◌, ◌+◌, ◌*◌, ◌↔◌, ◌∷◌, [], ℕ, Bool, List, IfOk, IfSome, IsTrue, OnOk, length, slice_index_or};
ghost use Rattle.std.specs.List.{All};
ghost use Rattle.metis_universe.specs.Terms.{has, pair_count};
ghost use Rattle.metis_why.specs.Terms.{AreGiven, AreLed, AreOpen, HaveMoved, IsBefore, IsByDistance, IsEnough, IsLedOn, IsNext, NoneBefore, StayOpen, far_in, lowered};
ghost use Rattle.metis_refusal.specs.Terms.{flag};

use crate::named::{named, wanted};
use crate::outside::{PAIR_LIMIT, PORT_LIMIT, given_outside, is_set, led_outside};
use crate::reason::Reason;
use crate::target::Target;
use metis_ids::{NoMemory, PairIx};
use metis_universe::Universe;
use std::alloc::Global;

/// No way to a pair costs as much.
pub const NEVER: u32 = 4_294_967_295;

/// The ways from a goal that are known.
#[derive(Drop)]
pub struct Ways {
    /// What the least of those to each pair costs, and `NEVER` where none is known.
    pub far: [u32; PAIR_LIMIT],
    /// The pairs to which one is known and that are not in the order yet.
    pub open_pairs: Vec<PairIx>,
}

/// The pairs behind the goal, from near to far. For each of these it goes over those that are open then: a way to them is known, and
/// they are not in the order yet.
pub fn by_distance(
    alloc: Global,
    target: &Target,
    held: &[bool; PAIR_LIMIT],
) -> Result<Vec<PairIx>, NoMemory>
    requires { IsEnough target.now.u.now target.now.goal (flag held.now) }
    ensures { IfOk result (λ v. IsByDistance target.now.u.now (flag held.now) target.now.goal v.items) }
{
    let u = target.u;
    u.keeps_invariant();
    let given = given_outside(u, held);
    let led = led_outside(u, held);
    let first = wanted(alloc, target)?;
    let mut ways = Ways {
        far: [NEVER; PAIR_LIMIT],
        open_pairs: Vec::new(alloc),
    };
    bring_near(&mut ways, &first, 0)?;
    let mut order = Vec::new(alloc);
    while let Some(pair) = take_nearest(&ways.far, &mut ways.open_pairs) {
        order.push(pair)?;
        lead_on(alloc, u, &given, &led, &mut ways, pair)?;
    }
    Ok(order)
}

// Takes the nearest of the open pairs, the one with the lowest number of those that are as near.
fn take_nearest(far: &[u32; PAIR_LIMIT], open_pairs: &mut Vec<PairIx>) -> Option<PairIx>
    requires { All (λ p. far_in far.now p < NEVER) open_pairs.old.items }
    ensures next { (order : List ℕ) → AreOpen far.now open_pairs.old.items order → IsNext NEVER (far_in far.now) (has order) PAIR_LIMIT result }
    ensures moved { IfSome result (HaveMoved far.now open_pairs.old.items open_pairs.new.items) }
{
    if open_pairs.is_empty() {
        return None;
    }
    let place = nearest(far, open_pairs);
    Some(open_pairs.swap_remove(place))
}

// Where the nearest of the pairs stands.
fn nearest(far: &[u32; PAIR_LIMIT], open_pairs: &[PairIx]) -> usize
    requires some { 0 < length open_pairs.now }
    requires low { All (λ p. p < PAIR_LIMIT) open_pairs.now }
    ensures within { result < length open_pairs.now }
    ensures nearest { NoneBefore (far_in far.now) (slice_index_or open_pairs.now result 0) open_pairs.now }
{
    let mut found = 0;
    for place in 1..open_pairs.len() {
        if is_before(far, open_pairs[place], open_pairs[found]) {
            found = place;
        }
    }
    found
}

// Whether the one pair is nearer than the other, or as near and has the lower number.
fn is_before(far: &[u32; PAIR_LIMIT], p: PairIx, q: PairIx) -> bool
    requires p { p < PAIR_LIMIT }
    requires q { q < PAIR_LIMIT }
    ensures { IsTrue result ↔ IsBefore (far_in far.now) p q }
{
    let here = far[p.0 as usize];
    let there = far[q.0 as usize];
    here < there || here == there && p.0 < q.0
}

// Notes the ways that lead on from the pair, where pairs outside a set give these ports and lead to these pairs: by the ports that it
// requires and that are not among these, and by the moves that lead to it, where it is not.
fn lead_on(
    alloc: Global,
    u: &Universe,
    given: &[bool; PORT_LIMIT],
    led: &[bool; PAIR_LIMIT],
    ways: &mut Ways,
    pair: PairIx,
) -> Result<(), NoMemory>
    requires low { pair < pair_count u.now }
    requires near { far_in ways.old.far pair ≤ 2000 * 2000 }
    ensures far { OnOk result ((x : ℕ → Bool) → AreGiven u.now x given.now → AreLed u.now x led.now → IsLedOn u.now x ways.old ways.new pair) }
    ensures stay { OnOk result (StayOpen ways.old ways.new) }
{
    u.keeps_invariant();
    let here = ways.far[pair.0 as usize];
    for port in u.requires_(pair) {
        if !given[port.0 as usize] {
            let providers = u.providers(*port);
            bring_near(ways, providers, here + providers.len() as u32)?;
        }
    }
    if is_set(led, pair) {
        return Ok(());
    }
    let before = named(alloc, u, pair, Reason::Comes)?;
    bring_near(ways, &before, here + before.len() as u32)?;
    Ok(())
}

// Notes a way at this cost to each of the pairs, where none is known that costs as little.
fn bring_near(ways: &mut Ways, pairs: &[PairIx], cost: u32) -> Result<(), NoMemory>
    requires { All (λ p. p < PAIR_LIMIT) pairs.now }
    ensures far { OnOk result (far_in ways.new.far ≡ lowered (far_in ways.old.far) pairs.now cost) }
    ensures stay { OnOk result (StayOpen ways.old ways.new) }
{
    for pair in pairs {
        bring_one(ways, *pair, cost)?;
    }
    Ok(())
}

// Notes a way at this cost to the pair. From the first way on it is open.
fn bring_one(ways: &mut Ways, pair: PairIx, cost: u32) -> Result<(), NoMemory>
    requires { pair < PAIR_LIMIT }
    ensures far { OnOk result (far_in ways.new.far ≡ lowered (far_in ways.old.far) (pair ∷ []) cost) }
    ensures stay { OnOk result (StayOpen ways.old ways.new) }
{
    let before = ways.far[pair.0 as usize];
    if cost < before {
        if before == NEVER {
            ways.open_pairs.push(pair)?;
        }
        ways.far[pair.0 as usize] = cost;
    }
    Ok(())
}
