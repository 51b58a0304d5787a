//! Pairs that fall out of a set, one after the other.
ghost use Rattle.std.specs.Prelude.{◌≡◌, ◌<◌, ℕ, Bool, IsTrue, IsFalse, OnOk, false, set};
ghost use Rattle.std.specs.List.{All};
ghost use Rattle.metis_universe.specs.Terms.{Universe, pair_count, requires};
ghost use Rattle.metis_why.specs.Terms.{AreReached, Falls, IsBarred, IsFrom, IsInside, IsShrunk};
ghost use Rattle.metis_refusal.specs.Terms.{flag};

use crate::outside::{PAIR_LIMIT, PORT_LIMIT, given_outside, is_set, led_outside};
use metis_ids::{NoMemory, PairIx, PortIx};
use metis_universe::Universe;
use std::alloc::Global;

/// No type requires more ports.
const MOST_REACHED: usize = 128;

/// A set out of which pairs fall, with what is known of it.
#[derive(Drop)]
pub struct Falling {
    pub held: [bool; PAIR_LIMIT],
    /// Ports that pairs outside the set give.
    pub given: [bool; PORT_LIMIT],
    /// Pairs to which pairs outside the set lead.
    pub led: [bool; PAIR_LIMIT],
    /// Of the ports that each pair requires, how many from the first one on were found to be given.
    pub reached: [u8; PAIR_LIMIT],
    /// The port behind these. The pair does not fall before it is given.
    pub awaited: [PortIx; PAIR_LIMIT],
    /// Once one of these falls, the others need not.
    pub watched: [bool; PAIR_LIMIT],
    /// Whether one of these fell.
    pub is_over: bool,
    /// How many pairs fell.
    pub count: u32,
    /// Pairs that fell, and whose ports and moves are still to be read.
    pub fallen: Vec<PairIx>,
}

impl Falling {
    /// The set as it is. No pair fell yet, and none is watched.
    pub fn of(alloc: Global, u: &Universe, held: &[bool; PAIR_LIMIT]) -> Falling
        ensures held { result.held ≡ held.now }
        ensures from { IsFrom u.now result }
    {
        Falling {
            held: *held,
            given: given_outside(u, held),
            led: led_outside(u, held),
            reached: [0; PAIR_LIMIT],
            awaited: [PortIx(0); PAIR_LIMIT],
            watched: [false; PAIR_LIMIT],
            is_over: false,
            count: 0,
            fallen: Vec::new(alloc),
        }
    }

    /// Becomes the other set, with what is known of it.
    pub fn take_over(&mut self, other: &Falling)
        ensures held { self.new.held ≡ other.now.held }
        ensures from { (u : Universe) → IsFrom u other.now → IsFrom u self.new }
    {
        self.held = other.held;
        self.given = other.given;
        self.led = other.led;
        self.reached = other.reached;
        self.awaited = other.awaited;
    }

    /// Becomes the other set without the pair, which is the first that fell. These pairs are watched.
    pub fn restart(
        &mut self,
        other: &Falling,
        pair: PairIx,
        watched: &[bool; PAIR_LIMIT],
    ) -> Result<(), NoMemory>
        requires { IsTrue (flag other.now.held pair) }
        ensures held { OnOk result (self.new.held ≡ set other.now.held pair false) }
        ensures from { OnOk result ((u : Universe) → IsFrom u other.now → IsFrom u self.new) }
    {
        self.take_over(other);
        self.held[pair.0 as usize] = false;
        self.watched = *watched;
        self.is_over = false;
        self.count = 1;
        self.fallen.clear();
        self.fallen.push(pair)?;
        Ok(())
    }
}

/// Notes for each pair the first port that is not given.
pub fn await_all(u: &Universe, falling: &mut Falling)
    requires { IsFrom u.now falling.old }
    ensures held { falling.new.held ≡ falling.old.held }
    ensures from { IsFrom u.now falling.new }
{
    for number in 0..u.pairs() {
        waits_for_none(u, falling, PairIx(number));
    }
}

/// Takes pairs out of the set that no barred set inside it has: those that wait for none of its pairs, then those that waited for
/// these alone, and so on.
pub fn drain(alloc: Global, u: &Universe, held: &mut [bool; PAIR_LIMIT]) -> Result<(), NoMemory>
    ensures { OnOk result (IsShrunk u.now (flag held.old) (flag held.new)) }
{
    let mut falling = Falling::of(alloc, u, held);
    let_all_fall(u, &mut falling)?;
    spread_all(u, &mut falling)?;
    *held = falling.held;
    Ok(())
}

// Takes each pair out that waits for no pair of the set.
fn let_all_fall(u: &Universe, falling: &mut Falling) -> Result<(), NoMemory>
    requires { IsFrom u.now falling.old }
    ensures { OnOk result (Falls u.now falling.old falling.new) }
{
    for number in 0..u.pairs() {
        let_fall(u, falling, PairIx(number))?;
    }
    Ok(())
}

/// Takes pairs out that waited for those that fell alone, and so on. What a pair provides and leads to is read once, as it falls. It
/// goes no further once a watched pair fell.
pub fn spread_all(u: &Universe, falling: &mut Falling) -> Result<(), NoMemory>
    requires { IsFrom u.now falling.old }
    ensures shrunk { OnOk result (IsShrunk u.now (flag falling.old.held) (flag falling.new.held)) }
    ensures from { OnOk result (IsFrom u.now falling.new) }
{
    while let Some(pair) = falling.fallen.pop() {
        spread(u, falling, pair)?;
    }
    Ok(())
}

// Takes the pair out where it waits for no pair of the set, and notes it.
fn let_fall(u: &Universe, falling: &mut Falling, pair: PairIx) -> Result<(), NoMemory>
    requires pair { pair < pair_count u.now }
    requires from { IsFrom u.now falling.old }
    ensures { OnOk result (Falls u.now falling.old falling.new) }
{
    u.keeps_invariant();
    if is_set(&falling.held, pair) && waits_for_none(u, falling, pair) {
        falling.held[pair.0 as usize] = false;
        falling.is_over = falling.is_over || is_set(&falling.watched, pair);
        falling.count = falling.count.saturating_add(1);
        falling.fallen.push(pair)?;
    }
    Ok(())
}

// Whether pairs outside the set give each port that the pair requires, and lead to it, or it is free. The ports that were found to be
// given are not looked at again.
fn waits_for_none(u: &Universe, falling: &mut Falling, pair: PairIx) -> bool
    requires pair { pair < pair_count u.now }
    requires from { IsFrom u.now falling.old }
    ensures held { falling.new.held ≡ falling.old.held }
    ensures fallen { falling.new.fallen ≡ falling.old.fallen }
    ensures from { IsFrom u.now falling.new }
    ensures falls { IsTrue result → (y : ℕ → Bool) → IsBarred u.now y → IsInside y (flag falling.old.held) → IsFalse (y pair) }
{
    u.keeps_invariant();
    let required = u.requires_(pair);
    let reached = falling.reached[pair.0 as usize] as usize;
    let place = first_awaited(required, &falling.given, reached);
    falling.reached[pair.0 as usize] = place.min(MOST_REACHED) as u8;
    match required.get(place) {
        Some(port) => {
            falling.awaited[pair.0 as usize] = *port;
            false
        }
        None => is_set(&falling.led, pair) || u.is_free(pair),
    }
}

// The place, from this one on, of the first port whose flag is not set; behind all of them where there is none.
fn first_awaited(required: &[PortIx], given: &[bool; PORT_LIMIT], from: usize) -> usize
    requires low { All (λ r. r < PORT_LIMIT) required.now }
    requires reached { AreReached required.now given.now from }
    ensures reached { AreReached required.now given.now result }
{
    for place in from..required.len() {
        let port = required[place];
        if !given[port.0 as usize] {
            return place;
        }
    }
    required.len()
}

/// Whether the flag of each port that the pair requires is set.
pub fn are_given(u: &Universe, given: &[bool; PORT_LIMIT], pair: PairIx) -> bool
    requires { pair < pair_count u.now }
    ensures all { IsTrue result → (r : ℕ) → IsTrue (requires u.now pair r) → IsTrue (flag given.now r) }
    ensures one { IsFalse result → (r : ℕ) × IsTrue (requires u.now pair r) × IsFalse (flag given.now r) }
{
    u.keeps_invariant();
    for port in u.requires_(pair) {
        if !given[port.0 as usize] {
            return false;
        }
    }
    true
}

// Reads what a pair outside the set gives: its ports, and its moves. Pairs that await such a port may fall, and those to which such a
// move leads.
fn spread(u: &Universe, falling: &mut Falling, pair: PairIx) -> Result<(), NoMemory>
    requires { IsFrom u.now falling.old }
    ensures { OnOk result (Falls u.now falling.old falling.new) }
{
    u.keeps_invariant();
    if falling.is_over || pair.0 >= u.pairs() || is_set(&falling.held, pair) {
        return Ok(());
    }
    for port in u.provided(pair) {
        if !falling.given[port.0 as usize] {
            falling.given[port.0 as usize] = true;
            for requirer in u.requirers(*port) {
                if falling.awaited[requirer.0 as usize] == *port {
                    let_fall(u, falling, *requirer)?;
                }
            }
        }
    }
    for next in u.next(pair) {
        falling.led[next.0 as usize] = true;
        let_fall(u, falling, *next)?;
    }
    Ok(())
}
