//! The command that puts a plan's instances on hosts.
ghost use Rattle.std.specs.Prelude.{◌≡◌, ◌≤◌, ◌<◌, ◌-◌, ◌^◌, ◌∷◌, [], IfOk, drop, length};
ghost use Rattle.std.specs.List.{All};
ghost use Rattle.metis_commands.specs.Place.{Placed, holds_behind, made_of, no_room_line, on_lines, placed_line, placing_lines};
ghost use Rattle.metis_output.specs.Terms.{Puts, Says};
ghost use Rattle.metis_universe.specs.Terms.{IsOf, type_count};

use metis_ids::{Action, InstNo, Ix, NoMemory};
use metis_inputs::PlanAnd;
use metis_output::{Answer, Chain, Each, Either, LineAt, Lines, Once, Status, finish};
use metis_outside::Sink;
use metis_place::{Hold, Hosts, PFault, Placing, place};
use metis_steady::{check_steady, unsteady_answer};
use metis_tokens::push_numbers;
use metis_universe::Universe;
use std::alloc::{AllocError, Global};

// Where instances are, line by line: the host of each, and then the further waits and the counts.
type PlacingLines<'a> = Chain<SeatLines<'a>, Chain<HoldLines, Each<PlacedCount>>>;

// One line that says why not, or where the instances are.
type PlaceLines<'a> = Either<Once, PlacingLines<'a>>;

/// Puts the first action that cannot be done or is not steadfast, or else the host of each instance that the actions make, and what
/// they wait for besides.
#[tactic(auto, using(metis_output::proofs::Given::puts))]
pub fn put<K: Sink>(alloc: Global, read: &PlanAnd<Hosts>, out: &mut K) -> Status
    ensures { Puts K.Sink (Placed read.now.planned.universe read.now.planned.text.plan.actions read.now.text) out.old out.new result }
{
    let (u, actions) = (&read.planned.universe, &read.planned.text.plan.actions);
    finish(alloc, answer(alloc, u, actions, &read.text), out)
}

fn answer<'a>(
    alloc: Global,
    u: &Universe,
    actions: &[Action],
    h: &'a Hosts,
) -> Result<Answer<PlaceLines<'a>>, NoMemory>
    requires numbers { All (IsOf u.now) actions.now }
    requires few { length actions.now < 2 ^ 32 - 1 }
    requires hosts { length h.now.hosts ≤ 65536 }
    requires sizes { length h.now.sizes ≡ type_count u.now }
    ensures { IfOk result (Says (Placed u.now actions.now h.now) ⟦<PlaceLines<'a> as Lines>⟧.rest) }
{
    if let Err(why) = check_steady(alloc, u, actions) {
        return unsteady_answer(alloc, u, &why);
    }
    match place(alloc, u, actions, h) {
        Ok(placing) => Ok(Answer {
            lines: Either::Second(placing_lines(alloc, h, actions, placing)?),
            good: true,
        }),
        Err(PFault::NoRoom(number, size, free)) => Ok(Answer {
            lines: Either::First(no_room_line(alloc, number, size, free)?),
            good: false,
        }),
        Err(PFault::NoMemory) => Err(NoMemory),
    }
}

// The line that says that at this action no host has room for so much, and how much room the freest one has.
#[tactic(auto, using(crate::proofs::PlaceLines::is_no_room_line))]
fn no_room_line(alloc: Global, number: u32, size: u32, free: u64) -> Result<Once, AllocError>
    ensures { IfOk result (λ l. l ≡ no_room_line number size free ∷ []) }
{
    let line = format!(in alloc; "noroom {number} size {size} free {free}\n")?;
    Ok(Once::of(line))
}

// The host of each instance, the further waits, and the counts.
fn placing_lines<'a>(
    alloc: Global,
    h: &'a Hosts,
    actions: &[Action],
    placing: Placing,
) -> Result<PlacingLines<'a>, AllocError>
    requires { All (λ i. i < length h.now.hosts) placing.hosts }
    ensures { IfOk result (λ l. ⟦<PlacingLines<'a> as Lines>⟧.rest l ≡ placing_lines h.now actions.now placing) }
{
    let (made, hosts) = (placing.hosts.len(), h.count());
    let first = SeatLines {
        hosts: h,
        made: made_of(alloc, actions)?,
        places: placing.hosts,
        at: 0,
    };
    let holds = placing.holds;
    let second = Chain {
        first: HoldLines { holds, at: 0 },
        second: Each::of(PlacedCount { made, hosts }),
    };
    Ok(Chain { first, second })
}

// The instances that the actions make, in order.
fn made_of(alloc: Global, actions: &[Action]) -> Result<Vec<InstNo>, AllocError>
    ensures { IfOk result (λ made. made.items ≡ made_of actions.now) }
{
    actions
        .iter()
        .filter_map(|action| match *action {
            Action::New { inst, .. } => Some(inst),
            _ => None,
        })
        .collect(alloc)
}

/// The host of each instance from a place on.
#[derive(Drop)]
pub struct SeatLines<'a> {
    hosts: &'a Hosts,
    made: Vec<InstNo>,
    places: Vec<u32>,
    at: usize,
    ghost within: { All (λ i. i < length hosts.now.hosts) places.items },
}

impl<'a> Lines for SeatLines<'a> {
    ghost rest = { λ s. on_lines s.hosts.now (drop s.at s.made.items) (drop s.at s.places.items) };

    #[tactic(auto, using(crate::proofs::PlaceLines::is_on_line))]
    fn next_line(&mut self, line: &mut String) -> Result<bool, AllocError> {
        self.hosts.keeps_invariant();
        if self.at >= self.made.len() || self.at >= self.places.len() {
            return Ok(false);
        }
        let (inst, place) = (self.made[self.at], self.places[self.at]);
        let (z, host) = (inst.number(), self.hosts.name(place as usize));
        line.clear();
        write!(line, "on {z} {host}\n")?;
        self.at += 1;
        Ok(true)
    }
}

/// The further waits of the actions from a place on, if they have some.
#[derive(Drop)]
pub struct HoldLines {
    holds: Vec<Hold>,
    at: usize,
}

impl Lines for HoldLines {
    ghost rest = { λ h. holds_behind h.holds.items h.at };

    #[tactic(auto, using(crate::proofs::PlaceLines::is_hold_line))]
    fn next_line(&mut self, line: &mut String) -> Result<bool, AllocError> {
        while self.at < self.holds.len() {
            let hold = &self.holds[self.at];
            self.at += 1;
            if !hold.numbers.is_empty() {
                let number = self.at;
                line.clear();
                write!(line, "hold {number} after")?;
                push_numbers(line, &hold.numbers)?;
                line.push_str("\n")?;
                return Ok(true);
            }
        }
        Ok(false)
    }
}

/// The last line: how many instances are on how many hosts.
#[derive(Drop)]
pub struct PlacedCount {
    made: usize,
    hosts: usize,
}

impl LineAt for PlacedCount {
    ghost lines = { λ c. placed_line c.made c.hosts ∷ [] };

    fn count(&self) -> usize {
        1
    }

    #[tactic(auto, using(crate::proofs::PlaceLines::is_placed_line))]
    fn set_line(&self, _place: usize, line: &mut String) -> Result<(), AllocError> {
        let (made, hosts) = (self.made, self.hosts);
        line.clear();
        write!(line, "placed {made} hosts {hosts}\n")
    }
}
