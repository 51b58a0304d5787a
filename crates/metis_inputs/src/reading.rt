//! From files to what they mean.
ghost use Rattle.std.specs.Prelude.{◌≡◌, ◌<◌, ◌≤◌, ◌^◌, length, IfOk};
ghost use Rattle.std.specs.List.{All};
ghost use Rattle.metis_universe.specs.Terms.{IsGoalOf, IsWordable};
ghost use Rattle.metis_inputs.specs.Terms.{Gathers, Judges, bytes_then, goals_said, goals_then, or_stop, targets_then, text_then, universe_in_then, universe_then};

use crate::asked::Asked;
use crate::stop::{InputFault, Stop};
use crate::texts::Text;
use metis_ids::Goal;
use metis_outside::{ReadAnswer, Shelf, read_whole};
use metis_ujson::{UFault, UNIVERSE_LIMIT, read_universe};
use metis_universe::Universe;
use metis_words::TargetWord;
use std::alloc::Global;

// What a reading gives, or why it stops the run.
fn or_stop(read: Result<Vec<u8>, ReadAnswer>, place: u32) -> Result<Vec<u8>, Stop>
    ensures { result ≡ or_stop read place }
{
    match read {
        Ok(bytes) => Ok(bytes),
        Err(ReadAnswer::Failed) => Err(Stop::Failed(place)),
        Err(ReadAnswer::TooLong(_)) => Err(Stop::Faulty(InputFault::TooLong(place))),
        Err(ReadAnswer::NoMemory) => Err(Stop::NoMemory),
    }
}

/// All bytes of the file of the word at this place.
fn bytes_from<H: Shelf>(
    alloc: Global,
    shelf: &mut H,
    place: u32,
    name: &str,
    limit: u64,
) -> Result<Vec<u8>, Stop>
    requires { limit < 2 ^ 63 }
    ensures gathers { Gathers H.files H.faults H.opens (λ bytes. bytes.items) (bytes_then place name.now limit) shelf.old shelf.new result }
    ensures few { IfOk result (λ bytes. length bytes.items ≤ limit) }
{
    or_stop(read_whole(alloc, shelf, name, limit), place)
}

/// What the file of the word at this place says as a text of this type.
pub fn text_from<T: Text, H: Shelf>(
    alloc: Global,
    shelf: &mut H,
    place: u32,
    u: &Universe,
    name: &str,
) -> Result<T, Stop>
    ensures gathers { Gathers H.files H.faults H.opens T.said (text_then T.kind place u.now name.now) shelf.old shelf.new result }
    ensures fits { IfOk result (T.fits u.now) }
{
    let bytes = bytes_from(alloc, shelf, place, name, T::limit())?;
    T::read(alloc, u, bytes)
}

/// The universe that the bytes mean.
fn universe_in(alloc: Global, bytes: &[u8]) -> Result<Universe, Stop>
    ensures { Judges (λ u. u) (universe_in_then bytes.now) result }
{
    match read_universe(alloc, bytes) {
        Ok(universe) => Ok(universe),
        Err(UFault::NoMemory) => Err(Stop::NoMemory),
        Err(fault) => Err(Stop::Faulty(InputFault::Universe(fault))),
    }
}

/// The universe in the file of the word at this place.
pub fn universe_from<H: Shelf>(
    alloc: Global,
    shelf: &mut H,
    place: u32,
    name: &str,
) -> Result<Universe, Stop>
    ensures { Gathers H.files H.faults H.opens (λ u. u) (universe_then place name.now) shelf.old shelf.new result }
{
    let bytes = bytes_from(alloc, shelf, place, name, UNIVERSE_LIMIT)?;
    universe_in(alloc, &bytes)
}

/// The goals that the target words ask for, the first of which is the word at this place.
fn goals_in(
    alloc: Global,
    u: &Universe,
    place: u32,
    targets: &[TargetWord],
) -> Result<Vec<Goal>, Stop>
    requires few { length targets.now ≤ 256 }
    requires place { place ≤ 5 }
    ensures judges { Judges (λ goals. goals.items) (targets_then place u.now targets.now) result }
    ensures few { IfOk result (λ goals. length goals.items ≤ 256) }
    ensures within { IfOk result (λ goals. All (IsGoalOf u.now) goals.items) }
    ensures wordable { IfOk result (λ goals. All (IsWordable u.now) goals.items) }
{
    let mut goals = Vec::new(alloc);
    for (k, target) in targets.iter().enumerate() {
        match u.goal_named(target.kind.as_str(), target.state.as_str()) {
            Some(goal) => goals.push(goal)?,
            None => return Err(Stop::Faulty(InputFault::Word(place + k as u32))),
        }
    }
    Ok(goals)
}

/// The universe in the file, and the goals in it that the target words ask for, the first of which is the word at this place.
pub fn goals_from<H: Shelf>(
    alloc: Global,
    shelf: &mut H,
    file: &str,
    place: u32,
    targets: &[TargetWord],
) -> Result<Asked, Stop>
    requires few { length targets.now ≤ 256 }
    requires place { place ≤ 5 }
    ensures { Gathers H.files H.faults H.opens goals_said (goals_then place file.now targets.now) shelf.old shelf.new result }
{
    let universe = universe_from(alloc, shelf, 2, file)?;
    match goals_in(alloc, &universe, place, targets) {
        Ok(goals) => Ok(Asked { universe, goals }),
        Err(stop) => {
            drop(universe);
            Err(stop)
        }
    }
}
