//! Whether the instances go through the stations of the lines of their numbers.
ghost use Rattle.std.specs.Prelude.{◌≡◌, ◌≢◌, ◌<◌, ℕ, List, ◌++◌, ◌∷◌, [], IfOk, MatchBool, MatchOption, length};
ghost use Rattle.std.specs.List.{All};
ghost use Rattle.metis_ids.specs.declared.actions.Action.{Action};
ghost use Rattle.metis_universe.specs.Terms.{IsOf};
ghost use Rattle.metis_emit.specs.Terms.{entered};
ghost use Rattle.metis_lines.specs.Terms.{line_at};
ghost use Rattle.metis_audit.specs.Terms.{AreWalks, IsFirstAstray, IsWalk, entry_of};

use metis_ids::{Action, InstNo, Ix, LineIx, NoMemory, PairIx, StepIx};
use metis_lines::Lines;
use metis_universe::Universe;
use std::alloc::Global;

/// The first line whose stations are not the pairs that the actions put its instance into, in order. It goes once over the
/// actions, and keeps a number for each line.
pub fn first_astray(
    alloc: Global,
    u: &Universe,
    l: &Lines,
    actions: &[Action],
) -> Result<Option<LineIx>, NoMemory>
    requires { All (IsOf u.now) actions.now }
    ensures { IfOk result (λ line. MatchOption line ((m : ℕ) → m < length l.now.lines → entered u.now m actions.now ≡ line_at l.now m) (IsFirstAstray u.now l.now actions.now)) }
{
    let mut walks = at_start(alloc, u, l)?;
    for action in actions {
        note(&mut walks, u, l, action);
    }
    Ok(first_open(u, l, &walks))
}

// Before any action.
fn at_start(alloc: Global, u: &Universe, l: &Lines) -> Result<Vec<Option<u32>>, NoMemory>
    ensures { IfOk result (λ walks. AreWalks u.now l.now [] walks.items) }
{
    let mut walks = Vec::new(alloc);
    for _number in 0..l.count() {
        walks.push(Some(0))?;
    }
    Ok(walks)
}

// Notes what one more action does.
fn note(walks: &mut Vec<Option<u32>>, u: &Universe, l: &Lines, action: &Action)
    requires count { length walks.old.items ≡ length l.now.lines }
    requires numbers { IsOf u.now action.now }
    ensures { (actions : List Action) → AreWalks u.now l.now actions walks.old.items → AreWalks u.now l.now (actions ++ action.now ∷ []) walks.new.items }
{
    if let Some(entry) = entry(u, action) {
        let number = entry.0.number();
        if number < l.count() {
            let place = number as usize;
            walks[place] = onward(l, LineIx(number), walks[place], entry.1);
        }
    }
}

// The instance that the action puts into a pair, with the pair.
fn entry(u: &Universe, action: &Action) -> Option<(InstNo, PairIx)>
    requires { IsOf u.now action.now }
    ensures { result ≡ entry_of u.now action.now }
{
    match *action {
        Action::New { inst, kind } => Some((inst, u.initial(kind))),
        Action::Move { inst, to, .. } => Some((inst, to)),
        _ => None,
    }
}

// How far the instance is once it has entered the pair.
fn onward(l: &Lines, line: LineIx, so_far: Option<u32>, pair: PairIx) -> Option<u32>
    requires { line < length l.now.lines }
    ensures { (pairs : List ℕ) → IsWalk (line_at l.now line) pairs so_far → IsWalk (line_at l.now line) (pairs ++ pair ∷ []) result }
{
    let count = so_far?;
    if count <= l.last(line).0 && l.station(line, StepIx(count)) == pair {
        Some(count + 1)
    } else {
        None
    }
}

// The first line that is not gone through.
fn first_open(u: &Universe, l: &Lines, walks: &[Option<u32>]) -> Option<LineIx>
    requires { length walks.now ≡ length l.now.lines }
    ensures { (actions : List Action) → AreWalks u.now l.now actions walks.now → MatchOption result ((m : ℕ) → m < length l.now.lines → entered u.now m actions ≡ line_at l.now m) (IsFirstAstray u.now l.now actions) }
{
    for number in 0..l.count() {
        let line = LineIx(number);
        if !is_whole(l, line, walks[number as usize]) {
            return Some(line);
        }
    }
    None
}

// Whether the instance has gone through all of the line.
fn is_whole(l: &Lines, line: LineIx, so_far: Option<u32>) -> bool
    requires { line < length l.now.lines }
    ensures { (pairs : List ℕ) → IsWalk (line_at l.now line) pairs so_far → MatchBool result (pairs ≡ line_at l.now line) (pairs ≢ line_at l.now line) }
{
    match so_far {
        Some(count) => count == l.last(line).0 + 1,
        None => false,
    }
}
