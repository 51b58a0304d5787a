//! The lines that are there before any own pair has one.
ghost use Rattle.std.specs.Prelude.{◌≡◌, ◌<◌, ◌++◌, ◌||◌, ℕ, map, IfOk, IsTrue};
ghost use Rattle.std.specs.List.{All};
ghost use Rattle.metis_support.specs.Terms.{is_selected, path_to};
ghost use Rattle.metis_universe.specs.Terms.{has};
ghost use Rattle.metis_lines.specs.Terms.{is_origin, other_ends};

use crate::line::Line;
use metis_ids::{NoMemory, PairIx, PairSet};
use metis_support::Support;
use std::alloc::Global;

/// A line for each target, in order, and for each selected pair that is no target and no origin. It goes once over the
/// selected pairs and their lines.
pub fn first_lines(alloc: Global, s: &Support, targets: &[PairIx]) -> Result<Vec<Line>, NoMemory>
    requires { (p : ℕ) → IsTrue (has targets.now p) → IsTrue (is_selected s.now p) }
    ensures { IfOk result (λ lines. lines.items ≡ map (path_to s.now) (targets.now ++ other_ends s.now targets.now)) }
{
    let passed = targets_and_origins(alloc, s, targets)?;
    let mut lines = target_lines(alloc, s, targets)?;
    for pair in s.selected().iter() {
        if !passed.has(pair) {
            lines.push(Line::to(alloc, s, pair)?)?;
        }
    }
    Ok(lines)
}

// A line for each target.
fn target_lines(alloc: Global, s: &Support, targets: &[PairIx]) -> Result<Vec<Line>, NoMemory>
    requires { (p : ℕ) → IsTrue (has targets.now p) → IsTrue (is_selected s.now p) }
    ensures { IfOk result (λ lines. lines.items ≡ map (path_to s.now) targets.now) }
{
    let mut lines = Vec::new(alloc);
    for target in targets {
        lines.push(Line::to(alloc, s, *target)?)?;
    }
    Ok(lines)
}

// The targets and the origins of selected pairs.
fn targets_and_origins(alloc: Global, s: &Support, targets: &[PairIx]) -> Result<PairSet, NoMemory>
    requires { (p : ℕ) → IsTrue (has targets.now p) → IsTrue (is_selected s.now p) }
    ensures { IfOk result (λ set. (p : ℕ) → has set.members p ≡ (has targets.now p || is_origin s.now p)) }
{
    let mut set = PairSet::with_pairs(alloc, s.selected().size())?;
    add_all(&mut set, targets);
    add_origins(&mut set, s);
    Ok(set)
}

fn add_all(set: &mut PairSet, pairs: &[PairIx])
    requires { All (λ p. p < set.old.size) pairs.now }
    ensures size { set.new.size ≡ set.old.size }
    ensures members { (p : ℕ) → has set.new.members p ≡ (has pairs.now p || has set.old.members p) }
{
    for pair in pairs {
        set.add(*pair);
    }
}

// Adds the origins of the selected pairs.
fn add_origins(set: &mut PairSet, s: &Support)
    requires { set.old.size ≡ s.now.selected.size }
    ensures { (p : ℕ) → has set.new.members p ≡ (has set.old.members p || is_origin s.now p) }
{
    for pair in s.selected().iter() {
        if let Some(origin) = s.origin(pair) {
            set.add(origin);
        }
    }
}
