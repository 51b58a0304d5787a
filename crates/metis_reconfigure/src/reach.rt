//! What is reached along edges.
ghost use Rattle.std.specs.Prelude.{◌≡◌, ◌++◌, ◌∷◌, ℕ, List, [], IfOk, MatchOption, OnOk};
ghost use Rattle.metis_ids.specs.Terms.{has};
ghost use Rattle.metis_reconfigure.specs.Terms.{AreReached, Edge, IsClosed, IsFollowed, IsUnderWay};

use metis_config::first_to;
use metis_ids::{InstNo, NoMemory, PortIx};
use std::alloc::{AllocError, Global};
use std::collections::BTreeSet;

/// An edge from one instance to another, at a port.
pub type Edge = (InstNo, InstNo, PortIx);

/// The least set of instances that has the starts and, with each instance, those to which an edge leads from it. Each edge is taken
/// once, and those that are left lead from other instances.
pub fn reached(
    alloc: Global,
    starts: BTreeSet<InstNo>,
    edges: &mut BTreeSet<Edge>,
) -> Result<BTreeSet<InstNo>, NoMemory>
    ensures reached { IfOk result (λ zs. AreReached starts.keys edges.old.keys zs.keys) }
    ensures left { IfOk result (λ zs. IsClosed edges.old.keys edges.new.keys zs.keys) }
{
    let mut seen = starts;
    let waiting = all_of(alloc, &seen)?;
    follow_all(edges, &mut seen, waiting)?;
    Ok(seen)
}

/// Puts one more instance into such a set, with all that is reached from it along the edges that were left.
pub fn reach_too(
    alloc: Global,
    z: InstNo,
    left: &mut BTreeSet<Edge>,
    seen: &mut BTreeSet<InstNo>,
) -> Result<(), NoMemory>
    ensures { OnOk result ((edges : List Edge) → IsClosed edges left.old.keys seen.old.keys
        → AreReached (z ∷ seen.old.keys) edges seen.new.keys × IsClosed edges left.new.keys seen.new.keys) }
{
    let mut waiting = Vec::new(alloc);
    seen.insert(z)?;
    waiting.push(z)?;
    follow_all(left, seen, waiting)
}

// Takes the edges from each instance that waits, and from those to which they lead.
fn follow_all(
    left: &mut BTreeSet<Edge>,
    seen: &mut BTreeSet<InstNo>,
    waiting: Vec<InstNo>,
) -> Result<(), NoMemory>
    ensures { OnOk result ((starts : List ℕ) (edges : List Edge) → IsUnderWay starts edges left.old.keys seen.old.keys waiting.items
        → AreReached starts edges seen.new.keys × IsClosed edges left.new.keys seen.new.keys) }
{
    let mut waiting = waiting;
    'instances: while let Some(z) = next_of(&mut waiting) {
        follow_from(z, left, seen, &mut waiting)?;
    }
    Ok(())
}

// The members of the set.
fn all_of(alloc: Global, set: &BTreeSet<InstNo>) -> Result<Vec<InstNo>, AllocError>
    ensures { IfOk result (λ zs. zs.items ≡ set.now.keys) }
{
    set.iter().copied().collect(alloc)
}

// Takes the last of those that wait.
fn next_of(waiting: &mut Vec<InstNo>) -> Option<InstNo>
    ensures { MatchOption result (waiting.old.items ≡ []) (λ z. waiting.old.items ≡ waiting.new.items ++ z ∷ []) }
{
    waiting.pop()
}

// Takes the edges that lead from the instance. The instances to which they lead are seen, and those that were not seen before wait.
fn follow_from(
    z: InstNo,
    left: &mut BTreeSet<Edge>,
    seen: &mut BTreeSet<InstNo>,
    waiting: &mut Vec<InstNo>,
) -> Result<(), NoMemory>
    ensures { OnOk result (IsFollowed z left.old.keys left.new.keys seen.old.keys seen.new.keys waiting.old.items waiting.new.items) }
{
    'edges: while let Some(edge) = first_to(left, z) {
        let (y, port) = edge;
        left.remove(&(z, y, port));
        if !holds(seen, y) {
            seen.insert(y)?;
            waiting.push(y)?;
        }
    }
    Ok(())
}

/// Whether the set has the instance.
pub fn holds(set: &BTreeSet<InstNo>, z: InstNo) -> bool
    ensures { result ≡ has set.now.keys z }
{
    set.contains(&z)
}
