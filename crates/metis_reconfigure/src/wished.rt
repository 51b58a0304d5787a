//! The instances that wishes name, as sets.
ghost use Rattle.std.specs.Prelude.{◌≡◌, ◌||◌, ℕ, IfOk, OnOk};
ghost use Rattle.metis_universe.specs.Terms.{has};
ghost use Rattle.metis_wishes.specs.Terms.{kept, kept_of, rebound, rebound_of, retired, retired_of};

use metis_ids::{InstNo, NoMemory};
use metis_wishes::Wish;
use std::alloc::Global;
use std::collections::BTreeSet;

/// The instances of the lines `keep N`; `keep all` and `rebind` add none. The error is that memory ran out.
pub fn kept_set(alloc: Global, wishes: &[Wish]) -> Result<BTreeSet<InstNo>, NoMemory>
    ensures { IfOk result (λ set. (z : ℕ) → has set.keys z ≡ has (kept wishes.now) z) }
{
    let mut set = BTreeSet::new(alloc);
    for wish in wishes {
        if let Some(z) = kept_of(*wish) {
            set.insert(z)?;
        }
    }
    Ok(set)
}

/// The instances of the lines `rebind N`. The error is that memory ran out.
pub fn rebound_set(alloc: Global, wishes: &[Wish]) -> Result<BTreeSet<InstNo>, NoMemory>
    ensures { IfOk result (λ set. (z : ℕ) → has set.keys z ≡ has (rebound wishes.now) z) }
{
    let mut set = BTreeSet::new(alloc);
    add_rebound(wishes, &mut set)?;
    Ok(set)
}

/// Adds the instances of the lines `rebind N`. The error is that memory ran out.
pub fn add_rebound(wishes: &[Wish], set: &mut BTreeSet<InstNo>) -> Result<(), NoMemory>
    ensures { OnOk result ((z : ℕ) → has set.new.keys z ≡ (has set.old.keys z || has (rebound wishes.now) z)) }
{
    for wish in wishes {
        if let Some(z) = rebound_of(*wish) {
            set.insert(z)?;
        }
    }
    Ok(())
}

/// The instances of the lines `retire N`. The error is that memory ran out.
pub fn retired_set(alloc: Global, wishes: &[Wish]) -> Result<BTreeSet<InstNo>, NoMemory>
    ensures { IfOk result (λ set. (z : ℕ) → has set.keys z ≡ has (retired wishes.now) z) }
{
    let mut set = BTreeSet::new(alloc);
    for wish in wishes {
        if let Some(z) = retired_of(*wish) {
            set.insert(z)?;
        }
    }
    Ok(set)
}

// The instance of a line `keep N`.
fn kept_of(wish: Wish) -> Option<InstNo>
    ensures { result ≡ kept_of wish }
{
    match wish {
        Wish::Keep(z) => Some(z),
        _ => None,
    }
}

// The instance of a line `rebind N`.
fn rebound_of(wish: Wish) -> Option<InstNo>
    ensures { result ≡ rebound_of wish }
{
    match wish {
        Wish::Rebind(z) => Some(z),
        _ => None,
    }
}

// The instance of a line `retire N`.
fn retired_of(wish: Wish) -> Option<InstNo>
    ensures { result ≡ retired_of wish }
{
    match wish {
        Wish::Retire(z) => Some(z),
        _ => None,
    }
}
