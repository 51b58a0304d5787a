//! The instances to which no binding points, kept at hand while they are removed one by one.
ghost use Rattle.std.specs.Prelude.{◌≡◌, ◌==◌, ◌&&◌, ◌||◌, ℕ, IfOk, IsFalse, OnOk, not};
ghost use Rattle.metis_universe.specs.Terms.{has, remove};
ghost use Rattle.metis_rollout.specs.Terms.{AreUnreferenced, AreUnreferencedBut, all_but, is_referenced};

use crate::staying::goes;
use metis_config::Config;
use metis_ids::{InstNo, NoMemory};
use std::alloc::Global;
use std::collections::BTreeSet;

/// The instances that go and to which no binding points.
pub fn unreferenced_of(
    alloc: Global,
    stays: &BTreeSet<InstNo>,
    c: &Config,
) -> Result<BTreeSet<InstNo>, NoMemory>
    ensures { IfOk result (λ unreferenced. AreUnreferenced (all_but stays.now.keys) c.now unreferenced.keys) }
{
    let mut unreferenced = BTreeSet::new(alloc);
    for (z, _) in c.instances() {
        add_unreferenced(stays, c, z, &mut unreferenced)?;
    }
    Ok(unreferenced)
}

/// Takes an instance away to which no binding points, with its own bindings, and puts in those that go and to which none points
/// any more. It looks at these bindings alone.
pub fn let_go(
    stays: &BTreeSet<InstNo>,
    c: &mut Config,
    unreferenced: &mut BTreeSet<InstNo>,
    z: InstNo,
) -> Result<(), NoMemory>
    requires unreferenced { AreUnreferencedBut (all_but stays.now.keys) c.old z unreferenced.old.keys }
    requires free { IsFalse (is_referenced c.old z) }
    ensures config { OnOk result (c.new ≡ remove c.old z) }
    ensures unreferenced { OnOk result (AreUnreferenced (all_but stays.now.keys) c.new unreferenced.new.keys) }
{
    'needed: while let Some((r, y)) = c.needed_by(z) {
        c.keeps_invariant();
        c.untie(r, z, y);
        add_unreferenced(stays, c, y, unreferenced)?;
    }
    c.remove(z);
    Ok(())
}

// Puts the instance in where it goes and no binding points to it.
fn add_unreferenced(
    stays: &BTreeSet<InstNo>,
    c: &Config,
    y: InstNo,
    unreferenced: &mut BTreeSet<InstNo>,
) -> Result<(), NoMemory>
    ensures { OnOk result ((z : ℕ) → has unreferenced.new.keys z ≡ (has unreferenced.old.keys z || ((z == y) && (all_but stays.now.keys y && not (is_referenced c.now y))))) }
{
    if is_free(stays, c, y) {
        unreferenced.insert(y)?;
    }
    Ok(())
}

// Whether the instance goes, and no binding points to it.
fn is_free(stays: &BTreeSet<InstNo>, c: &Config, y: InstNo) -> bool
    ensures { result ≡ (all_but stays.now.keys y && not (is_referenced c.now y)) }
{
    goes(stays, y) && !c.has_clients(y)
}
