//! The first binding at an end.
ghost use Rattle.std.specs.Prelude.{◌≡◌, ◌==◌, ◌&&◌, ℕ, IsFalse, IsSome, IsTrue, MatchOption, [], option_map};
ghost use Rattle.std.specs.List.{find};
ghost use Rattle.std.specs.BTreeMap.{get};
ghost use Rattle.metis_universe.specs.Terms.{config_of, is_bound};
ghost use Rattle.metis_config.specs.Terms.{key_cmp};

use crate::supply::Supply;
use metis_ids::{InstNo, PortIx};
use std::collections::{BTreeMap, BTreeSet};

/// The first binding to this provider: its requirer, and its port. The bindings are given by their providers.
pub fn first_to(clients: &BTreeSet<(InstNo, InstNo, PortIx)>, y: InstNo) -> Option<(InstNo, PortIx)>
    ensures { result ≡ option_map (λ b. (b.1, b.2)) (find (λ b. b.0 == y) clients.now.keys) }
{
    match clients.range((y, InstNo(0), PortIx(0))..).next() {
        Some(client) => {
            if client.0 == y {
                Some((client.1, client.2))
            } else {
                None
            }
        }
        None => None,
    }
}

/// A binding of this requirer: its port, and its provider. Each port at which it has one is given with its crowd.
pub fn some_from(
    crowds: &BTreeMap<(InstNo, PortIx), Supply>,
    bindings: &BTreeSet<(PortIx, InstNo, InstNo)>,
    z: InstNo,
) -> Option<(PortIx, InstNo)>
    requires { (r y : ℕ) → IsTrue (is_bound (config_of [] bindings.now.keys) r z y) → IsSome (get key_cmp crowds.now (z, r)) }
    ensures { MatchOption result ((r y : ℕ) → IsFalse (is_bound (config_of [] bindings.now.keys) r z y)) (λ b. IsTrue (is_bound (config_of [] bindings.now.keys) b.0 z b.1)) }
{
    for (key, _) in crowds.range((z, PortIx(0))..) {
        if key.0 != z {
            return None;
        }
        if let Some(y) = first_at(bindings, key.1, z) {
            return Some((key.1, y));
        }
    }
    None
}

// The first provider of the requirer's port.
fn first_at(bindings: &BTreeSet<(PortIx, InstNo, InstNo)>, r: PortIx, z: InstNo) -> Option<InstNo>
    ensures { result ≡ option_map (λ b. b.2) (find (λ b. (b.0 == r) && (b.1 == z)) bindings.now.keys) }
{
    match bindings.range((r, z, InstNo(0))..).next() {
        Some(tie) => {
            if tie.0 == r && tie.1 == z {
                Some(tie.2)
            } else {
                None
            }
        }
        None => None,
    }
}
