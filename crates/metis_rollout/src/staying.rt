//! What goes: all but the instances of a set.
ghost use Rattle.std.specs.Prelude.{◌≡◌};
ghost use Rattle.metis_rollout.specs.Terms.{all_but, among};

use metis_config::Config;
use metis_ids::InstNo;
use std::collections::BTreeSet;

/// Whether the instance goes.
pub fn goes(stays: &BTreeSet<InstNo>, z: InstNo) -> bool
    ensures { result ≡ all_but stays.now.keys z }
{
    !stays.contains(&z)
}

/// Takes out the instances that stay, so that those that go are left, with the bindings between them.
pub fn take_out(stays: &BTreeSet<InstNo>, c: &mut Config)
    ensures { c.new ≡ among (all_but stays.now.keys) c.old }
{
    for z in stays {
        c.remove(*z);
    }
}
