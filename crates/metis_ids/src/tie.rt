//! What binds an instance to slots, or unbinds it.
ghost use Rattle.std.specs.Prelude.{◌≡◌};
ghost use Rattle.metis_ids.specs.Ties.{tie_action};

use crate::actions::Action;
use crate::indices::{InstNo, PortIx};

/// What becomes of the bindings of an instance to slots.
#[derive(Clone, Copy)]
pub enum Tie {
    Bound(InstNo),
    Unbound(InstNo),
}

impl Tie {
    /// The action at one slot of the port, which `to` is.
    pub fn action(&self, port: PortIx, to: InstNo) -> Action
        ensures { result ≡ tie_action self.now port to }
    {
        match *self {
            Tie::Bound(inst) => Action::Bind { port, inst, to },
            Tie::Unbound(inst) => Action::Unbind { port, inst, to },
        }
    }
}
