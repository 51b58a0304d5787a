//! What an action changed, and how it is undone.
ghost use Rattle.std.specs.Prelude.{◌≡◌, IfOk, IsTrue, OnErr};
ghost use Rattle.metis_sim.specs.Terms.{IsChangeOf, IsUndoable, before, takes_away};

use metis_config::{Bindings, Config};
use metis_ids::{Action, InstNo, NoMemory, PairIx, PortIx};

/// What leads from a configuration back to the one before it.
#[derive(Drop)]
pub enum Change {
    /// The instance was made.
    Made(InstNo),
    /// The port of the first instance was bound to the second one.
    Bound(PortIx, InstNo, InstNo),
    /// The instance was in the pair.
    Moved(InstNo, PairIx),
    /// The bindings were these. One that was taken away could be put back only with memory, and to undo takes none.
    Untied(Bindings),
    /// The configuration was this, for the same reason.
    Before(Config),
}

impl Change {
    /// What the action will change in the configuration. Only what takes something away takes memory, for a copy.
    pub fn of(c: &Config, a: &Action) -> Result<Change, NoMemory>
        ensures ok { IfOk result (IsChangeOf c.now a.now) }
        ensures memory { OnErr result (IsTrue (takes_away a.now)) }
    {
        Ok(match *a {
            Action::New { inst, .. } => Change::Made(inst),
            Action::Bind { port, inst, to } => Change::Bound(port, inst, to),
            Action::Move { inst, from, .. } => Change::Moved(inst, from),
            Action::Unbind { .. } => Change::Untied(c.copy_bindings()?),
            Action::Delete { .. } => Change::Before(c.copy()?),
        })
    }

    /// Makes it the configuration before the change. It takes no memory.
    pub fn undo(self, c: &mut Config)
        requires { IsUndoable c.old self }
        ensures { c.new ≡ before c.old self }
    {
        match self {
            Change::Made(z) => c.remove(z),
            Change::Bound(r, z, y) => c.untie(r, z, y),
            Change::Moved(z, from) => c.set_pair(z, from),
            Change::Untied(earlier) => c.set_bindings(earlier),
            Change::Before(earlier) => *c = earlier,
        }
    }
}
