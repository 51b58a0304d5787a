//! What wishes and goals come to.
ghost use Rattle.std.specs.Prelude.{◌≡◌};

use metis_ids::{Action, Goal, InstNo, NoMemory, PortIx};
use std::alloc::AllocError;

/// What stands in the way of a reconfiguration.
#[derive(Clone, Copy)]
pub enum Obstacle {
    /// A line names this instance, which does not stand.
    Absent(InstNo),
    /// The first instance is to stay, or may be bound anew, and yet leaves, since it is, or stands on, the second, which is retired or
    /// in an avoided pair.
    Kept(InstNo, InstNo),
    /// The goal is missing, and is an avoided pair, or cannot be attained with what is not avoided.
    Unavoidable(Goal),
    /// The instance may be bound anew, and lacks providers of the port, which cannot be had.
    Unmet(InstNo, PortIx),
    /// There are so many targets, which are more than 256.
    Needs(u64),
}

/// What wishes and goals come to.
#[derive(Drop)]
pub enum Reconfigured {
    /// The old actions, what makes and binds what is missing, and then the removal of what does not stay.
    Actions(Vec<Action>),
    /// The first obstacle.
    Barred(Obstacle),
}

/// Why there is no list of actions.
pub enum Bar {
    Obstacle(Obstacle),
    NoMemory,
}

impl From<NoMemory> for Bar {
    ghost use Rattle.metis_reconfigure.specs.declared.answer.Bar.TheVariants as bar;

    ghost from_gives = { λ _ e. e ≡ bar.NoMemory };

    fn from(_: NoMemory) -> Self {
        Bar::NoMemory
    }
}

impl From<AllocError> for Bar {
    ghost use Rattle.metis_reconfigure.specs.declared.answer.Bar.TheVariants as bar;

    ghost from_gives = { λ _ e. e ≡ bar.NoMemory };

    fn from(_: AllocError) -> Self {
        Bar::NoMemory
    }
}
