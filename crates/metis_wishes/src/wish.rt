//! One wish.
ghost use Rattle.std.specs.Prelude.{◌≡◌};
ghost use Rattle.metis_wishes.specs.Terms.{is_everything, is_instance, is_kind, is_pair, is_same, subject_of};

use metis_ids::{InstNo, PairIx, TypeIx};

/// What a line of the text of wishes says.
#[derive(Clone, Copy)]
pub enum Wish {
    /// The instance stays, with all that it stands on.
    Keep(InstNo),
    /// All that does not leave stays.
    KeepAll,
    /// The instance stays, and may be bound to other providers where its own leave.
    Rebind(InstNo),
    /// Nothing that is wanted stands on the instance, and it goes once the new stands.
    Retire(InstNo),
    /// The pairs of the type serve nothing new, and what stands in them goes.
    AvoidType(TypeIx),
    /// The pair serves nothing new, and what stands in it goes.
    AvoidPair(PairIx),
}

/// What a wish is about. No two wishes of a text are about one thing.
#[derive(Clone, Copy)]
pub enum Subject {
    Instance(InstNo),
    Everything,
    Kind(TypeIx),
    Pair(PairIx),
}

/// What the wish is about.
pub fn subject_of(wish: Wish) -> Subject
    ensures { result ≡ subject_of wish }
{
    match wish {
        Wish::Keep(z) | Wish::Rebind(z) | Wish::Retire(z) => Subject::Instance(z),
        Wish::KeepAll => Subject::Everything,
        Wish::AvoidType(kind) => Subject::Kind(kind),
        Wish::AvoidPair(pair) => Subject::Pair(pair),
    }
}

/// Whether both are one thing.
pub fn is_same(one: Subject, other: Subject) -> bool
    ensures { result ≡ is_same one other }
{
    match one {
        Subject::Instance(z) => is_instance(other, z),
        Subject::Everything => is_everything(other),
        Subject::Kind(kind) => is_kind(other, kind),
        Subject::Pair(pair) => is_pair(other, pair),
    }
}

fn is_instance(subject: Subject, z: InstNo) -> bool
    ensures { result ≡ is_instance subject z }
{
    match subject {
        Subject::Instance(y) => y == z,
        _ => false,
    }
}

fn is_everything(subject: Subject) -> bool
    ensures { result ≡ is_everything subject }
{
    matches!(subject, Subject::Everything)
}

fn is_kind(subject: Subject, kind: TypeIx) -> bool
    ensures { result ≡ is_kind subject kind }
{
    match subject {
        Subject::Kind(other) => other == kind,
        _ => false,
    }
}

fn is_pair(subject: Subject, pair: PairIx) -> bool
    ensures { result ≡ is_pair subject pair }
{
    match subject {
        Subject::Pair(other) => other == pair,
        _ => false,
    }
}
