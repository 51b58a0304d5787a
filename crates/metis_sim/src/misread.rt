//! Why a line asks for no action.
use metis_ids::InstNo;

/// Why a line asks for no action.
#[derive(Clone, Copy)]
pub enum Misread {
    /// It has no form of a line.
    Form,
    /// A type, a port or a state is not there.
    Name,
    /// The instance whose states are named is not there.
    Absent(InstNo),
}
