//! Universe documents: from their bytes to the universe that they mean, and back.
#![tactic(auto)]

mod faults;
mod forms;
mod laws;
mod members;
mod read;
mod spelling;
mod write;

pub use faults::UFault;
pub use laws::{first_form_fault_comes_first, written_is_a_line, written_is_read};
pub use read::{UNIVERSE_LIMIT, read_universe};
pub use write::{universe_line, write_universe};
