//! The text of an explanation why a goal is never attained, each line of which can be looked up in the universe: written, and read
//! with its first fault.
#![tactic(auto)]

mod laws;
mod lists;
mod read;
mod said;
mod words;
mod write;

pub use laws::{
    accepted_why_is_written, bytes_past_a_why_are_told, front_of_short_why_is_short,
    no_why_begins_with_a_fault, short_why_until_a_line_ends, told_why_fault_is_had,
    told_why_fault_is_one, why_front_is_short, why_has_lines, why_is_read, why_text_is_short,
};
pub use read::read_why;
pub use write::{WhyLines, lines_of_why, write_why};
