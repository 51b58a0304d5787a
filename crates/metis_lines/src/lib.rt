//! Life lines, and what has to happen before what on them.
#![tactic(auto)]

mod first;
mod held;
mod laws;
mod line;
pub mod lines;
mod over;
mod slots;

pub use laws::{
    first_lines_end_apart, graphs_are_sound, lines_are_few, lines_are_sound,
    own_line_makes_one_less_loose, own_lines_end_apart,
};
pub use lines::Lines;
pub use over::OverLines;
