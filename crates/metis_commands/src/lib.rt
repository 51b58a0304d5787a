//! The answers of the commands that need no planner, a file for each: lines that are made one at a time, and whether they are good.
#![tactic(auto)]

pub mod audit;
pub mod confirm;
pub mod control;
pub mod crew;
mod goal_line;
mod laws;
pub mod place;
pub mod print;
pub mod refute;
pub mod replay;
pub mod sim;
pub mod waits;
pub mod waves;
pub mod why;

pub use laws::a_crew_has_a_line_for_each_turn;
