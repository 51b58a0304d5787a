//! The words behind the program's name: the command that they are, or the first that does not fit.
#![tactic(auto)]

mod grammar;
mod laws;
mod words;

pub use grammar::read_words;
pub use laws::numbers_are_all_words;
pub use words::{Command, TargetWord, Verb, WordFault};
