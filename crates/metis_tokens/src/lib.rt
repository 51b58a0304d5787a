//! What the texts of plans, refusals, explanations, hosts and scripts share: their lines one after another, the tokens of a
//! line with what is wrong with it, and lines that more than one of them has.
#![tactic(auto)]

pub mod bytes;
pub mod cursor;
mod fault;
mod flaw;
mod gather;
mod missing;
mod numbers;
mod own;
mod script;
mod tokens;

pub use fault::TFault;
pub use flaw::{Flaw, both, graver, numbered};
pub use gather::numbers_in;
pub use missing::missing_line;
pub use numbers::push_numbers;
pub use own::{Lined, read_own};
pub use script::{pieces_of, script_lines};
pub use tokens::{
    due, goal_in, number_in, pair_in, port_in, retake_tokens, state_near, tokens_of, type_in,
};
