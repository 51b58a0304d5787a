//! What an operator wishes of what stands: which instances stay, go, or may be bound anew, and what is to be avoided.
#![tactic(auto)]

mod fault;
mod laws;
mod read;
mod wish;

pub use fault::WishFault;
pub use laws::{
    each_line_says_its_wish, each_wish_is_of_a_line, no_two_wishes_are_about_the_same,
    wishes_front_is_short,
};
pub use read::{WISHES_LIMIT, read_wishes};
pub use wish::Wish;
