//! Why a goal is never attained: a small set of pairs that wait for one another, each with its reason.
//!
//! The steps of an explanation, as `explain` goes them:
//!
//! 1. `explaining` takes the pairs that are not attainable, and `covering` finds the first goal that they cover.
//! 2. `distance` puts the pairs behind this goal in order, from near to far.
//! 3. `front` cuts the order to its first pairs of which a barred set covers the goal. `settling` finds the greatest such set: pairs
//!    that wait for none of the others fall out of it, one after the other by `falling`.
//! 4. `minimizing` leaves pairs out, from the farthest on, until none can be left out. It does not try those that `forcing` finds.
//! 5. `listing` gives each pair that is left a line with a reason, in the order in which lines name pairs.
//!
//! All stand on `named`, the pairs for which a pair waits, and on `outside`, what the pairs outside a set give. `one_goal` explains one
//! goal, and `confirming` judges lines from any source.
#![tactic(auto)]

// The words of an explanation.
mod reason;

// A goal of a universe.
mod target;

// The pairs for which a pair waits.
mod named;

// What the pairs outside a set give.
mod outside;

// Step 1, and the calls of the others.
mod explaining;

// Whether a set has what a goal wants.
mod covering;

// Step 2.
mod distance;

// Step 3.
mod front;

// The greatest barred set inside another.
mod settling;

// How pairs fall out of a set.
mod falling;

// Step 4.
mod minimizing;

// The pairs that cannot be left out.
mod forcing;

// Step 5.
mod listing;

// The explanation of one goal.
mod one_goal;

// The verdict on lines from any source.
mod confirming;

// What is so of all explanations.
mod laws;

pub use confirming::{Confirmation, confirm};
pub use explaining::{Explained, explain};
pub use laws::{
    a_circle_shows, a_reason_is_the_port_of_the_fewest, barred_goals_are_not_attained,
    barred_pairs_are_closed_out, choice_comes_to_one_explanation, each_line_is_named_above,
    each_line_is_reached, none_of_the_nearest_can_be_left_out, the_last_line_shows,
    the_order_is_by_distance, the_order_is_reached, there_is_an_explanation,
    true_lines_rule_out_the_goal, trying_comes_to_the_nearest, what_is_chosen_is_an_explanation,
    what_is_told_is_confirmed, what_is_told_is_confirmed_of_all,
};
pub use named::named as named_by;
pub use one_goal::{Because, why};
pub use reason::{Explanation, Line, Reason};
