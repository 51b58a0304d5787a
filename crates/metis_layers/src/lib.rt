//! In how many rounds each pair is attained, and from which pair each port is taken first.
#![tactic(auto)]

mod counters;
mod laws;
mod rounds;
pub mod table;
mod work;

pub use laws::{layer_order_deploys, layer_order_is_short, layers_are_attainable};
pub use table::counted::{layers, layers_counted};
