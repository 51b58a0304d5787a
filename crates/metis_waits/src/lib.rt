//! Which actions of a list each of its actions waits for, and the orders that keep these waits.
#![tactic(auto)]

mod fault;
mod instances;
mod judged;
mod laws;
mod pass;
mod rows;
mod summary;
mod wait_lists;

pub use fault::WFault;
pub use judged::Judged;
pub use laws::{
    a_kept_list_is_steadfast, complete_order_ends_alike, failure_isolates, kept_order_goes_on,
    kept_order_is_a_run, kept_order_is_in_time, own_order_is_kept, waits_have_causes,
};
pub use pass::{first_loose, waits};
pub use wait_lists::Waits;
