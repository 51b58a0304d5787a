//! Hosts with room, read from a text, and on which of them each instance of a plan is put.
#![tactic(auto)]

mod fault;
mod further;
mod holds;
mod hosts;
mod hosts_fault;
mod hosts_text;
mod laws;
mod placing;
mod rooms;
mod seats;

pub use fault::PFault;
pub use holds::Hold;
pub use hosts::Hosts;
pub use hosts_fault::HFault;
pub use hosts_text::read_hosts;
pub use laws::{
    further_waits_are_earlier, further_waits_are_fewest, held_order_goes_on,
    hosts_line_has_its_flaw, hosts_text_is_read, no_host_is_overfull, own_order_is_held,
    seats_are_the_instances,
};
pub use placing::{Placing, place};
