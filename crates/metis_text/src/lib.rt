//! The texts of plans, in which each action names the others that it waits for, and those of refusals: written, and read
//! with their first fault.
#![tactic(auto)]

mod action_line;
mod dup_line;
mod events;
mod laws;
mod lines;
mod plan_text;
mod read;
mod refusal_lines;
mod refusal_read;
mod refusal_text;
mod refusal_write;
mod rows;
mod write;

pub use laws::{
    accepted_is_written, accepted_refusal_is_written, bytes_past_a_refusal_are_told,
    bytes_past_the_end_are_told, front_is_short, front_of_short_is_short,
    front_of_short_refusal_is_short, miscount_is_told, no_refusal_begins_with_a_fault,
    no_text_begins_with_a_fault, plan_has_lines, refusal_front_is_short, refusal_has_lines,
    refusal_is_read, short_refusal_until_a_line_ends, short_until_a_line_ends, told_fault_is_had,
    told_fault_is_one, told_refusal_fault_is_had, told_refusal_fault_is_one, well_formed_is_read,
    written_run_is_read, written_run_is_well_formed,
};
pub use metis_tokens::TFault;
pub use plan_text::PlanText;
pub use read::read_plan;
pub use refusal_read::read_refusal;
pub use refusal_text::Refusal;
pub use refusal_write::{RefusalLines, lines_of_refusal, write_refusal};
pub use write::{PlanLines, lines_of_plan, write_plan};
