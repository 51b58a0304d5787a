//! A controller and one agent for each instance, over a net that loses, repeats and reorders.
#![tactic(auto)]

mod acknowledged;
mod agent;
mod agents;
mod controller;
mod happening;
mod laws;
mod script;
mod world;

pub use agent::Agent;
pub use controller::Controller;
pub use happening::{Happening, Heard, Leave, Packet, Told};
pub use laws::{
    a_line_gets_its_answer, a_script_is_its_events, acknowledged_has_run, agent_is_exact,
    agents_are_never_ahead, all_can_be_acknowledged, answers_are_lines, counts_are_what_has_run,
    crew_does_what_has_run, ran_is_kept, some_order_is_sent, what_arrives_counts,
};
pub use script::{AnswerLines, answer_lines, write_answers};
pub use world::World;
