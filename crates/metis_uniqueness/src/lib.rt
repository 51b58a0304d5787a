//! Laws that what a run says is one answer. No program needs them, and so none waits for their proofs.
#![tactic(auto)]

mod existence;
mod laws;

pub use existence::{
    a_confirmation_has_an_answer, a_control_has_an_answer, a_crew_has_an_answer,
    a_load_has_an_answer, a_placement_has_an_answer, a_plan_has_an_answer, a_print_has_an_answer,
    a_reconfiguration_has_an_answer, a_refutation_has_an_answer, a_replay_has_an_answer,
    a_rollout_has_an_answer, a_session_has_an_answer, an_audit_has_an_answer,
    an_explanation_has_an_answer, waits_have_an_answer, waves_have_an_answer,
};
pub use laws::{
    a_confirmation_has_one_answer, a_control_has_one_answer, a_crew_has_one_answer,
    a_load_has_one_answer, a_placement_has_one_answer, a_plan_has_one_answer,
    a_print_has_one_answer, a_reconfiguration_has_one_answer, a_refutation_has_one_answer,
    a_replay_has_one_answer, a_rollout_has_one_answer, a_session_has_one_answer,
    an_audit_has_one_answer, an_explanation_has_one_answer, each_script_has_one_answer,
    the_same_files_give_the_same_answer, waits_have_one_answer, waves_have_one_answer,
};
