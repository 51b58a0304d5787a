//! Laws of what a run says: of the same inputs at most one answer is true, which is a list of lines with a status.
ghost use Rattle.std.specs.Prelude.{◌≡◌, ℕ, List};
ghost use Rattle.metis_commands.specs.Terms.{Audited, Awaited, Confirms, Controlled, Crewed, Judged, Placed, Printed, Replayed, Simulated, Waved, WhyAnswer};
ghost use Rattle.metis_ids.specs.declared.actions.Action.{Action};
ghost use Rattle.metis_ids.specs.declared.goals.Goal.{Goal};
ghost use Rattle.metis_ids.specs.Terms.{Plan};
ghost use Rattle.metis_inputs.specs.Terms.{script_of};
ghost use Rattle.metis_outside.specs.Terms.{Appends, Written};
ghost use Rattle.metis_output.specs.declared.status.Status.{Status};
ghost use Rattle.metis_place.specs.Terms.{HostLists};
ghost use Rattle.metis_plan_commands.specs.Terms.{Loaded, PlanAnswer, Reconfigured, RolledOut};
ghost use Rattle.metis_top.specs.Terms.{Says, Tells, over};
ghost use Rattle.metis_universe.specs.Terms.{Universe};
ghost use Rattle.metis_why.specs.declared.reason.Line.{Line};
ghost use Rattle.metis_wishes.specs.declared.wish.Wish.{Wish};
ghost use Rattle.metis_uniqueness.specs.Terms.{HasAtMostOneAnswer};

/// Of targets in a universe at most one plan is true, or else one refusal, and never both.
pub fn a_plan_has_one_answer()
    ensures { (u : Universe) (goals : List Goal) → HasAtMostOneAnswer (PlanAnswer u goals) }
{}

/// Actions that are replayed come to at most one verdict: that they are good, the first that cannot be done, or the first target that
/// too few instances serve.
pub fn a_replay_has_one_answer()
    ensures { (u : Universe) (goals : List Goal) (actions : List Action) → HasAtMostOneAnswer (Replayed u goals actions) }
{}

/// A refusal that is checked comes to at most one verdict, with one pair, one move or one target that is told.
pub fn a_refutation_has_one_answer()
    ensures { (u : Universe) (goals : List Goal) (set : List ℕ) → HasAtMostOneAnswer (Judged u goals set) }
{}

/// A plan that is audited gets at most one answer: the first test that fails, with the first place where it does, or that none fails.
/// Where the targets are not attained it is the first one that is lacking, and no test.
pub fn an_audit_has_one_answer()
    ensures { (u : Universe) (goals : List Goal) (plan : Plan) (after : List (List ℕ)) → HasAtMostOneAnswer (Audited u goals plan after) }
{}

/// The lines of a session's script have at most one list of replies.
pub fn a_session_has_one_answer()
    ensures { (u : Universe) (script : List ℕ) → HasAtMostOneAnswer (Simulated u script) }
{}

/// Turns over a plan's actions have at most one list of answers. It is the crew's where the actions are a steadfast run, and else the
/// first action that cannot be done, or the first that is not steadfast.
pub fn a_crew_has_one_answer()
    ensures { (u : Universe) (actions : List Action) (turns : List ℕ) → HasAtMostOneAnswer (Crewed u actions turns) }
{}

/// Actions that take these durations have at most one earliest and one latest start each, one finish and one critical chain, or one
/// first action that keeps them from being a steadfast run.
pub fn waves_have_one_answer()
    ensures { (u : Universe) (actions : List Action) (durations : List ℕ) → HasAtMostOneAnswer (Waved u actions durations) }
{}

/// A plan has at most one text with the waits that its actions need, or one first action that keeps them from being a steadfast run.
pub fn waits_have_one_answer()
    ensures { (u : Universe) (plan : Plan) → HasAtMostOneAnswer (Awaited u plan) }
{}

/// The events of a controller's script have at most one list of answers, or there is one first action that keeps the plan's actions from
/// being a steadfast run.
pub fn a_control_has_one_answer()
    ensures { (u : Universe) (actions : List Action) (script : List ℕ) → HasAtMostOneAnswer (Controlled u actions script) }
{}

/// From a plan's actions to targets there is at most one rollout, or one refusal of the targets, or one first action that keeps the
/// plan's actions from being a steadfast run.
pub fn a_rollout_has_one_answer()
    ensures { (u : Universe) (goals : List Goal) (old : List Action) → HasAtMostOneAnswer (RolledOut u goals old) }
{}

/// From what stands to what is wished and wanted there is at most one reconfiguration, or one first obstacle, or one refusal of the
/// targets, or one first action that keeps the old actions from being a steadfast run. What can be answered has no obstacle.
pub fn a_reconfiguration_has_one_answer()
    ensures { (u : Universe) (goals : List Goal) (old : List Action) (wishes : List Wish) → HasAtMostOneAnswer (Reconfigured u goals old wishes) }
{}

/// The instances of a plan have at most one placement on hosts, or there is one first instance without room, or one first action that
/// keeps the plan's actions from being a steadfast run.
pub fn a_placement_has_one_answer()
    ensures { (u : Universe) (actions : List Action) (hosts : HostLists) → HasAtMostOneAnswer (Placed u actions hosts) }
{}

/// A universe is printed as one line alone.
pub fn a_print_has_one_answer()
    ensures { (u : Universe) → HasAtMostOneAnswer (Printed u) }
{}

/// The plan for the generated universe of a size has at most one line of counts.
pub fn a_load_has_one_answer()
    ensures { (size : ℕ) → HasAtMostOneAnswer (Loaded size) }
{}

/// Targets of which one is never attained have at most one explanation, of the first such target, and those that are attained have none.
pub fn an_explanation_has_one_answer()
    ensures { (u : Universe) (goals : List Goal) → HasAtMostOneAnswer (WhyAnswer u goals) }
{}

/// An explanation that is checked comes to at most one verdict.
pub fn a_confirmation_has_one_answer()
    ensures { (u : Universe) (goals : List Goal) (why : List Line) → HasAtMostOneAnswer (Confirms u goals why) }
{}

/// For any words and any contents of the files, what a run is to say is at most one list of lines with one status: no two different
/// answers are both true of what a command reads, and a fault of words or files has its one line.
pub fn each_script_has_one_answer()
    ensures { (file : List ℕ → List ℕ) (words : List (List ℕ)) → HasAtMostOneAnswer (Says (over file (script_of words))) }
{}

/// Two runs with the same words, over files with the same contents, that neither a failed read or write nor want of memory disturbed,
/// print the same lines and end with the same status.
pub fn the_same_files_give_the_same_answer()
    ensures { (file : List ℕ → List ℕ) (words : List (List ℕ)) (old new before after : Written) (status other : Status)
        → Tells file (script_of words) old new status → Tells file (script_of words) before after other
        → (lines : List (List ℕ)) × Appends old new lines × Appends before after lines × (status ≡ other) }
{}
