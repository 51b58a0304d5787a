//! Laws of what a run says: over a universe, for what is read of it, there is an answer.
ghost use Rattle.std.specs.Prelude.{◌≤◌, ℕ, List, length};
ghost use Rattle.std.specs.List.{All};
ghost use Rattle.std.specs.List.Sorted.{IsStrictlyIncreasing};
ghost use Rattle.metis_commands.specs.Terms.{Audited, Awaited, Confirms, Controlled, Crewed, Judged, Placed, Printed, Replayed, Simulated, Waved, WhyAnswer};
ghost use Rattle.metis_ids.specs.declared.actions.Action.{Action};
ghost use Rattle.metis_ids.specs.declared.goals.Goal.{Goal};
ghost use Rattle.metis_ids.specs.Terms.{Plan};
ghost use Rattle.metis_inputs.specs.Terms.{script_of};
ghost use Rattle.metis_place.specs.Terms.{HostLists};
ghost use Rattle.metis_plan_commands.specs.Terms.{Loaded, PlanAnswer, Reconfigured, RolledOut};
ghost use Rattle.metis_text.specs.Terms.{IsWellFormed};
ghost use Rattle.metis_top.specs.Terms.{Says, over};
ghost use Rattle.metis_universe.specs.Terms.{IsGoalOf, IsTable, IsUniverse, Universe};
ghost use Rattle.metis_why.specs.declared.reason.Line.{Line};
ghost use Rattle.metis_wishes.specs.declared.wish.Wish.{Wish};
ghost use Rattle.metis_uniqueness.specs.Terms.{HasAnAnswer, HasAnAnswerOver};

/// At most 256 targets in a universe have a plan, or a refusal.
pub fn a_plan_has_an_answer()
    ensures { (u : Universe) (goals : List Goal) → IsTable u → length goals ≤ 256 → HasAnAnswer (PlanAnswer u goals) }
{}

/// Actions that name what is the universe's have a verdict on them and any targets.
pub fn a_replay_has_an_answer()
    ensures { (u : Universe) (goals : List Goal) (actions : List Action) → HasAnAnswerOver u actions (Replayed u goals actions) }
{}

/// A refusal whose pairs ascend has a verdict.
pub fn a_refutation_has_an_answer()
    ensures { (u : Universe) (goals : List Goal) (set : List ℕ) → IsUniverse u → IsStrictlyIncreasing set → HasAnAnswer (Judged u goals set) }
{}

/// An audit of any plan and any numbers behind its actions has an answer.
pub fn an_audit_has_an_answer()
    ensures { (u : Universe) (goals : List Goal) (plan : Plan) (after : List (List ℕ)) → IsTable u → HasAnAnswer (Audited u goals plan after) }
{}

/// Any script of a session has its replies.
pub fn a_session_has_an_answer()
    ensures { (u : Universe) (script : List ℕ) → HasAnAnswer (Simulated u script) }
{}

/// Turns over actions that name what is the universe's have their answers, or there is a first action that keeps these from being a
/// steadfast run.
pub fn a_crew_has_an_answer()
    ensures { (u : Universe) (actions : List Action) (turns : List ℕ) → HasAnAnswerOver u actions (Crewed u actions turns) }
{}

/// Such actions have their starts, finish and critical chain by any durations, or there is such a first action.
pub fn waves_have_an_answer()
    ensures { (u : Universe) (actions : List Action) (durations : List ℕ) → HasAnAnswerOver u actions (Waved u actions durations) }
{}

/// A well-formed plan has a text with the waits that its actions need, or a first action that keeps these from being a steadfast run.
pub fn waits_have_an_answer()
    ensures { (u : Universe) (plan : Plan) (after : List (List ℕ)) → IsTable u → IsWellFormed u plan after → HasAnAnswer (Awaited u plan) }
{}

/// The events of any controller's script over actions that name what is the universe's have their answers, or there is a first action
/// that keeps these from being a steadfast run.
pub fn a_control_has_an_answer()
    ensures { (u : Universe) (actions : List Action) (script : List ℕ) → HasAnAnswerOver u actions (Controlled u actions script) }
{}

/// From actions that name what is the universe's to at most 256 targets there is a rollout, or a refusal of the targets, or a first
/// action that keeps the old ones from being a steadfast run.
pub fn a_rollout_has_an_answer()
    ensures { (u : Universe) (goals : List Goal) (old : List Action) → IsTable u → length goals ≤ 256 → HasAnAnswerOver u old (RolledOut u goals old) }
{}

/// From actions that name what is the universe's to at most 256 targets there is, by any wishes, a reconfiguration, or the first obstacle
/// to one, or a refusal of the targets, or a first action that keeps the old ones from being a steadfast run.
pub fn a_reconfiguration_has_an_answer()
    ensures { (u : Universe) (goals : List Goal) (old : List Action) (wishes : List Wish) → IsTable u → length goals ≤ 256 → HasAnAnswerOver u old (Reconfigured u goals old wishes) }
{}

/// On any hosts the instances of such actions have a placement, or there is a first one without room, or there is such a first action.
pub fn a_placement_has_an_answer()
    ensures { (u : Universe) (actions : List Action) (hosts : HostLists) → HasAnAnswerOver u actions (Placed u actions hosts) }
{}

/// Any universe has its line.
pub fn a_print_has_an_answer()
    ensures { (u : Universe) → HasAnAnswer (Printed u) }
{}

/// The generated universe of a size up to 128 has a plan for its targets, and so a line of counts.
pub fn a_load_has_an_answer()
    ensures { (size : ℕ) → size ≤ 128 → HasAnAnswer (Loaded size) }
{}

/// Targets of a universe are attained together, or have an explanation of the first that is never attained.
pub fn an_explanation_has_an_answer()
    ensures { (u : Universe) (goals : List Goal) → IsUniverse u → All (IsGoalOf u) goals → HasAnAnswer (WhyAnswer u goals) }
{}

/// Any explanation has a verdict.
pub fn a_confirmation_has_an_answer()
    ensures { (u : Universe) (goals : List Goal) (why : List Line) → IsUniverse u → HasAnAnswer (Confirms u goals why) }
{}

/// For any words and any contents of the files there is a list of lines, with a status, that is what a run is to say.
pub fn each_script_has_an_answer()
    ensures { (file : List ℕ → List ℕ) (words : List (List ℕ)) → HasAnAnswer (Says (over file (script_of words))) }
{}
