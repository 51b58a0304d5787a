//! Laws of plans by rounds.
ghost use Rattle.std.specs.Prelude.{◌≡◌, ℕ, List, []};
ghost use Rattle.metis_ids.specs.Terms.{HasCycle, Plan};
ghost use Rattle.metis_universe.specs.Terms.{AreDifferent, Attains, IsTable, Universe};
ghost use Rattle.metis_lines.specs.Terms.{graph_for};
ghost use Rattle.metis_emit.specs.Terms.{entered};
ghost use Rattle.metis_planner.specs.Terms.{IsByRounds, numbered};

/// Rounds come to one plan alone, so it is a function of the universe and the targets.
pub fn rounds_come_to_one_plan()
    ensures { (u : Universe) (g : List ℕ) (p q : Plan) → IsByRounds u g p → IsByRounds u g q → p ≡ q }
{}

/// For targets that some actions attain they do come to one.
pub fn attained_targets_have_a_plan_by_rounds()
    ensures { (u : Universe) (g : List ℕ) → IsTable u → Attains u g → (p : Plan) × IsByRounds u g p }
{}

/// Where the events of the lines for the targets alone have no cycle, nothing is doubled.
pub fn nothing_is_doubled_without_a_cycle()
    ensures { (u : Universe) (g : List ℕ) (p : Plan) → IsByRounds u g p → (HasCycle (numbered (graph_for u g [])) → ⊥) → p.dups ≡ [] }
{}

/// For no targets rounds come to the plan that does nothing.
pub fn nothing_is_done_for_no_targets()
    ensures { (u : Universe) (p : Plan) → IsByRounds u [] p → (p.actions ≡ []) × (p.dups ≡ []) × (p.instances ≡ 0) }
{}

/// No instance of a plan comes to a pair twice.
pub fn planned_instances_come_to_each_pair_once()
    ensures { (u : Universe) (g : List ℕ) (p : Plan) → IsTable u → Attains u g → IsByRounds u g p → (l : ℕ) → AreDifferent (entered u l p.actions) }
{}
