//! Laws of goals and of the pairs for them.
ghost use Rattle.std.specs.Prelude.{◌≡◌, ◌↔◌, ℕ, List, length, IsFalse};
ghost use Rattle.std.specs.List.{All};
ghost use Rattle.metis_ids.specs.declared.goals.Goal.{Goal};
ghost use Rattle.metis_universe.specs.Terms.{Attains, AttainsGoals, Config, Holds, HoldsGoals, IsUniverse, Universe, lacks, pair_goals};
ghost use Rattle.metis_layers.specs.Terms.{attained_pairs};
ghost use Rattle.metis_choice.specs.Terms.{ArePairsFor};

/// A configuration that holds the pairs for goals holds the goals: as many places as a goal has in the one list, its pair has in
/// the other, and each instance in that pair serves it. So what attains the pairs attains the goals.
pub fn pairs_for_goals_hold_them()
    ensures holds { (u : Universe) (c : Config) (goals : List Goal) (pairs : List ℕ) → ArePairsFor u goals pairs → Holds c pairs → HoldsGoals u c goals }
    ensures attains { (u : Universe) (goals : List Goal) (pairs : List ℕ) → ArePairsFor u goals pairs → Attains u pairs → AttainsGoals u goals }
{}

/// There is one list of pairs for goals, with a pair for each of them. For goals that are pairs it is these pairs.
pub fn pairs_for_goals_are_unique()
    ensures one { (u : Universe) (goals : List Goal) (pairs others : List ℕ) → ArePairsFor u goals pairs → ArePairsFor u goals others → pairs ≡ others }
    ensures count { (u : Universe) (goals : List Goal) (pairs : List ℕ) → ArePairsFor u goals pairs → length pairs ≡ length goals }
    ensures themselves { (u : Universe) (pairs : List ℕ) → ArePairsFor u (pair_goals pairs) pairs }
{}

/// Some list of actions attains goals exactly where the attained pairs lack none of them.
pub fn goals_are_attained_where_none_is_lacking()
    ensures { (u : Universe) (goals : List Goal) → IsUniverse u → AttainsGoals u goals ↔ All (λ g. IsFalse (lacks u (attained_pairs u) g)) goals }
{}
