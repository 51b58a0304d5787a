//! Laws of what target words mean.
ghost use Rattle.std.specs.Prelude.{◌≡◌, ◌↔◌, ℕ, List, Ok, Err};
ghost use Rattle.metis_inputs.specs.Terms.{AreGoals, IsFirstNoGoal, goals_named};
ghost use Rattle.metis_inputs.specs.declared.stop.InputFault.{InputFault};
ghost use Rattle.metis_ids.specs.declared.goals.Goal.{Goal};
ghost use Rattle.metis_universe.specs.Terms.{Universe};
ghost use Rattle.metis_words.specs.Terms.{TargetName};

/// Targets come to the goals that they mean, one each; else the first word is told that means none.
pub fn goals_are_named_word_by_word()
    ensures all { (p : ℕ) (u : Universe) (ts : List TargetName) (gs : List Goal) → goals_named p u ts ≡ Ok gs ↔ AreGoals u ts gs }
    ensures first { (p : ℕ) (u : Universe) (ts : List TargetName) (f : InputFault) → goals_named p u ts ≡ Err f → IsFirstNoGoal p u ts f }
{}
