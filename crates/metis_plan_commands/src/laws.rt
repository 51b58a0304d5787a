//! Laws over the definitions.
ghost use Rattle.std.specs.Prelude.{ℕ, List};
ghost use Rattle.metis_ids.specs.declared.goals.Goal.{Goal};
ghost use Rattle.metis_audit.specs.Terms.{IsAnswer};
ghost use Rattle.metis_audit.specs.declared.answers.Answer.TheVariants.{Justified};
ghost use Rattle.metis_universe.specs.Terms.{IsUniverse, Universe};
ghost use Rattle.metis_plan_commands.specs.Terms.{Plans, others};

/// The plan that is printed is justified for the pairs for its goals, with the numbers that stand behind its actions.
pub fn printed_plans_are_justified()
    ensures { (u : Universe) (goals : List Goal) (lines : List (List ℕ)) → IsUniverse u → (p : Plans u goals lines)
        → IsAnswer u p.pairs p.for_pairs.plan (others p.for_pairs.plan.actions) Justified }
{}
