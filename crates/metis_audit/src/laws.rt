//! Laws of audits.
ghost use Rattle.std.specs.Prelude.{◌≡◌, ℕ, List};
ghost use Rattle.metis_ids.specs.Terms.{Plan};
ghost use Rattle.metis_universe.specs.Terms.{IsTable, Universe};
ghost use Rattle.metis_audit.specs.Terms.{IsAnswer, IsDoubled};
ghost use Rattle.metis_audit.specs.declared.answers.Answer.{Answer};
ghost use Rattle.metis_audit.specs.declared.answers.Answer.TheVariants.{Justified};

/// At most one answer is true of a text.
pub fn answers_are_one()
    ensures { (u : Universe) (g : List ℕ) (p : Plan) (after : List (List ℕ)) (a b : Answer) → IsAnswer u g p after a → IsAnswer u g p after b → a ≡ b }
{}

/// A justified text has life lines of a sound plan as its instances, no more of them than targets, and selected pairs times the
/// greatest demand, and each of its dups leaves one pair less whose slot 1 is a line that goes on.
pub fn justified_texts_double_few()
    ensures { (u : Universe) (g : List ℕ) (p : Plan) (after : List (List ℕ)) → IsTable u → IsAnswer u g p after Justified → IsDoubled u g p }
{}
