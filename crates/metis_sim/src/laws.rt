//! Laws over the definitions.
ghost use Rattle.std.specs.Prelude.{◌≡◌, ◌≢◌, ◌↔◌, ℕ, List, [], ◌∷◌, IsFalse, IsTrue, Some, codes, map};
ghost use Rattle.metis_ids.specs.declared.goals.Goal.{Goal};
ghost use Rattle.metis_sim.specs.Terms.{HasForm, IsOfUnknown, Session, after_line, after_lines, answer, begin, changes, goal_of_word, goals_of, replies, replies_to, reply};
ghost use Rattle.metis_tokens.specs.Terms.{tokens};
ghost use Rattle.std.specs.List.{AllByRecursion};
ghost use Rattle.metis_universe.specs.Terms.{Correct, IsUniverse, Universe};
ghost use Rattle.metis_sim.specs.declared.reply.Reply.TheVariants.{BadLine, Bye, Did, Ended, Undone, Unknown};

/// After an action that was done, `undo` gives the session before it again, and with it its configuration.
pub fn undo_takes_back()
    ensures { (s : Session) (line : List ℕ) → reply s line ≡ Did → answer (after_line s line) (codes "undo") ≡ (Undone, s) }
{}

/// After any lines, from a new session on, the configuration is correct, and so is each that is kept.
pub fn kept_configurations_are_correct()
    ensures { (u : Universe) (lines : List (List ℕ)) → IsUniverse u → let s = after_lines (begin u) lines in AllByRecursion (Correct u) (s.config ∷ s.earlier) }
{}

/// A line is bad exactly when it has none of the forms.
pub fn bad_lines_have_no_form()
    ensures { (s : Session) (line : List ℕ) → IsFalse s.ended → reply s line ≡ BadLine ↔ (HasForm line → ⊥) }
{}

/// A line of a form is answered `Unknown` exactly when it names a type, a port, a state or a target that is not there. A state is
/// looked up in the type of which the instance is; where the instance is not there, the line is refused.
pub fn unknown_lines_name_nothing()
    ensures { (s : Session) (line : List ℕ) → IsFalse s.ended → reply s line ≡ Unknown ↔ IsOfUnknown s.universe s.config (tokens line) }
{}

/// The goals of a check are those of its words, one for one and in their order; there are none where some word asks for none.
pub fn goals_are_of_their_words()
    ensures { (u : Universe) (words : List (List ℕ)) (goals : List Goal) → goals_of u words ≡ Some goals ↔ (map (goal_of_word u) words ≡ map (λ g. Some g) goals) }
{}

/// Only `Did`, `Undone` and `Bye` change a session.
pub fn nothing_else_changes()
    ensures { (s : Session) (line : List ℕ) → IsFalse (changes (reply s line)) → after_line s line ≡ s }
{}

/// After `quit` each line is answered `Ended`, and changes nothing.
pub fn nothing_follows_quit()
    ensures replies { (s : Session) (line : List ℕ) (lines : List (List ℕ)) → reply s line ≡ Bye → replies (after_line s line) lines ≡ map (λ _. Ended) lines }
    ensures session { (s : Session) (line : List ℕ) (lines : List (List ℕ)) → reply s line ≡ Bye → after_lines (after_line s line) lines ≡ after_line s line }
{}

/// A session that has not ended never replies `Ended`.
pub fn only_ended_sessions_say_so()
    ensures { (s : Session) (line : List ℕ) → IsFalse s.ended → reply s line ≢ Ended }
{}

/// A session ends by the line `quit` alone, and where it does not reply `Bye` it goes on.
pub fn only_quit_ends_a_session()
    ensures line { (s : Session) (line : List ℕ) → IsFalse s.ended → IsTrue (after_line s line).ended → line ≡ codes "quit" }
    ensures reply { (s : Session) (line : List ℕ) → IsFalse s.ended → reply s line ≢ Bye → IsFalse (after_line s line).ended }
{}

/// Behind the reply to `quit` nothing is put, whatever lines follow.
pub fn nothing_is_put_behind_quit()
    ensures { (u : Universe) (s : Session) (line : List ℕ) (lines : List (List ℕ)) → reply s line ≡ Bye → replies_to u s (line ∷ lines) ≡ codes "bye\n" ∷ [] }
{}
