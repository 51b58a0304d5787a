//! Laws over the definitions.
ghost use Rattle.std.specs.Prelude.{◌≡◌, ◌≢◌, ◌<◌, ◌≤◌, ◌-◌, ◌^◌, ◌+◌, ℕ, List, ◌++◌, Ok, Err, length, map};
ghost use Rattle.std.specs.List.{All, count_by};
ghost use Rattle.metis_ids.specs.Terms.{Plan, makes};
ghost use Rattle.metis_ids.specs.declared.goals.Goal.{Goal};
ghost use Rattle.metis_outside.specs.Terms.{IsLine};
ghost use Rattle.metis_universe.specs.Terms.{IsOf, IsRun, IsTable, Universe, empty, numbers, pair_count};
ghost use Rattle.metis_text.specs.Terms.{HasPlanFault, HasRefusalFault, IsFault, IsPlanInRange, IsRefusal, IsRefusalFault, IsWellFormed, IsWellFormedButCount, Parts, RefusalParts, plan_bytes, plan_in, plan_lines, refusal_bytes, refusal_in, refusal_lines, refusal_parts, said};
ghost use Rattle.metis_tokens.specs.declared.fault.TFault.{TFault};
ghost use Rattle.metis_tokens.specs.declared.fault.TFault.TheVariants.{Line, Short};
ghost use Rattle.metis_waits.specs.Terms.{waits_on_others};

/// A text that is read is that of the plan with the lists that it says, which is well formed.
pub fn accepted_is_written()
    ensures { (u : Universe) (bytes : List ℕ) (p : Plan) (after : List (List ℕ)) → plan_in u bytes ≡ Ok (said p after) → (bytes ≡ plan_bytes u p after) × IsWellFormed u p after }
{}

/// The text of a plan with lists that is well formed is read as this plan.
pub fn well_formed_is_read()
    ensures { (u : Universe) (p : Plan) (after : List (List ℕ)) → IsTable u → IsWellFormed u p after → plan_in u (plan_bytes u p after) ≡ Ok (said p after) }
{}

/// Each front of the text of a plan with lists that is well formed, but the text, is read as short.
pub fn front_is_short()
    ensures { (u : Universe) (p : Plan) (after : List (List ℕ)) (front more : List ℕ) → IsTable u → IsWellFormed u p after → plan_bytes u p after ≡ front ++ more → 1 ≤ length more → plan_in u front ≡ Err Short }
{}

/// No text that is read begins with bytes of which another fault than `Short` is told.
pub fn no_text_begins_with_a_fault()
    ensures { (u : Universe) (bytes more : List ℕ) (fault : TFault) (says : Parts) → plan_in u bytes ≡ Err fault → fault ≢ Short → plan_in u (bytes ++ more) ≢ Ok says }
{}

/// Each fault that is told is one: the bytes end before the last line does, or the fault is that of a line, which the lines up
/// to it have whatever stands behind them and not before the last of them ends, or bytes stand behind the last line, or the
/// instances are not counted.
pub fn told_fault_is_one()
    ensures { (u : Universe) (bytes : List ℕ) (fault : TFault) → plan_in u bytes ≡ Err fault → IsFault u bytes fault }
{}

/// Each fault that is told of a plan is the one that the bytes have by the lines before it and by its own line. The lines before
/// are the beginning of a text, and its own line is not the one that is due behind them. It has not the form of that one. Or it
/// has, and a number in it is wrong. Or none is, and a name in it is not there. `Short` is told of the beginning of a text and a
/// piece without its line feed alone.
pub fn told_fault_is_had()
    ensures { (u : Universe) (bytes : List ℕ) (fault : TFault) → plan_in u bytes ≡ Err fault → HasPlanFault u bytes fault }
{}

/// Where bytes stand behind the text of a plan with lists that is well formed, but perhaps for its number of instances, the
/// line behind the last one is told.
pub fn bytes_past_the_end_are_told()
    ensures { (u : Universe) (p : Plan) (after : List (List ℕ)) (more : List ℕ) → IsTable u → IsWellFormedButCount u p after → 1 ≤ length more
        → plan_in u (plan_bytes u p after ++ more) ≡ Err (Line (length (plan_lines u p after) + 1)) }
{}

/// Where a plan with lists is well formed but for its number of instances, which is not what its actions make, the second line
/// is told.
pub fn miscount_is_told()
    ensures { (u : Universe) (p : Plan) (after : List (List ℕ)) → IsTable u → IsWellFormedButCount u p after → p.instances ≢ count_by makes p.actions → plan_in u (plan_bytes u p after) ≡ Err (Line 2) }
{}

/// Each front of a text that is short is short.
pub fn front_of_short_is_short()
    ensures { (u : Universe) (front more : List ℕ) → plan_in u (front ++ more) ≡ Err Short → plan_in u front ≡ Err Short }
{}

/// A text of a plan that is short stays so until a line ends behind it.
pub fn short_until_a_line_ends()
    ensures { (u : Universe) (front more : List ℕ) → All (λ b. b ≢ 10) more → plan_in u front ≡ Err Short → plan_in u (front ++ more) ≡ Err Short }
{}

/// A plan whose actions are a run from the empty configuration is well formed, with what its actions wait for.
pub fn written_run_is_well_formed()
    ensures { (u : Universe) (p : Plan) → IsTable u → IsRun u empty p.actions → All (IsOf u) p.actions → All (λ d. d.pair < pair_count u) p.dups → All (λ d. 2 ≤ length d.cycle) p.dups
        → IsPlanInRange p → p.instances ≡ count_by makes p.actions → length p.actions < 2 ^ 32 → length p.dups < 2 ^ 32
        → IsWellFormed u p (map (waits_on_others p.actions) (numbers p.actions)) }
{}

/// The text that is written for a plan whose actions are a run is read as this plan.
pub fn written_run_is_read()
    ensures { (u : Universe) (p : Plan) → IsTable u → IsRun u empty p.actions → All (IsOf u) p.actions → All (λ d. d.pair < pair_count u) p.dups → All (λ d. 2 ≤ length d.cycle) p.dups
        → IsPlanInRange p → p.instances ≡ count_by makes p.actions
        → length (plan_bytes u p (map (waits_on_others p.actions) (numbers p.actions))) < 2 ^ 32 - 1
        → plan_in u (plan_bytes u p (map (waits_on_others p.actions) (numbers p.actions))) ≡ Ok (said p (map (waits_on_others p.actions) (numbers p.actions))) }
{}

/// A text that is read is that of the refusal that it says, whose pairs are the universe's and ascend.
pub fn accepted_refusal_is_written()
    ensures { (u : Universe) (bytes set : List ℕ) (lacks : Goal) → refusal_in u bytes ≡ Ok (refusal_parts lacks set) → (bytes ≡ refusal_bytes u set lacks) × IsRefusal u set lacks }
{}

/// The text of a refusal whose pairs are the universe's and ascend is read as this refusal.
pub fn refusal_is_read()
    ensures { (u : Universe) → IsTable u → (set : List ℕ) (lacks : Goal) → IsRefusal u set lacks → refusal_in u (refusal_bytes u set lacks) ≡ Ok (refusal_parts lacks set) }
{}

/// Each line of the text of a plan ends with a line feed, and has no other.
pub fn plan_has_lines()
    ensures { (u : Universe) (p : Plan) (after : List (List ℕ)) → IsTable u → All IsLine (plan_lines u p after) }
{}

/// Each line of the text of a refusal ends with a line feed, and has no other.
pub fn refusal_has_lines()
    ensures { (u : Universe) (set : List ℕ) (lacks : Goal) → IsTable u → All IsLine (refusal_lines u set lacks) }
{}

/// Each front of the text of a refusal, but the text, is read as short.
pub fn refusal_front_is_short()
    ensures { (u : Universe) (set : List ℕ) (lacks : Goal) (front more : List ℕ) → IsTable u → IsRefusal u set lacks → refusal_bytes u set lacks ≡ front ++ more → 1 ≤ length more → refusal_in u front ≡ Err Short }
{}

/// No text that is read as a refusal begins with bytes of which another fault than `Short` is told.
pub fn no_refusal_begins_with_a_fault()
    ensures { (u : Universe) (bytes more : List ℕ) (fault : TFault) (says : RefusalParts) → refusal_in u bytes ≡ Err fault → fault ≢ Short → refusal_in u (bytes ++ more) ≢ Ok says }
{}

/// Each fault of a refusal that is told is one, as `told_fault_is_one` says it of a plan's.
pub fn told_refusal_fault_is_one()
    ensures { (u : Universe) (bytes : List ℕ) (fault : TFault) → refusal_in u bytes ≡ Err fault → IsRefusalFault u bytes fault }
{}

/// Each fault that is told of a refusal is the one that the bytes have by the lines before it and by its own line,
/// as `told_fault_is_had` says it of a plan's.
pub fn told_refusal_fault_is_had()
    ensures { (u : Universe) (bytes : List ℕ) (fault : TFault) → IsTable u → refusal_in u bytes ≡ Err fault → HasRefusalFault u bytes fault }
{}

/// Where bytes stand behind the text of a refusal, the line behind the last one is told.
pub fn bytes_past_a_refusal_are_told()
    ensures { (u : Universe) (set : List ℕ) (lacks : Goal) (more : List ℕ) → IsTable u → IsRefusal u set lacks → 1 ≤ length more
        → refusal_in u (refusal_bytes u set lacks ++ more) ≡ Err (Line (length (refusal_lines u set lacks) + 1)) }
{}

/// Each front of a text of a refusal that is short is short.
pub fn front_of_short_refusal_is_short()
    ensures { (u : Universe) (front more : List ℕ) → refusal_in u (front ++ more) ≡ Err Short → refusal_in u front ≡ Err Short }
{}

/// A text of a refusal that is short stays so until a line ends behind it.
pub fn short_refusal_until_a_line_ends()
    ensures { (u : Universe) (front more : List ℕ) → All (λ b. b ≢ 10) more → refusal_in u front ≡ Err Short → refusal_in u (front ++ more) ≡ Err Short }
{}
