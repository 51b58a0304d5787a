//! Laws of rounds.
ghost use Rattle.std.specs.Prelude.{◌≡◌, ◌<◌, ◌≤◌, not, length, ℕ, List, [], ◌∷◌, ◌++◌, IsSome, IsTrue, IsFalse};
ghost use Rattle.metis_ids.specs.Terms.{Graph, HasCycle, has as has_node, stuck};
ghost use Rattle.metis_ids.specs.declared.events.Event.{Event};
ghost use Rattle.metis_universe.specs.Terms.{IsUniverse, Universe, has, layer_of, provider_pairs};
ghost use Rattle.metis_support.specs.Terms.{IsSupport, Support, is_selected, provider_pairs as provider_pairs_of};
ghost use Rattle.metis_lines.specs.Terms.{AbstractPlan, IsFormed, Rises, StandsOnLower, graph_for, holding, is_event, is_loose, line_count, lines_for, lines_of, plan_of, precedes};
ghost use Rattle.metis_events.specs.Terms.{IsGraphOf, dag_of, graph_of, nth_event};
ghost use Rattle.metis_rounds.specs.Terms.{HasAllBefore, HasEnded, HasMoved, HasStopped, IsSafe, IsStuck, IsWithOwnLine, is_stuck, is_taken, next_of, stuck_events, taken_of, twin, with_next};

/// The stuck events are the greatest set of events each of which has a predecessor in the set.
pub fn stuck_events_are_the_greatest()
    ensures { (w : AbstractPlan) → IsStuck w (stuck_events w) }
{}

/// What a stuck event leads to is stuck. So of each line, what is stuck is what comes from one event on.
pub fn what_follows_is_stuck()
    ensures { (w : AbstractPlan) (e f : Event) → IsTrue (is_stuck w e) → IsTrue (precedes w e f) → IsTrue (is_event w f) → IsTrue (is_stuck w f) }
{}

/// With a line of its own for a station, an event is stuck only where its twin was: that of the same station on the line that held
/// it, for the new line, and the event itself for the others.
pub fn stuck_twins_were_stuck()
    ensures { (w v : AbstractPlan) (y i : ℕ) → IsWithOwnLine w v y i → (e : Event) → IsTrue (is_stuck v e) → IsTrue (is_stuck w (twin w y e)) }
{}

/// Each event that was not stuck is not stuck with the new line.
pub fn own_line_only_frees()
    ensures { (w v : AbstractPlan) (y i : ℕ) → IsWithOwnLine w v y i → (e : Event) → IsTrue (is_event w e) → IsFalse (is_stuck w e) → IsFalse (is_stuck v e) }
{}

/// A round that has taken no stuck event takes none with the next event of a line, where all that has to come before it is taken.
pub fn taking_is_safe()
    ensures { (w : AbstractPlan) (ns : List ℕ) (l : ℕ) → IsSafe w ns → l < length ns → HasAllBefore w ns (next_of ns l) → IsSafe w (with_next ns l) }
{}

/// Where it stops, the stuck events are those that are not taken.
pub fn stopped_rounds_leave_the_stuck()
    ensures { (u : Universe) (w : AbstractPlan) (ns : List ℕ) → IsFormed u w → IsSafe w ns → HasStopped w ns → (e : Event) → IsTrue (is_event w e) → is_stuck w e ≡ not (is_taken ns e) }
{}

/// With a line of its own for a station the next round goes on from there: of the new line, as many events may count as taken as are of
/// the line that held the station.
pub fn next_round_is_safe()
    ensures { (w v : AbstractPlan) (y i : ℕ) → IsWithOwnLine w v y i → (ns : List ℕ) (m : ℕ) → length ns ≡ line_count w → m ≤ taken_of ns y → IsSafe w ns → IsSafe v (ns ++ m ∷ []) }
{}

/// Over the lines of a support, for selected targets and own pairs, a further own pair whose slot 1 is a line that goes on from it gives
/// the station that held it a line of its own.
pub fn own_pairs_have_own_lines()
    ensures { (u : Universe) (s : Support) (g d : List ℕ) (p : ℕ) → IsUniverse u → IsSupport u s → ((q : ℕ) → IsTrue (has g q) → IsTrue (is_selected s q)) → ((q : ℕ) → IsTrue (has d q) → IsTrue (is_selected s q)) → IsTrue (has (provider_pairs_of s) p) → IsTrue (is_loose (lines_of u s g d) p) → IsWithOwnLine (plan_of u s (lines_of u s g d)) (plan_of u s (lines_of u s g (d ++ p ∷ []))) (holding (lines_of u s g d) p).0 (holding (lines_of u s g d) p).1 }
{}

/// The supplies from a station that has a line of its own are from the new line, and all others stay.
pub fn own_pairs_move_supplies()
    ensures { (u : Universe) (s : Support) (g d : List ℕ) (p : ℕ) → IsUniverse u → IsSupport u s → ((q : ℕ) → IsTrue (has g q) → IsTrue (is_selected s q)) → ((q : ℕ) → IsTrue (has d q) → IsTrue (is_selected s q)) → IsTrue (has (provider_pairs_of s) p) → IsTrue (is_loose (lines_of u s g d) p) → HasMoved (plan_of u s (lines_of u s g d)) (plan_of u s (lines_of u s g (d ++ p ∷ []))) (holding (lines_of u s g d) p).0 (holding (lines_of u s g d) p).1 }
{}

/// In the graph for targets that have a layer each event that was not stuck is not stuck with one more own pair, a provider pair whose
/// slot 1 is a line that goes on from it.
pub fn own_lines_only_free()
    ensures { (u : Universe) (g d : List ℕ) (p : ℕ) → IsUniverse u → ((q : ℕ) → IsTrue (has g q) → IsSome (layer_of u q)) → ((q : ℕ) → IsTrue (has d q) → IsTrue (has (provider_pairs u g) q)) → IsTrue (has (provider_pairs u g) p) → IsTrue (is_loose (lines_for u g d) p) → (e : Event) → IsTrue (is_event (graph_for u g d) e) → IsFalse (is_stuck (graph_for u g d) e) → IsFalse (is_stuck (graph_for u g (d ++ p ∷ [])) e) }
{}

/// In the graph of the events' numbers the stuck nodes are the numbers of the stuck events.
pub fn stuck_numbers_are_of_stuck_events()
    ensures { (w : AbstractPlan) (g : Graph) → IsGraphOf w g → (n : ℕ) → n < g.nodes → has_node (stuck g) n ≡ is_stuck w (nth_event w n) }
{}

/// Where a round stops, the graph has a cycle.
pub fn stopped_rounds_have_a_cycle()
    ensures { (u : Universe) (w : AbstractPlan) (ns : List ℕ) → IsFormed u w → IsSafe w ns → HasStopped w ns → HasCycle (dag_of (graph_of w)) }
{}

/// Where the level rises along each line, and each supply is from a lower level, a round that has each line in its last station leaves no
/// cycle: one would have a return into a move, which would be stuck.
pub fn ended_rounds_have_no_cycle()
    ensures { (u : Universe) (level : ℕ → ℕ) (w : AbstractPlan) → IsFormed u w → Rises level w → StandsOnLower u level w → (ns : List ℕ) → IsSafe w ns → HasEnded w ns → HasCycle (dag_of (graph_of w)) → ⊥ }
{}
