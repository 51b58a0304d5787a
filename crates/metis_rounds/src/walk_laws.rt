//! Laws of walks.
ghost use Rattle.std.specs.Prelude.{ℕ, ◌≡◌, ◌<◌, ◌+◌, ◌-◌, List, length, map, IsTrue};
ghost use Rattle.metis_ids.specs.declared.events.Event.{Event};
ghost use Rattle.metis_ids.specs.declared.events.Event.TheVariants.{At};
ghost use Rattle.metis_ids.specs.Terms.{cycle_of};
ghost use Rattle.metis_universe.specs.Terms.{Universe};
ghost use Rattle.metis_lines.specs.Terms.{AbstractPlan, IsFormed, is_among};
ghost use Rattle.metis_events.specs.Terms.{dag_of, graph_of, nth_event};
ghost use Rattle.metis_rounds.specs.Terms.{HasMoved, IsKept, IsLeastBefore, IsWalk, IsWithOwnLine, from_step, is_stuck, kept_steps, step_at};

/// What is kept of a walk is a walk where its last event is stuck: then all are, since each leads to the one before it.
pub fn what_is_kept_is_a_walk()
    ensures { (w : AbstractPlan) (es : List Event) → IsKept w es → (0 < length es → IsTrue (is_stuck w (step_at es (length es - 1)))) → IsWalk w es }
{}

/// With a line of its own for a station, the steps before the one that left the station are kept, and before the one that entered it
/// unless the walk began with that.
pub fn own_line_keeps_first_steps()
    ensures { (w v : AbstractPlan) (y i : ℕ) → IsWithOwnLine w v y i → HasMoved w v y i → (es : List Event) → IsWalk w es → IsKept v (kept_steps (At y i) (At y (i + 1)) es) }
{}

/// Where a walk comes to a step again, its steps from there on are the cycle of the graph of the events' numbers.
pub fn walks_close_to_the_cycle()
    ensures { (u : Universe) (w : AbstractPlan) → IsFormed u w → (es : List Event) → IsWalk w es → 0 < length es → (e : Event) → IsLeastBefore w (step_at es (length es - 1)) e → IsTrue (is_among es e) → map (nth_event w) (cycle_of (dag_of (graph_of w))) ≡ from_step e es }
{}
