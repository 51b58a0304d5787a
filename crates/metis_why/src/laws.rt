//! Laws of what keeps goals from being attained.
ghost use Rattle.std.specs.Prelude.{◌≡◌, ◌≤◌, ◌<◌, ◌⊎◌, ◌++◌, ◌∷◌, [], ℕ, Bool, List, IsTrue};
ghost use Rattle.std.specs.List.{All, list_all};
ghost use Rattle.metis_ids.specs.declared.actions.Action.{Action};
ghost use Rattle.metis_ids.specs.declared.goals.Goal.{Goal};
ghost use Rattle.metis_universe.specs.Terms.{AttainsGoals, Closed, IsGoalOf, IsRun, IsUniverse, Universe, after_all, empty, has, pair_count, places_of, serving};
ghost use Rattle.metis_why.specs.Terms.{AreApart, AreTried, Covers, IsBarred, IsByChoice, IsByDistance, IsCalledFor, IsCircle, IsFewest, IsFirstUnattained, IsFromNearToFar, IsInside, IsLacking, IsNaming, IsNearest, IsNeeded, IsReason, IsWaitedFor, IsWhy, IsWithinCost, listed, may_name, named_by, outside, reason_in, verdict};
ghost use Rattle.metis_why.specs.declared.reason.Line.{Line};

use crate::confirming::Confirmation;
use crate::reason::Reason;

/// The pairs outside a barred set are closed: no run comes to a pair of the set.
pub fn barred_pairs_are_closed_out()
    ensures { (u : Universe) (x : ℕ → Bool) → IsUniverse u → IsBarred u x → Closed u (outside u x) }
{}

/// After each run from the empty configuration no instance serves a goal that a barred set covers. So no list of actions attains
/// goals of which it covers one.
pub fn barred_goals_are_not_attained()
    ensures unserved { (u : Universe) (x : ℕ → Bool) (g : Goal) (actions : List Action) → IsUniverse u → IsBarred u x → Covers u x g → IsRun u empty actions → serving u (after_all u empty actions) g ≡ 0 }
    ensures unattained { (u : Universe) (x : ℕ → Bool) (g : Goal) (goals : List Goal) → IsUniverse u → IsBarred u x → Covers u x g → 1 ≤ places_of goals g → AttainsGoals u goals → ⊥ }
{}

/// Each line is reached from the goal: the pairs of the lines are the least set that has the pairs that the goal wants and, with the
/// pair of each line, the pairs that the line names.
pub fn each_line_is_reached()
    ensures { (u : Universe) (g : Goal) (lines : List Line) (y : ℕ → Bool) → IsWhy u g lines → Covers u y g → All (λ l. IsTrue (y l.pair) → IsTrue (list_all y (named_by u l.pair l.reason))) lines → (p : ℕ) → IsTrue (listed lines p) → IsTrue (y p) }
{}

/// In a universe in which each line holds, whatever else it has, no list of actions attains the goal. So what makes the goal attainable
/// makes a line false.
pub fn true_lines_rule_out_the_goal()
    ensures { (u : Universe) (g : Goal) (lines : List Line) (goals : List Goal) → IsUniverse u → All (λ l. IsReason u (listed lines) l.pair l.reason) lines → Covers u (listed lines) g → 1 ≤ places_of goals g → AttainsGoals u goals → ⊥ }
{}

/// What is told of a goal is confirmed of it.
pub fn what_is_told_is_confirmed()
    ensures { (u : Universe) (g : Goal) (lines : List Line) → IsWhy u g lines → verdict u lines (g ∷ []) ≡ Confirmation.Confirmed g }
{}

/// What is told of several goals, of the first that no list of actions attains, is confirmed of them.
pub fn what_is_told_is_confirmed_of_all()
    ensures { (u : Universe) (goals : List Goal) (g : Goal) (lines : List Line) → IsUniverse u → IsFirstUnattained u goals g → IsWhy u g lines → verdict u lines goals ≡ Confirmation.Confirmed g }
{}

/// A circle shows: where lines name one another's pairs in a circle, one of them names its own pair, or that of a line above it.
pub fn a_circle_shows()
    ensures { (u : Universe) (lines : List Line) (places : List ℕ) → IsCircle u lines places → (i : ℕ) × (j : ℕ) × IsTrue (has places i) × IsNaming u lines i j × (j ≤ i) }
{}

/// The last line of an explanation shows what ends it: each pair that it names is its own, or that of a line above it. So it names
/// no pair, or closes a circle.
pub fn the_last_line_shows()
    ensures { (u : Universe) (g : Goal) (above : List Line) (last : Line) (p : ℕ) → IsWhy u g (above ++ last ∷ []) → IsTrue (has (named_by u last.pair last.reason) p) → IsTrue (listed above p) ⊎ (last.pair ≡ p) }
{}

/// Each line of an explanation by the rules of choice is called for: the goal wants its pair, or a line above it names it.
pub fn each_line_is_named_above()
    ensures { (u : Universe) (g : Goal) (above below : List Line) (l : Line) → IsByChoice u g (above ++ l ∷ below) → IsCalledFor u g above l.pair }
{}

/// The order of distance has the pairs that are reached from the goal, each once: it is the least set that has those that the goal
/// wants and, with each pair, those for which it may wait.
pub fn the_order_is_reached()
    ensures once { (u : Universe) (x : ℕ → Bool) (g : Goal) (order : List ℕ) → IsByDistance u x g order → AreApart order }
    ensures covers { (u : Universe) (x : ℕ → Bool) (g : Goal) (order : List ℕ) → IsByDistance u x g order → Covers u (has order) g }
    ensures closed { (u : Universe) (x : ℕ → Bool) (g : Goal) (order : List ℕ) (q : ℕ) → IsByDistance u x g order → IsTrue (has order q) → IsTrue (list_all (has order) (may_name u x q)) }
    ensures least { (u : Universe) (x y : ℕ → Bool) (g : Goal) (order : List ℕ) → IsByDistance u x g order → Covers u y g → ((q : ℕ) → IsTrue (y q) → IsTrue (list_all y (may_name u x q))) → IsInside (has order) y }
{}

/// The order of distance goes from near to far: a way from the goal leads to each of its pairs, and what stands before a pair that is
/// within some cost is within that cost too.
pub fn the_order_is_by_distance()
    ensures within { (u : Universe) (x : ℕ → Bool) (g : Goal) (order : List ℕ) (p : ℕ) → IsByDistance u x g order → IsTrue (has order p) → (n : ℕ) × IsWithinCost u x g n p }
    ensures far { (u : Universe) (x : ℕ → Bool) (g : Goal) (order : List ℕ) → IsByDistance u x g order → IsFromNearToFar u x g order }
{}

/// Trying the pairs of the order from the last to the first comes to the nearest set: with each the greatest barred set without it
/// is taken, where that still covers the goal.
pub fn trying_comes_to_the_nearest()
    ensures { (u : Universe) (g : Goal) (lacking : ℕ → Bool) (order : List ℕ) (needed : ℕ → Bool) → IsUniverse u → IsLacking u lacking → Covers u lacking g → IsByDistance u lacking g order → AreTried u g order (has order) needed → IsNearest u g order needed }
{}

/// The nearest set is one of which no pair can be left out.
pub fn none_of_the_nearest_can_be_left_out()
    ensures { (u : Universe) (g : Goal) (order : List ℕ) (x : ℕ → Bool) → IsNearest u g order x → IsNeeded u g x }
{}

/// A reason is that the pair needs the port that the fewest pairs provide, of those for which it waits; where there is no such port,
/// that it comes from pairs of the set alone.
pub fn a_reason_is_the_port_of_the_fewest()
    ensures needs { (u : Universe) (x : ℕ → Bool) (q r : ℕ) → IsUniverse u → q < pair_count u → reason_in u x q ≡ Reason.Needs r → IsFewest u x q r }
    ensures comes { (u : Universe) (x : ℕ → Bool) (q s : ℕ) → reason_in u x q ≡ Reason.Comes → IsWaitedFor u x q s → ⊥ }
{}

/// Where no list of actions attains a goal, there is an explanation of it by the rules of choice.
pub fn there_is_an_explanation()
    ensures { (u : Universe) (g : Goal) → IsUniverse u → IsGoalOf u g → (AttainsGoals u (g ∷ []) → ⊥) → (lines : List Line) × IsByChoice u g lines }
{}

/// What is told by the rules of choice is an explanation: each pair has one line and a reason, and none can be left out.
pub fn what_is_chosen_is_an_explanation()
    ensures { (u : Universe) (g : Goal) (lines : List Line) → IsGoalOf u g → IsByChoice u g lines → IsWhy u g lines }
{}

/// There is one explanation of a goal by the rules of choice, so it is a function of the universe and the goal.
pub fn choice_comes_to_one_explanation()
    ensures { (u : Universe) (g : Goal) (v w : List Line) → IsByChoice u g v → IsByChoice u g w → v ≡ w }
{}
