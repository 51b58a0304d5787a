//! Laws of what stands and is used, of what is missing, and of who is unmet.
ghost use Rattle.std.specs.Prelude.{◌≡◌, ◌≤◌, ◌<◌, ◌+◌, ◌-◌, ◌++◌, ℕ, List, [], ◌∷◌, length, min, nat_le, take, IsFalse, IsSome, IsTrue, None, Some, if◌then◌else◌};
ghost use Rattle.std.specs.List.{Contains, count_by, range_with_len};
ghost use Rattle.metis_ids.specs.declared.actions.Action.{Action};
ghost use Rattle.metis_ids.specs.declared.goals.Goal.{Goal};
ghost use Rattle.metis_rollout.specs.Terms.{is_made};
ghost use Rattle.metis_universe.specs.Terms.{Config, IsConfig, IsRun, IsSteadfastRun, IsUniverse, Universe, after_all, demand_of, has, is_bound, is_initial, pair_of, places_of, provider_of, provides};
ghost use Rattle.metis_wishes.specs.Terms.{is_avoided, rebound};
ghost use Rattle.metis_wishes.specs.declared.wish.Wish.{Wish};
ghost use Rattle.metis_wishes.specs.declared.wish.Wish.TheVariants.{Keep, KeepAll, Rebind, Retire};
ghost use Rattle.metis_reconfigure.specs.Terms.{IsAnswered, IsNew, IsUnmet, NewOnesAct, Reconfiguration, at_border, at_end, given, lack, left_by, left_to_plan, missing, rebound_in, serving_among, settled, targets_behind, wants};

/// Each instance that stands in a pair that provides the port, and does not leave, is given for it.
pub fn what_serves_is_given()
    ensures { (u : Universe) (c : Config) (leaving : List ℕ) (s y p : ℕ) → pair_of c y ≡ Some p → IsTrue (provides u p s)
        → IsFalse (has leaving y) → IsTrue (has (given u c leaving s) y) }
{}

/// A goal's occurrence is missing exactly where no more settled instances serve it than it has occurred before. So it is missing as often
/// as it occurs more often than settled instances serve it.
pub fn a_goal_is_missing_where_too_few_serve_it()
    ensures placed { (u : Universe) (c : Config) (leaving : List ℕ) (earlier : List Goal) (g : Goal)
        → let few = nat_le (serving_among u c (settled c leaving) g) (places_of earlier g) in
        missing u c leaving (earlier ++ g ∷ []) ≡ missing u c leaving earlier ++ (if few then g ∷ [] else []) }
    ensures counted { (u : Universe) (c : Config) (leaving : List ℕ) (goals : List Goal) (g : Goal)
        → places_of (missing u c leaving goals) g ≡ places_of goals g - serving_among u c (settled c leaving) g }
{}

/// Of each port that its pair demands, an instance that is made anew takes as many settled providers as there are, up to its demand.
pub fn what_is_made_takes_what_serves()
    ensures { (u : Universe) (wishes : List Wish) (old : List Action) (goals : List Goal) (r : Reconfiguration u wishes old goals)
        (s z p : ℕ) → IsUniverse u → IsSteadfastRun u old → IsFalse (is_made old z) → pair_of (at_border r) z ≡ Some p
        → IsFalse (is_initial u p) → let ys = given u (left_by u old) r.leaving s in
        count_by (λ y. is_bound (at_border r) s z y) ys ≡ min (demand_of u p s) (length ys) }
{}

/// An instance of a line that says that it stays, or may be bound anew, stands in the end in the pair that it had, and so does each
/// settled one where all is to stay. One that is retired, or in an avoided pair, does not stand in the end.
pub fn each_line_is_kept()
    ensures keep { (u : Universe) (wishes : List Wish) (old : List Action) (goals : List Goal) (r : Reconfiguration u wishes old goals)
        (z : ℕ) → IsUniverse u → IsAnswered u wishes old goals r → Contains wishes (Keep z)
        → IsSome (pair_of (left_by u old) z) × (pair_of (at_end r) z ≡ pair_of (left_by u old) z) }
    ensures rebind { (u : Universe) (wishes : List Wish) (old : List Action) (goals : List Goal) (r : Reconfiguration u wishes old goals)
        (z : ℕ) → IsUniverse u → IsAnswered u wishes old goals r → Contains wishes (Rebind z)
        → IsSome (pair_of (left_by u old) z) × (pair_of (at_end r) z ≡ pair_of (left_by u old) z) }
    ensures all { (u : Universe) (wishes : List Wish) (old : List Action) (goals : List Goal) (r : Reconfiguration u wishes old goals)
        (z p : ℕ) → IsUniverse u → IsAnswered u wishes old goals r → Contains wishes KeepAll → pair_of (left_by u old) z ≡ Some p
        → IsFalse (has r.leaving z) → pair_of (at_end r) z ≡ Some p }
    ensures retire { (u : Universe) (wishes : List Wish) (old : List Action) (goals : List Goal) (r : Reconfiguration u wishes old goals)
        (z : ℕ) → IsUniverse u → IsAnswered u wishes old goals r → Contains wishes (Retire z) → pair_of (at_end r) z ≡ None }
    ensures avoid { (u : Universe) (wishes : List Wish) (old : List Action) (goals : List Goal) (r : Reconfiguration u wishes old goals)
        (z p : ℕ) → IsUniverse u → IsAnswered u wishes old goals r → pair_of (left_by u old) z ≡ Some p → IsTrue (is_avoided u wishes p)
        → pair_of (at_end r) z ≡ None }
{}

/// Where a port is unmet, its instance may be bound anew, lacks the port, and wants more providers than the given ones and the targets so
/// far; each lesser one that lacks it wants no more than these. And no new instance in a pair that is not avoided provides it.
pub fn the_unmet_wants_more_than_there_are()
    ensures wants { (u : Universe) (wishes : List Wish) (c : Config) (leaving ts : List ℕ) (z s : ℕ)
        → let v = left_to_plan u wishes c leaving in let zs = rebound_in wishes c in IsUnmet u v c leaving zs ts z s
        → let more = count_by (λ p. provides u p s) (targets_behind u v c leaving zs ts (range_with_len 0 s)) in
        IsTrue (has (rebound wishes) z) × (0 < lack u c leaving z s) × (length (given u c leaving s) + more < wants u c s z) }
    ensures least { (u : Universe) (wishes : List Wish) (c : Config) (leaving ts : List ℕ) (z s x p : ℕ) → IsConfig c
        → let v = left_to_plan u wishes c leaving in let zs = rebound_in wishes c in IsUnmet u v c leaving zs ts z s
        → x < z → IsTrue (has (rebound wishes) x) → pair_of c x ≡ Some p → 0 < lack u c leaving x s
        → let more = count_by (λ q. provides u q s) (targets_behind u v c leaving zs ts (range_with_len 0 s)) in
        wants u c s x ≤ length (given u c leaving s) + more }
    ensures nowhere { (u : Universe) (wishes : List Wish) (c : Config) (leaving ts : List ℕ) (z s : ℕ) → IsUniverse u → IsConfig c
        → IsUnmet u (left_to_plan u wishes c leaving) c leaving (rebound_in wishes c) ts z s
        → (xs : List Action) → IsRun u c xs → NewOnesAct u wishes c leaving c xs
        → (k x p : ℕ) → IsNew c x → pair_of (after_all u c (take k xs)) x ≡ Some p → IsFalse (is_avoided u wishes p) → IsFalse (provides u p s) }
{}
