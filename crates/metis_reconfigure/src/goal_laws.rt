//! Laws of the goals of a reconfiguration.
ghost use Rattle.std.specs.Prelude.{◌≡◌, ◌⊎◌, ◌-◌, ◌^◌, ◌<◌, ◌≤◌, ◌++◌, false, ℕ, List, [], length, take, IsFalse, IsSome, IsTrue, None, Some};
ghost use Rattle.std.specs.List.{All, filter_map, range_with_len};
ghost use Rattle.std.specs.Option.{option_map_or};
ghost use Rattle.metis_choice.specs.Terms.{ArePairsFor};
ghost use Rattle.metis_ids.specs.declared.actions.Action.{Action};
ghost use Rattle.metis_ids.specs.declared.goals.Goal.{Goal};
ghost use Rattle.metis_layers.specs.Terms.{attained_pairs, instances_of};
ghost use Rattle.metis_planner.specs.Terms.{IsLean, IsPlanFor};
ghost use Rattle.metis_universe.specs.Terms.{AttainsGoals, Config, HoldsGoals, IsConfig, IsKept, IsRun, IsSteadfastRun, IsTable, IsUniverse, Universe, after_all, empty, has, is_bound, pair_of, picked, port_count, requires, serves};
ghost use Rattle.metis_rollout.specs.Terms.{HasEach, members, rollout};
ghost use Rattle.metis_wishes.specs.Terms.{avoided, is_avoided, kept, named, rebound};
ghost use Rattle.metis_wishes.specs.declared.wish.Wish.{Wish};
ghost use Rattle.metis_reconfigure.specs.Terms.{AreLeaving, AreMet, IsAnswerable, IsAnswered, IsNew, NewOnesAct, Reconfiguration, TakesOldLate, at_end, before_removal, fresh_actions, is_root, is_unavoidable, left_by, left_to_plan, missing, pair_for, rebinds_in, rebound_in, reconfigured, targets};

/// In the end the goals are held. In an order that keeps the waits, in which nothing that the old actions leave is unbound, moved or
/// deleted before all that is new stands, at each moment after the old actions any goals that their end holds are held, or these are.
pub fn the_goals_are_held_in_the_end()
    ensures held { (u : Universe) (wishes : List Wish) (old : List Action) (goals : List Goal) (r : Reconfiguration u wishes old goals)
        → IsUniverse u → IsAnswered u wishes old goals r → HoldsGoals u (at_end r) goals }
    ensures throughout { (u : Universe) (wishes : List Wish) (old : List Action) (goals : List Goal) (r : Reconfiguration u wishes old goals)
        (front rest : List ℕ) (before : List Goal) → IsUniverse u → IsAnswered u wishes old goals r → IsKept (reconfigured r) (front ++ rest)
        → TakesOldLate r (front ++ rest) → HasEach 0 (length old) front
        → HoldsGoals u (left_by u old) before
        → let c = left_by u (picked (reconfigured r) front) in HoldsGoals u c before ⊎ HoldsGoals u c goals }
{}

/// Where nothing is avoided, no missing goal of attained goals is unavoidable, and each port that is short has a provider. So such goals
/// can be answered where the lines only retire instances that stand.
pub fn attained_goals_are_answered_where_nothing_is_avoided()
    ensures avoidable { (u : Universe) (wishes : List Wish) (c : Config) (leaving : List ℕ) (goals : List Goal) → IsUniverse u
        → avoided u wishes ≡ [] → AttainsGoals u goals
        → All (λ g. IsFalse (is_unavoidable u wishes (left_to_plan u wishes c leaving) g)) (missing u c leaving goals) }
    ensures met { (u : Universe) (wishes : List Wish) (old : List Action) (leaving : List ℕ) (goals : List Goal) → IsUniverse u
        → IsRun u empty old → avoided u wishes ≡ [] → let c = left_by u old in let v = left_to_plan u wishes c leaving in
        AreMet u v c leaving (rebound_in wishes c) (filter_map (pair_for v) (missing u c leaving goals)) (range_with_len 0 (port_count u)) }
    ensures answerable { (u : Universe) (wishes : List Wish) (old : List Action) (goals : List Goal) (leaving : List ℕ) → IsUniverse u
        → IsRun u empty old → AttainsGoals u goals → length goals ≤ 256
        → avoided u wishes ≡ [] → kept wishes ≡ [] → rebound wishes ≡ []
        → ((z : ℕ) → IsTrue (has (named wishes) z) → IsSome (pair_of (left_by u old) z)) → IsAnswerable u wishes old goals leaving }
{}

/// In a run from what stands in which no instance of it acts, let each binding of a new instance lead, at each moment, to a settled one,
/// or to a new one in a pair that is not avoided. Then the new instances come only into pairs that are attained over what is left to
/// plan. So none of them serves an unavoidable goal, unless in an avoided pair.
pub fn new_instances_stay_within_what_is_left_to_plan()
    ensures inside { (u : Universe) (wishes : List Wish) (c : Config) (leaving : List ℕ) → IsUniverse u → IsConfig c → (xs : List Action)
        → IsRun u c xs → NewOnesAct u wishes c leaving c xs → (k z p : ℕ) → IsNew c z → pair_of (after_all u c (take k xs)) z ≡ Some p
        → IsTrue (has (attained_pairs (left_to_plan u wishes c leaving)) p) }
    ensures unserved { (u : Universe) (wishes : List Wish) (c : Config) (leaving : List ℕ) → IsUniverse u → IsConfig c → (xs : List Action)
        → IsRun u c xs → NewOnesAct u wishes c leaving c xs
        → (g : Goal) → IsTrue (is_unavoidable u wishes (left_to_plan u wishes c leaving) g)
        → (k z p : ℕ) → IsNew c z → pair_of (after_all u c (take k xs)) z ≡ Some p → IsFalse (is_avoided u wishes p)
        → IsFalse (serves u p g) }
{}

/// Without a root nothing leaves. Where nothing leaves and the goals are held, nothing is made or bound anew; and nothing is done where
/// besides all stays and each binding is required. So the next time, for the same goals and without wishes, nothing is made.
pub fn nothing_is_done_for_nothing()
    ensures leaves { (u : Universe) (wishes : List Wish) (c : Config) (leaving : List ℕ) → AreLeaving u wishes c leaving
        → ((z : ℕ) → IsFalse (is_root u wishes c z)) → (z : ℕ) → IsFalse (has leaving z) }
    ensures made { (u : Universe) (wishes : List Wish) (old : List Action) (goals : List Goal) (r : Reconfiguration u wishes old goals)
        → IsSteadfastRun u old → ((z : ℕ) → IsFalse (has r.leaving z)) → HoldsGoals u (left_by u old) goals → before_removal r ≡ old }
    ensures done { (u : Universe) (wishes : List Wish) (old : List Action) (goals : List Goal) (r : Reconfiguration u wishes old goals)
        → IsSteadfastRun u old → ((z : ℕ) → IsFalse (has r.leaving z)) → HoldsGoals u (left_by u old) goals
        → ((z : ℕ) → IsSome (pair_of (left_by u old) z) → IsTrue (has r.staying z))
        → ((s z y : ℕ) → IsTrue (is_bound (left_by u old) s z y)
        → IsTrue (option_map_or (λ p. requires u p s) (pair_of (left_by u old) z) false))
        → reconfigured r ≡ old }
    ensures again { (u : Universe) (wishes : List Wish) (old : List Action) (goals : List Goal) (r : Reconfiguration u wishes old goals)
        (s : Reconfiguration u [] (reconfigured r) goals) → IsUniverse u → IsAnswered u wishes old goals r
        → before_removal s ≡ reconfigured r }
{}

/// Without goals and wishes it is the teardown of the old actions. Where nothing is avoided, no line says what stays, and all that stands
/// leaves, it is their rollout, with a plan for the goals' pairs.
pub fn where_all_leaves_it_is_a_rollout()
    ensures teardown { (u : Universe) (old : List Action) (r : Reconfiguration u [] old []) → IsSteadfastRun u old
        → reconfigured r ≡ rollout u old [] }
    ensures rollout { (u : Universe) (wishes : List Wish) (old : List Action) (goals : List Goal) (r : Reconfiguration u wishes old goals)
        → IsUniverse u → IsSteadfastRun u old → avoided u wishes ≡ [] → kept wishes ≡ [] → rebound wishes ≡ []
        → ((z : ℕ) → IsTrue (has (members (left_by u old)) z) → IsTrue (has r.leaving z))
        → reconfigured r ≡ rollout u old r.plan.actions }
    ensures plan { (u : Universe) (wishes : List Wish) (old : List Action) (goals : List Goal) (r : Reconfiguration u wishes old goals)
        → IsUniverse u → IsSteadfastRun u old → avoided u wishes ≡ [] → kept wishes ≡ [] → rebound wishes ≡ []
        → ((z : ℕ) → IsTrue (has (members (left_by u old)) z) → IsTrue (has r.leaving z)) → AttainsGoals u goals
        → let g = filter_map (pair_for u) goals in ArePairsFor u goals g × IsPlanFor u g r.plan }
{}

/// Where nothing stands and nothing is wished, it is the plan for the goals' pairs, action for action.
pub fn where_nothing_stands_it_is_the_plan()
    ensures plan { (u : Universe) (goals : List Goal) (r : Reconfiguration u [] [] goals) → IsTable u → AttainsGoals u goals
        → let g = filter_map (pair_for u) goals in ArePairsFor u goals g × IsPlanFor u g r.plan }
    ensures same { (u : Universe) (goals : List Goal) (r : Reconfiguration u [] [] goals) → IsTable u → reconfigured r ≡ r.plan.actions }
{}

/// Before the removal as many instances are made as the plan has: at most the pairs attained over what is left to plan, times the greatest
/// demand, and the targets.
pub fn few_instances_are_made()
    ensures made { (u : Universe) (wishes : List Wish) (old : List Action) (goals : List Goal) (r : Reconfiguration u wishes old goals)
        → instances_of (fresh_actions u old r.leaving r.plan ++ rebinds_in r) ≡ r.plan.instances }
    ensures few { (u : Universe) (wishes : List Wish) (old : List Action) (goals : List Goal) (r : Reconfiguration u wishes old goals)
        → let v = left_to_plan u wishes (left_by u old) r.leaving in
        IsLean v (instances_of (fresh_actions u old r.leaving r.plan ++ rebinds_in r)) (targets u wishes (left_by u old) r.leaving goals) }
{}
