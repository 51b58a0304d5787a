//! Laws of a removal.
ghost use Rattle.std.specs.Prelude.{◌≡◌, ◌⊎◌, ◌++◌, ◌+◌, ◌*◌, ◌-◌, ◌^◌, ◌<◌, ◌≤◌, Bool, length, ℕ, List, IsTrue};
ghost use Rattle.std.specs.List.{All};
ghost use Rattle.metis_ids.specs.declared.actions.Action.{Action};
ghost use Rattle.metis_universe.specs.Terms.{Config, Holds, IsKept, IsOf, IsRun, IsSteadfastRun, IsTable, IsUniverse, Universe, after_all, empty, is_complete, picked};
ghost use Rattle.metis_rollout.specs.Terms.{CanTake, GoesApart, HasEach, IsBeside, IsGuardedAt, IsWithout, KeepsStanding, Removing, StandsIn, TakesLate, all_go, among, removal, taking};

/// Where what stays is served by what stays, all that goes is removed by a list that goes on steadily.
pub fn removal_goes_on()
    ensures { (u : Universe) (goes : ℕ → Bool) (name : ℕ → ℕ) (xs : List Action) → IsUniverse u → CanTake u goes name xs
        → IsSteadfastRun u (xs ++ taking u goes name xs) }
{}

/// What stays is left, each instance in its pair, with its bindings to what stays that its pair requires.
pub fn what_stays_is_left()
    ensures { (u : Universe) (goes : ℕ → Bool) (name : ℕ → ℕ) (xs : List Action) → IsUniverse u → CanTake u goes name xs
        → IsWithout u goes (after_all u empty xs) (after_all u empty (xs ++ taking u goes name xs)) }
{}

/// No instance that stays is made, moved or deleted, and none acts, but to end its bindings to what goes and those that nothing
/// requires. None is made but the scaffold's.
pub fn what_stays_is_left_alone()
    ensures { (u : Universe) (goes : ℕ → Bool) (name : ℕ → ℕ) (xs : List Action)
        → All (Removing u goes name (after_all u empty xs)) (taking u goes name xs) }
{}

/// It has few actions.
pub fn removal_is_short()
    ensures removal { (u : Universe) (goes : ℕ → Bool) (name : ℕ → ℕ) (xs : List Action) → IsTable u → CanTake u goes name xs
        → length (taking u goes name xs) ≤ 3 * length xs + 20576000 }
    ensures whole { (u : Universe) (goes : ℕ → Bool) (name : ℕ → ℕ) (xs : List Action) → IsTable u → CanTake u goes name xs
        → length xs < 2 ^ 29 → length (xs ++ taking u goes name xs) < 2 ^ 32 - 1 }
{}

/// It names types, pairs and ports of the universe alone, where the list before it does.
pub fn removal_is_of_the_universe()
    ensures { (u : Universe) (goes : ℕ → Bool) (name : ℕ → ℕ) (xs : List Action) → IsUniverse u → IsRun u empty xs
        → All (IsOf u) xs → All (IsOf u) (taking u goes name xs) }
{}

/// New actions that move, delete and end nothing of what the old ones leave, and then a removal. In each order that keeps the waits,
/// once all old actions are done, each old instance that stays is in its pair, and each old binding that is left at the end stands.
pub fn what_stays_stands_throughout()
    ensures { (u : Universe) (goes : ℕ → Bool) (name : ℕ → ℕ) (old new : List Action) (ks : List ℕ)
        → IsUniverse u → IsBeside u old new → CanTake u goes name (old ++ new)
        → let whole = old ++ (new ++ taking u goes name (old ++ new)) in
        IsKept whole ks → HasEach 0 (length old) ks
        → KeepsStanding goes (after_all u empty old) (after_all u empty whole) (after_all u empty (picked whole ks)) }
{}

/// In an order that keeps the waits let nothing that the old actions leave be unbound, moved or deleted before all that is new stands.
/// Then, at each moment after the old actions, all that they leave stands, or all that is left at the end does. So the goals that the old
/// end holds are held, or those that the new end holds.
pub fn guarded_removal_never_lacks()
    ensures configurations { (u : Universe) (goes : ℕ → Bool) (name : ℕ → ℕ) (old new : List Action) (front rest : List ℕ)
        → IsUniverse u → IsBeside u old new → CanTake u goes name (old ++ new)
        → let whole = old ++ (new ++ taking u goes name (old ++ new)) in
        IsKept whole (front ++ rest) → TakesLate (after_all u empty old) whole (length old) (length old + length new) (front ++ rest)
        → HasEach 0 (length old) front
        → let c = after_all u empty (picked whole front) in
        StandsIn (after_all u empty old) c ⊎ StandsIn (after_all u empty whole) c }
    ensures goals { (u : Universe) (goes : ℕ → Bool) (name : ℕ → ℕ) (old new : List Action) (front rest g h : List ℕ)
        → IsUniverse u → IsBeside u old new → CanTake u goes name (old ++ new)
        → let whole = old ++ (new ++ taking u goes name (old ++ new)) in
        IsKept whole (front ++ rest) → TakesLate (after_all u empty old) whole (length old) (length old + length new) (front ++ rest)
        → HasEach 0 (length old) front
        → Holds (after_all u empty old) g → Holds (after_all u empty whole) h
        → let c = after_all u empty (picked whole front) in Holds c g ⊎ Holds c h }
{}

/// Whatever the old actions have come to, in an order that keeps their waits, goes on to an order of all actions in which none of
/// the rest comes before each old and new one.
pub fn guarded_removal_goes_on()
    ensures { (old new rest : List Action) (ks : List ℕ) → IsKept old ks
        → let whole = old ++ (new ++ rest) in
        (more : List ℕ) × IsKept whole (ks ++ more) × IsTrue (is_complete whole (ks ++ more))
        × IsGuardedAt 0 (length old + length new) (ks ++ more) }
{}

/// In an order in which none of the rest comes before each new action, nothing of the rest takes anything away before that.
pub fn guarded_orders_take_late()
    ensures { (c : Config) (all : List Action) (from last : ℕ) (ks : List ℕ) → IsGuardedAt from last ks → TakesLate c all from last ks }
{}

/// Where what goes stands apart from what stays, and each binding of what stays is required, its removal is that of what goes alone,
/// as in a rollout, where all go.
pub fn what_goes_alone()
    ensures { (u : Universe) (goes : ℕ → Bool) (name : ℕ → ℕ) (c : Config) → GoesApart u goes c
        → removal u goes name c ≡ removal u all_go name (among goes c) }
{}
