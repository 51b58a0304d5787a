//! Laws of the text of wishes.
ghost use Rattle.std.specs.Prelude.{◌≡◌, ◌<◌, ◌≤◌, ◌^◌, ◌++◌, ℕ, List, [], ◌∷◌, codes, decimal, length, IsSome, IsTrue, Err, None, Ok, Some, position};
ghost use Rattle.std.specs.Bool.{◌==◌};
ghost use Rattle.metis_tokens.specs.Terms.{pair_in, pieces, whole_lines};
ghost use Rattle.metis_universe.specs.Terms.{Universe, is_name, type_named};
ghost use Rattle.metis_wishes.specs.Terms.{HaveOwnSubjects, IsSaidBy, wish_in, wishes_in};
ghost use Rattle.metis_wishes.specs.declared.fault.WishFault.TheVariants.{Short};
ghost use Rattle.metis_wishes.specs.declared.wish.Wish.{Wish};
ghost use Rattle.metis_wishes.specs.declared.wish.Wish.TheVariants.{AvoidPair, AvoidType, Keep, KeepAll, Rebind, Retire};

/// A text of wishes that was cut off, wherever, is one that ends too soon. So none of its lines is lost in silence.
pub fn wishes_front_is_short()
    ensures { (u : Universe) (front more : List ℕ) (wishes : List Wish) → wishes_in u (front ++ more) ≡ Ok wishes → 1 ≤ length more
        → wishes_in u front ≡ Err Short }
{}

/// Behind the header and before the last line a text has one line for each wish, in order, which says it.
pub fn each_wish_is_of_a_line()
    ensures { (u : Universe) (bytes : List ℕ) (wishes : List Wish) → wishes_in u bytes ≡ Ok wishes
        → (lines : List (List ℕ)) × (whole_lines (pieces bytes) ≡ codes "metis wishes 1" ∷ lines ++ codes "end" ∷ []) × IsSaidBy u wishes lines }
{}

/// What each line says: its first word is the wish, and its second one the instance, a type or a pair. The word `all` says all instances.
pub fn each_line_says_its_wish()
    ensures keep { (u : Universe) (z : ℕ) → z < 2 ^ 32 → wish_in u (codes "keep" ∷ decimal z ∷ []) ≡ Ok (Keep z) }
    ensures all { (u : Universe) → wish_in u (codes "keep" ∷ codes "all" ∷ []) ≡ Ok KeepAll }
    ensures rebind { (u : Universe) (z : ℕ) → z < 2 ^ 32 → wish_in u (codes "rebind" ∷ decimal z ∷ []) ≡ Ok (Rebind z) }
    ensures retire { (u : Universe) (z : ℕ) → z < 2 ^ 32 → wish_in u (codes "retire" ∷ decimal z ∷ []) ≡ Ok (Retire z) }
    ensures kind { (u : Universe) (word : List ℕ) (t : ℕ) → IsTrue (is_name word) → position (λ b. b == 58) word ≡ None
        → type_named u word ≡ Some t → wish_in u (codes "avoid" ∷ word ∷ []) ≡ Ok (AvoidType t) }
    ensures pair { (u : Universe) (word : List ℕ) (p : ℕ) → IsSome (position (λ b. b == 58) word) → pair_in u word ≡ Ok p
        → wish_in u (codes "avoid" ∷ word ∷ []) ≡ Ok (AvoidPair p) }
{}

/// No two lines are about the same instance, type or pair.
pub fn no_two_wishes_are_about_the_same()
    ensures { (u : Universe) (bytes : List ℕ) (wishes : List Wish) → wishes_in u bytes ≡ Ok wishes → HaveOwnSubjects wishes }
{}
