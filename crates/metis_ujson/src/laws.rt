//! Laws over the definitions.
ghost use Rattle.std.specs.Prelude.{◌≡◌, ◌↔◌, ℕ, List, Err, Ok};
ghost use Rattle.metis_outside.specs.Terms.{IsLine};
ghost use Rattle.metis_universe.specs.Terms.{IsBySight, IsTable, Universe};
ghost use Rattle.metis_ujson.specs.Terms.{IsFirstFault, canonical, rows_in, universe_in};
ghost use Rattle.metis_ujson.specs.declared.faults.UFault.{UFault};

/// The fault of form that is told of a document is the first: each type before it and each of their states has its form, and so has
/// each state before it of its own type.
pub fn first_form_fault_comes_first()
    ensures { (bytes : List ℕ) (f : UFault) → (rows_in bytes ≡ Err f) ↔ IsFirstFault bytes f }
{}

/// The document that is written for a universe means that universe, if its ports stand in the order in which they are first seen. So
/// they stand in every universe that a document means.
pub fn written_is_read()
    ensures back { (u : Universe) → IsTable u → IsBySight u → universe_in (canonical u) ≡ Ok u }
    ensures by_sight { (bytes : List ℕ) (u : Universe) → universe_in bytes ≡ Ok u → IsBySight u }
    ensures again { (bytes : List ℕ) (u : Universe) → universe_in bytes ≡ Ok u → universe_in (canonical u) ≡ Ok u }
{}

/// It is one line: it ends with a line feed, and has no other.
pub fn written_is_a_line()
    ensures { (u : Universe) → IsLine (canonical u) }
{}
