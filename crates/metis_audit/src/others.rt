//! Whether a text says what each action waits for.
ghost use Rattle.std.specs.Prelude.{◌≡◌, ◌≢◌, ◌≤◌, ℕ, List, MatchBool, MatchOption, length, map};
ghost use Rattle.metis_ids.specs.declared.actions.Action.{Action};
ghost use Rattle.metis_text.specs.Terms.{after_of};
ghost use Rattle.metis_waits.specs.Terms.{AreWaits, waits_on_others};
ghost use Rattle.metis_audit.specs.Terms.{IsFirstOther};

use metis_waits::Waits;

/// The number of the first action behind which other numbers stand than those of the other actions that it waits for.
pub fn first_other(w: &Waits, after: &[Vec<u32>]) -> Option<u32>
    requires { length after.now ≡ length w.now.each }
    ensures { (actions : List Action) → AreWaits actions w.now → MatchOption result ((k : ℕ) → 1 ≤ k → k ≤ length actions → after_of (map (λ ks. ks.items) after.now) k ≡ waits_on_others actions k) (IsFirstOther actions (map (λ ks. ks.items) after.now)) }
{
    // For the proof alone: the lists of the waits are fewer than 2^32.
    let _count = w.count();
    for index in 0..after.len() {
        let number = index as u32 + 1;
        if !are_same(after[index].as_slice(), w.after(number)) {
            return Some(number);
        }
    }
    None
}

// Whether both are one list.
fn are_same(one: &[u32], other: &[u32]) -> bool
    ensures { MatchBool result (one.now ≡ other.now) (one.now ≢ other.now) }
{
    one == other
}
