//! Laws over the definitions.
ghost use Rattle.std.specs.Prelude.{◌≡◌, ℕ, ◌+◌, List, length};
ghost use Rattle.metis_commands.specs.Terms.{crew_lines};
ghost use Rattle.metis_ids.specs.declared.actions.Action.{Action};

/// What a crew answers has a line for each turn, and one more.
pub fn a_crew_has_a_line_for_each_turn()
    ensures { (actions : List Action) (zs : List ℕ) → length (crew_lines actions zs) ≡ length zs + 1 }
{}
