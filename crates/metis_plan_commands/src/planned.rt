//! What a planner comes to.
ghost use Rattle.std.specs.Prelude.{◌≡◌};
ghost use Rattle.metis_layers.specs.Terms.{IsLayers, attained_pairs};
ghost use Rattle.metis_universe.specs.Terms.{pair_count};

use metis_ids::{Goal, Plan};
use metis_layers::table::Layers;
use metis_text::Refusal;
use metis_universe::Universe;
use metis_waits::Waits;

/// What goals come to.
#[derive(Drop)]
pub enum Planned {
    /// A plan, and what each of its actions waits for.
    Plan(Plan, Waits),
    /// All attainable pairs, and the first goal that they lack.
    Refusal(Refusal),
}

/// The refusal of goals of which the attainable pairs lack this one.
pub fn refusal(u: &Universe, layers: Layers, lacks: Goal) -> Refusal
    requires { IsLayers u.now layers }
    ensures lacks { result.lacks ≡ lacks }
    ensures size { result.pairs.size ≡ pair_count u.now }
    ensures pairs { result.pairs.members ≡ attained_pairs u.now }
{
    let pairs = layers.into_attained();
    Refusal { lacks, pairs }
}
