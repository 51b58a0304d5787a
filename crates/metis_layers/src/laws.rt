//! Laws of the layers.
ghost use Rattle.std.specs.Prelude.{◌≤◌, ◌*◌, ℕ, List, length, IsSome, IsTrue};
ghost use Rattle.metis_universe.specs.Terms.{IsAttainedSet, IsTable, IsUniverse, Universe, has, layer_of};
ghost use Rattle.metis_layers.specs.Terms.{Deploys, attained_pairs, instances_of, layer_order};

/// The list in the order of the layers deploys every list of targets that have a layer.
pub fn layer_order_deploys()
    ensures { (u : Universe) (g : List ℕ) → IsUniverse u → ((p : ℕ) → IsTrue (has g p) → IsSome (layer_of u p)) → Deploys u g (layer_order u g) }
{}

/// It has at most 321 actions for each instance.
pub fn layer_order_is_short()
    ensures { (u : Universe) (g : List ℕ) → IsTable u → ((p : ℕ) → IsTrue (has g p) → IsSome (layer_of u p)) → length (layer_order u g) ≤ 321 * instances_of (layer_order u g) }
{}

/// The attainable pairs are those that come in some round.
pub fn layers_are_attainable()
    ensures { (u : Universe) → IsUniverse u → IsAttainedSet u (attained_pairs u) }
{}
