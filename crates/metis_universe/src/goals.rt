//! What serves a goal, and the names by which goals are asked for.
ghost use Rattle.std.specs.Prelude.{◌≡◌, IfSome, option_map};
ghost use Rattle.metis_ids.specs.declared.goals.Goal.TheVariants.{Pair, Port};
ghost use Rattle.metis_universe.specs.Terms.{IsGoalOf, IsWordable, goal_named, goal_names, means_port, pair_named, port_named, serves};

use crate::Universe;
use metis_ids::{Goal, PairIx};

/// The name with which a word for a port begins.
const PORT: &str = "port";

impl Universe {
    /// Whether an instance in the pair serves the goal: it is in that pair, or the pair provides that port.
    pub fn serves(&self, p: PairIx, goal: Goal) -> bool
        ensures { result ≡ serves self.now p goal }
    {
        match goal {
            Goal::Pair(asked) => p == asked,
            Goal::Port(port) => p.0 < self.pairs() && self.provides(p, port),
        }
    }

    /// The goal that these two names ask for: the pair of a type and its state, or a port behind the name `port`. In a universe
    /// that has a type named `port` each word asks for a pair.
    pub fn goal_named(&self, kind: &str, name: &str) -> Option<Goal>
        ensures goal { result ≡ goal_named self.now kind.now name.now }
        ensures within { IfSome result (IsWordable self.now) }
    {
        if self.means_port(kind) {
            self.port_goal(name)
        } else {
            self.pair_goal(kind, name)
        }
    }

    // Whether words that begin with this name mean ports.
    fn means_port(&self, kind: &str) -> bool
        ensures { result ≡ means_port self.now kind.now }
    {
        kind == PORT && self.type_named(PORT).is_none()
    }

    fn port_goal(&self, name: &str) -> Option<Goal>
        ensures { result ≡ option_map Port (port_named self.now name.now) }
    {
        self.port_named(name).map(Goal::Port)
    }

    fn pair_goal(&self, kind: &str, state: &str) -> Option<Goal>
        ensures { result ≡ option_map Pair (pair_named self.now kind.now state.now) }
    {
        self.pair_named(kind, state).map(Goal::Pair)
    }

    /// The two names by which the goal is asked for.
    pub fn goal_names(&self, goal: Goal) -> (&str, &str)
        requires { IsGoalOf self.now goal }
        ensures { (result.0.now, result.1.now) ≡ goal_names self.now goal }
    {
        match goal {
            Goal::Pair(pair) => (self.type_name(self.type_of(pair)), self.state_name(pair)),
            Goal::Port(port) => (PORT, self.port_name(port)),
        }
    }
}
