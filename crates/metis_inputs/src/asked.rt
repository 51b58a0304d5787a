//! What commands read.
ghost use Rattle.std.specs.Prelude.{◌≤◌, length};
ghost use Rattle.std.specs.List.{All};
ghost use Rattle.metis_universe.specs.Terms.{IsGoalOf, IsWordable};
ghost use Rattle.metis_inputs.specs.Facts.{AreGoalsOf-prop, AreWordable-prop};

use crate::texts::Text;
use metis_ids::Goal;
use metis_text::PlanText;
use metis_universe::Universe;

/// A universe, and the goals in it that the targets of a command ask for.
#[derive(Drop)]
pub struct Asked {
    pub universe: Universe,
    pub goals: Vec<Goal>,
    pub ghost few_goals: { length goals.items ≤ 256 },
    pub ghost within: { All (IsGoalOf universe) goals.items } by { AreGoalsOf-prop universe goals.items },
    pub ghost wordable: { All (IsWordable universe) goals.items } by { AreWordable-prop universe goals.items },
}

/// A universe, and a text over it.
#[derive(Drop)]
pub struct UniverseAnd<T: Text> {
    pub universe: Universe,
    pub text: T,
    pub ghost fits: { T.fits universe text } by { T.fits_prop universe text },
}

/// A universe, goals in it, and a text over it.
#[derive(Drop)]
pub struct GoalsAnd<T: Text> {
    pub asked: Asked,
    pub text: T,
    pub ghost fits: { T.fits asked.universe text } by { T.fits_prop asked.universe text },
}

/// A universe, a plan over it, and a further text over it.
#[derive(Drop)]
pub struct PlanAnd<T: Text> {
    pub planned: UniverseAnd<PlanText>,
    pub text: T,
    pub ghost fits: { T.fits planned.universe text } by { T.fits_prop planned.universe text },
}

/// A universe, goals in it, a plan over it, and a further text over it.
#[derive(Drop)]
pub struct GoalsPlanAnd<T: Text> {
    pub planned: GoalsAnd<PlanText>,
    pub text: T,
    pub ghost fits: { T.fits planned.asked.universe text } by { T.fits_prop planned.asked.universe text },
}
