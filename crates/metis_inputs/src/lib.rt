//! From the files of a run to what they mean: a universe, goals in it, a plan, a refusal, an explanation, a script, turns, hosts,
//! wishes; or why the run stops.
#![tactic(auto)]

mod asked;
mod inputs;
mod laws;
mod reading;
mod stop;
mod texts;
mod turns;

pub use asked::{Asked, GoalsAnd, GoalsPlanAnd, PlanAnd, UniverseAnd};
pub use inputs::{goals_and, goals_of, goals_plan_and, plan_and, universe_and, universe_of};
pub use laws::goals_are_named_word_by_word;
pub use stop::{InputFault, Stop};
pub use texts::Text;
