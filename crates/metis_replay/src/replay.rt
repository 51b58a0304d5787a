//! Does actions one after the other.
ghost use Rattle.std.specs.Prelude.{◌≡◌, ◌<◌, ◌-◌, ◌^◌, IsTrue, IfOk, IfSome, OnOk, OnErr, None};
ghost use Rattle.std.specs.List.{All};
ghost use Rattle.metis_universe.specs.Terms.{Correct, IsGoalOf, IsOf};
ghost use Rattle.metis_config.specs.Terms.{IsOver};
ghost use Rattle.metis_actions.specs.Terms.{IsFaultOf, fault_of, takes_memory};
ghost use Rattle.metis_replay.specs.Terms.{IsVerdictOf, fed, left_by, start, verdict};

use crate::Verdict;
use crate::lacking::shortage;
use metis_actions::{AFault, apply};
use metis_config::Config;
use metis_ids::{Action, Goal, NoMemory};
use metis_universe::Universe;
use std::alloc::Global;
use std::marker::Model;

/// Actions done one after the other, from the empty configuration.
#[derive(Drop)]
pub struct Replay<'a> {
    universe: &'a Universe,
    config: Config,
    /// How many actions were fed.
    number: u32,
    /// The number of the first action that was refused, counted from 1, and why.
    refused: Option<(u32, AFault)>,
}

impl<'a> Model for Replay<'a> {
    ghost use Rattle.metis_replay.specs.Progress.{Progress, progress_of, IsSound};

    ghost Value = { Progress };

    ghost view = { λ g. progress_of g.universe.now g.config g.number g.refused };

    ghost invariant = { λ g. IsSound g.universe.now g.config g.refused };
}

impl<'a> Replay<'a> {
    /// No action was fed.
    pub fn new(alloc: Global, u: &'a Universe) -> Replay<'a>
        ensures { result ≡ start u.now }
    {
        Replay {
            universe: u,
            config: Config::empty(alloc),
            number: 0,
            refused: None,
        }
    }

    /// Does the action, or keeps why it is refused. Once one was refused, later ones are only counted. Where memory runs out,
    /// nothing changes; that comes only at an action that is not refused, and for the instance or the binding that it makes.
    pub fn feed(&mut self, a: &Action) -> Result<(), NoMemory>
        requires action { IsOf self.old.universe a.now }
        requires few { self.old.number < 2 ^ 32 - 1 }
        ensures ok { OnOk result (self.new ≡ fed self.old a.now) }
        ensures err { OnErr result (self.new ≡ self.old) }
        ensures going { OnErr result (self.old.refused ≡ None) }
        ensures allowed { OnErr result (fault_of self.old.universe self.old.config a.now ≡ None) }
        ensures memory { OnErr result (IsTrue (takes_memory a.now)) }
    {
        let number = self.number + 1;
        if self.refused.is_none() {
            let fault = tried(self.universe, &mut self.config, a)?;
            self.refused = fault.map(|fault| (number, fault));
        }
        self.number = number;
        Ok(())
    }

    /// How many actions were fed, also those that were only counted.
    pub fn count(&self) -> u64
        ensures { result ≡ self.now.number }
    {
        u64::from(self.number)
    }

    /// What the actions came to, where the targets, pairs or ports, were asked for.
    pub fn finish(&self, targets: &[Goal]) -> Verdict
        ensures verdict { result ≡ verdict self.now targets.now }
        ensures numbers { All (IsGoalOf self.now.universe) targets.now → IsVerdictOf self.now.universe result }
    {
        if let Some((number, fault)) = self.refused {
            return Verdict::Bad(number, fault);
        }
        match shortage(self.universe, &self.config, targets) {
            Some((goal, have, want)) => Verdict::Missing(goal, have, want),
            None => Verdict::Good,
        }
    }

    /// What the actions that were done left.
    pub fn config(&self) -> &Config
        ensures config { result.now ≡ self.now.config }
        ensures correct { Correct self.now.universe self.now.config }
        ensures over { IsOver self.now.universe self.now.config }
    {
        &self.config
    }

    /// The configuration, taken out of the replay.
    pub fn into_config(self) -> Config
        ensures config { result ≡ self.entry.config }
        ensures correct { Correct self.entry.universe self.entry.config }
        ensures over { IsOver self.entry.universe self.entry.config }
    {
        self.config
    }
}

// Does the action where it is not refused, or says why it is.
fn tried(u: &Universe, c: &mut Config, a: &Action) -> Result<Option<AFault>, NoMemory>
    requires over { IsOver u.now c.old }
    requires correct { Correct u.now c.old }
    requires action { IsOf u.now a.now }
    ensures fault { IfOk result (λ f. f ≡ fault_of u.now c.old a.now) }
    ensures numbers { IfOk result (λ f. IfSome f (IsFaultOf u.now)) }
    ensures ok { OnOk result (c.new ≡ left_by u.now c.old a.now) }
    ensures err { OnErr result (c.new ≡ c.old) }
    ensures allowed { OnErr result (fault_of u.now c.old a.now ≡ None) }
    ensures memory { OnErr result (IsTrue (takes_memory a.now)) }
    ensures correct { Correct u.now c.new }
    ensures over { IsOver u.now c.new }
{
    match apply(u, c, a) {
        Ok(()) => Ok(None),
        Err(AFault::NoMemory) => Err(NoMemory),
        Err(fault) => Ok(Some(fault)),
    }
}
