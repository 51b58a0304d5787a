//! A session over a universe.
ghost use Rattle.std.specs.Prelude.{◌≡◌, ◌≢◌, IfOk, IsFalse, IsTrue, OnErr, length};
ghost use Rattle.metis_universe.specs.Terms.{Correct, IsOf};
ghost use Rattle.metis_config.specs.Terms.{IsOver};
ghost use Rattle.metis_actions.specs.declared.faults.AFault.{AFault};
ghost use Rattle.metis_sim.specs.Terms.{IsAskedOf, IsReplyOf, KeepsEnough, answer, begin, changes, done, taken, takes_none, undone, unkept};
ghost use Rattle.metis_sim.specs.Asked.{is_undo};

use crate::Reply;
use crate::asked::{Asked, asked_in};
use crate::change::Change;
use crate::earlier::Earlier;
use metis_actions::{AFault, apply};
use metis_config::Config;
use metis_ids::{Action, NoMemory};
use metis_universe::Universe;
use std::alloc::Global;
use std::marker::Model;

/// A configuration, which starts empty, and the earlier ones that `undo` goes back to.
#[derive(Drop)]
pub struct Session<'a> {
    alloc: Global,
    universe: &'a Universe,
    config: Config,
    /// What each action changed that was done and not undone.
    earlier: Earlier,
    /// Whether `quit` was read.
    ended: bool,
}

impl<'a> Model for Session<'a> {
    ghost use Rattle.metis_sim.specs.Changes.{befores};
    ghost use Rattle.metis_sim.specs.Session as model;

    ghost Value = { model.Session };

    ghost view = { λ s. model.session_of s.universe.now s.config (befores s.config s.earlier) s.ended };

    ghost invariant = { λ s. model.IsSound s.universe.now s.config s.earlier };
}

impl<'a> Session<'a> {
    /// The empty configuration, and none before it.
    pub fn new(alloc: Global, u: &'a Universe) -> Session<'a>
        ensures { result ≡ begin u.now }
    {
        Session {
            alloc,
            universe: u,
            config: Config::empty(alloc),
            earlier: Earlier::new(alloc),
            ended: false,
        }
    }

    /// Does what the line says, where it may be done. The bytes are without the line feed. Only `Did`, `Undone` and `Bye`
    /// change the session. `undo`, `quit` and a session that has ended take no memory.
    pub fn line(&mut self, bytes: &[u8]) -> Reply
        ensures answer { result ≢ Reply.NoMemory → (result, self.new) ≡ answer self.old bytes.now }
        ensures kept { IsFalse (changes result) → self.new ≡ self.old }
        ensures memory { result ≡ Reply.NoMemory → IsFalse (takes_none self.old bytes.now) }
        ensures refused { (f : AFault) → result ≡ Reply.Refused f → f ≢ AFault.NoMemory }
        ensures numbers { result ≢ Reply.Ended → result ≢ Reply.NoMemory → IsReplyOf self.old.universe result }
        ensures universe { self.new.universe ≡ self.old.universe }
    {
        self.universe.keeps_invariant();
        match self.answer(bytes) {
            Ok(reply) => reply,
            Err(NoMemory) => Reply::NoMemory,
        }
    }

    /// The configuration.
    pub fn config(&self) -> &Config
        ensures config { result.now ≡ self.now.config }
        ensures correct { Correct self.now.universe self.now.config }
        ensures over { IsOver self.now.universe self.now.config }
    {
        &self.config
    }

    /// How many earlier configurations are kept.
    pub fn depth(&self) -> u64
        ensures { result ≡ length self.now.earlier }
    {
        self.earlier.len()
    }

    /// Whether `quit` was read.
    pub(crate) fn has_ended(&self) -> bool
        ensures { result ≡ self.now.ended }
    {
        self.ended
    }

    /// Answers as `line` does, but only a session that keeps can go back behind it. One that does not lets go what it kept.
    pub(crate) fn reply_to(&mut self, bytes: &[u8], keeps: bool) -> Reply
        requires { IsFalse keeps → IsFalse (is_undo bytes.now) }
        ensures answer { result ≢ Reply.NoMemory → KeepsEnough keeps (result, self.new) (answer self.old bytes.now) }
        ensures numbers { result ≢ Reply.Ended → result ≢ Reply.NoMemory → IsReplyOf self.old.universe result }
        ensures universe { self.new.universe ≡ self.old.universe }
    {
        if keeps {
            self.line(bytes)
        } else {
            self.last_line(bytes)
        }
    }

    // The reply of a session that is not told to undo.
    fn last_line(&mut self, bytes: &[u8]) -> Reply
        requires { IsFalse (is_undo bytes.now) }
        ensures answer { result ≢ Reply.NoMemory → unkept (result, self.new) ≡ unkept (answer self.old bytes.now) }
        ensures numbers { result ≢ Reply.Ended → result ≢ Reply.NoMemory → IsReplyOf self.old.universe result }
        ensures universe { self.new.universe ≡ self.old.universe }
    {
        self.universe.keeps_invariant();
        match self.last_answer(bytes) {
            Ok(reply) => reply,
            Err(NoMemory) => Reply::NoMemory,
        }
    }

    fn last_answer(&mut self, bytes: &[u8]) -> Result<Reply, NoMemory>
        requires { IsFalse (is_undo bytes.now) }
        ensures ok { IfOk result (λ r. unkept (r, self.new) ≡ unkept (answer self.old bytes.now)) }
        ensures universe { self.new.universe ≡ self.old.universe }
    {
        match self.asked(bytes)? {
            Asked::Undo => unreachable!(),
            Asked::Quit => Ok(self.quit()),
            Asked::Act(action) => self.perform_last(&action),
            Asked::Tell(reply) => Ok(reply),
        }
    }

    fn answer(&mut self, bytes: &[u8]) -> Result<Reply, NoMemory>
        ensures ok { IfOk result (λ r. (r, self.new) ≡ answer self.old bytes.now) }
        ensures err { OnErr result (self.new ≡ self.old) }
        ensures memory { OnErr result (IsFalse (takes_none self.old bytes.now)) }
    {
        match self.asked(bytes)? {
            Asked::Undo => Ok(self.undo()),
            Asked::Quit => Ok(self.quit()),
            Asked::Act(action) => self.perform(&action),
            Asked::Tell(reply) => Ok(reply),
        }
    }

    // What the line asks for: nothing, once the session has ended.
    fn asked(&self, bytes: &[u8]) -> Result<Asked, NoMemory>
        ensures answer { IfOk result (λ a. taken self.now a ≡ answer self.now bytes.now) }
        ensures undo { IfOk result (λ a. a ≡ Asked.Undo → IsTrue (is_undo bytes.now)) }
        ensures numbers { IfOk result (IsAskedOf self.now.universe) }
        ensures memory { OnErr result (IsFalse (takes_none self.now bytes.now)) }
    {
        if self.ended {
            return Ok(Asked::Tell(Reply::Ended));
        }
        let asked = asked_in(self.alloc, self.universe, &self.config, bytes)?;
        Ok(asked)
    }

    // Ends.
    fn quit(&mut self) -> Reply
        ensures { (result, self.new) ≡ taken self.old Asked.Quit }
    {
        self.ended = true;
        Reply::Bye
    }

    // Does the action where it is not refused, and keeps what it changed.
    fn perform(&mut self, a: &Action) -> Result<Reply, NoMemory>
        requires { IsOf self.old.universe a.now }
        ensures ok { IfOk result (λ r. (r, self.new) ≡ done self.old a.now) }
        ensures err { OnErr result (self.new ≡ self.old) }
    {
        self.config.keeps_invariant();
        let change = Change::of(&self.config, a)?;
        match apply(self.universe, &mut self.config, a) {
            Ok(()) => {
                self.earlier.keep(change, &mut self.config)?;
                Ok(Reply::Did)
            }
            Err(AFault::NoMemory) => Err(NoMemory),
            Err(fault) => Ok(Reply::Refused(fault)),
        }
    }

    // Does the action where it is not refused, and keeps nothing.
    fn perform_last(&mut self, a: &Action) -> Result<Reply, NoMemory>
        requires { IsOf self.old.universe a.now }
        ensures ok { IfOk result (λ r. unkept (r, self.new) ≡ unkept (done self.old a.now)) }
        ensures universe { self.new.universe ≡ self.old.universe }
    {
        self.config.keeps_invariant();
        self.earlier.forget();
        match apply(self.universe, &mut self.config, a) {
            Ok(()) => Ok(Reply::Did),
            Err(AFault::NoMemory) => Err(NoMemory),
            Err(fault) => Ok(Reply::Refused(fault)),
        }
    }

    // Goes back to the last configuration that is kept.
    fn undo(&mut self) -> Reply
        ensures { (result, self.new) ≡ undone self.old }
    {
        match self.earlier.take() {
            Some(change) => {
                change.undo(&mut self.config);
                Reply::Undone
            }
            None => Reply::Nothing,
        }
    }
}
