//! The text of a plan, line by line.
ghost use Rattle.std.specs.Prelude.{◌≡◌, ◌<◌, ◌≤◌, ◌+◌, ◌∷◌, [], ◌^◌, drop, length, map};
ghost use Rattle.std.specs.List.{All};
ghost use Rattle.metis_outside.specs.Terms.{CountsFault, Writes};
ghost use Rattle.metis_output.specs.Terms.{PutsByLine};
ghost use Rattle.metis_tokens.specs.Terms.{numbered};
ghost use Rattle.metis_universe.specs.Terms.{IsOf, numbers, pair_count};
ghost use Rattle.metis_waits.specs.Terms.{AreWaits, list_of, waits_on_others};
ghost use Rattle.metis_text.specs.PlanText.{IsListed, actions_left, counts_line, dup_line, plan_front, plan_header, plan_lines};

use crate::lines::{set_action_line, set_counts, set_dup_line};
use metis_ids::{Action, Dup, Plan};
use metis_output::{Chain, Each, Fixed, LineAt, Lines, put_all, set_text};
use metis_outside::{Sink, Trouble};
use metis_universe::Universe;
use metis_waits::Waits;
use std::alloc::{AllocError, Global};
use std::marker::Model;

/// Puts the text of the plan, each line as one piece. Behind each action stand the numbers of the other actions that it waits
/// for, without its own instance's previous one.
#[tactic(auto, using(metis_output::proofs::PutLines::puts_none, metis_outside::proofs::Writing::front_of_nothing))]
pub fn write_plan<K: Sink>(
    alloc: Global,
    u: &Universe,
    p: &Plan,
    w: &Waits,
    out: &mut K,
) -> Result<(), Trouble>
    requires actions { All (IsOf u.now) p.now.actions }
    requires dups { All (λ d. d.pair < pair_count u.now) p.now.dups }
    requires waits { AreWaits p.now.actions w.now }
    requires few { length p.now.actions < 2 ^ 32 }
    ensures text { Writes (plan_lines u.now p.now (map (waits_on_others p.now.actions) (numbers p.now.actions))) (K.written out.old) (K.written out.new) result }
    ensures lines { PutsByLine (K.written out.old) (K.written out.new) result }
    ensures cause { CountsFault (K.faults out.old) (K.faults out.new) result }
{
    let mut lines = lines_of_plan(u, p, w);
    put_all(alloc, &mut lines, out)
}

/// The lines of the text of the plan, in which each action waits for these.
pub fn lines_of_plan<'a>(u: &'a Universe, p: &'a Plan, w: &'a Waits) -> PlanLines<'a>
    requires actions { All (IsOf u.now) p.now.actions }
    requires dups { All (λ d. d.pair < pair_count u.now) p.now.dups }
    requires waits { AreWaits p.now.actions w.now }
    requires few { length p.now.actions < 2 ^ 32 }
    ensures { result ≡ plan_lines u.now p.now (map (waits_on_others p.now.actions) (numbers p.now.actions)) }
{
    let dups = DupLines {
        universe: u,
        dups: &p.dups,
        at: 0,
    };
    let behind = Chain {
        first: dups,
        second: Fixed::of("end\n"),
    };
    let actions = Chain {
        first: ActionLines::of(u, &p.actions, w),
        second: behind,
    };
    PlanLines {
        text: Chain {
            first: Each::of(PlanFront::of(p)),
            second: actions,
        },
    }
}

/// The lines of a plan's text that are still to come. Contracts see them.
#[derive(Drop)]
pub struct PlanLines<'a> {
    text: PlanParts<'a>,
}

type PlanParts<'a> = Chain<Each<PlanFront>, Chain<ActionLines<'a>, Chain<DupLines<'a>, Fixed>>>;

impl<'a> Model for PlanLines<'a> {
    ghost use Rattle.std.specs.Prelude.{ℕ, List};

    ghost Value = { List (List ℕ) };

    ghost view = { λ l. ⟦<PlanParts<'static> as Lines>⟧.rest l.text };
}

impl<'a> Lines for PlanLines<'a> {
    ghost rest = { λ l. l };

    fn next_line(&mut self, line: &mut String) -> Result<bool, AllocError> {
        self.text.next_line(line)
    }
}

// The first two lines of a plan's text.
#[derive(Drop)]
struct PlanFront {
    instances: u32,
    actions: usize,
    dups: usize,
}

impl PlanFront {
    // Those of this plan.
    fn of(p: &Plan) -> PlanFront
        ensures { ⟦<PlanFront as LineAt>⟧.lines result ≡ plan_front p.now }
    {
        PlanFront {
            instances: p.instances,
            actions: p.actions.len(),
            dups: p.dups.len(),
        }
    }
}

impl LineAt for PlanFront {
    ghost lines = { λ f. plan_header ∷ counts_line f.instances f.actions f.dups ∷ [] };

    fn count(&self) -> usize {
        2
    }

    fn set_line(&self, place: usize, line: &mut String) -> Result<(), AllocError> {
        if place == 0 {
            set_text(line, "metis plan 1\n")
        } else {
            set_counts(line, self.instances, self.actions, self.dups)
        }
    }
}

// The lines of a plan's actions that are still to come. Contracts see the lines.
#[derive(Drop)]
struct ActionLines<'a> {
    universe: &'a Universe,
    actions: &'a [Action],
    waits: &'a Waits,
    at: usize,
}

impl<'a> Model for ActionLines<'a> {
    ghost use Rattle.std.specs.Prelude.{ℕ, List};
    ghost use Rattle.metis_text.specs.PlanText.{IsListed, actions_left};

    ghost Value = { List (List ℕ) };

    ghost view = { λ l. actions_left l.universe.now l.actions.now l.waits.now.others l.at };

    ghost invariant = { λ l. IsListed l.universe.now l.actions.now l.waits.now };
}

impl<'a> ActionLines<'a> {
    /// The lines of all these actions, which wait for these.
    fn of(universe: &'a Universe, actions: &'a [Action], waits: &'a Waits) -> ActionLines<'a>
        requires { IsListed universe.now actions.now waits.now }
        ensures { result ≡ actions_left universe.now actions.now waits.now.others 0 }
    {
        ActionLines {
            universe,
            actions,
            waits,
            at: 0,
        }
    }
}

impl<'a> Lines for ActionLines<'a> {
    ghost rest = { λ l. l };

    fn next_line(&mut self, line: &mut String) -> Result<bool, AllocError> {
        self.universe.keeps_invariant();
        if self.at >= self.actions.len() {
            return Ok(false);
        }
        let (actions, waits) = (self.actions, self.waits);
        let number = self.at as u32 + 1;
        let after = listed(waits, number);
        set_action_line(line, self.universe, number, &actions[self.at], after)?;
        self.at += 1;
        Ok(true)
    }
}

// The numbers behind an action: what it waits for, without its own instance's previous one.
fn listed(waits: &Waits, number: u32) -> &[u32]
    requires first { 1 ≤ number }
    requires last { number ≤ length waits.now.each }
    ensures { result.now ≡ list_of waits.now.others number }
{
    waits.after(number)
}

// The lines of a plan's dups from a place on.
#[derive(Drop)]
struct DupLines<'a> {
    universe: &'a Universe,
    dups: &'a [Dup],
    at: usize,
    ghost within: { All (λ d. d.pair < pair_count universe.now) dups.now },
}

impl<'a> Lines for DupLines<'a> {
    ghost rest = { λ l. numbered (dup_line l.universe.now) (l.at + 1) (drop l.at l.dups.now) };

    fn next_line(&mut self, line: &mut String) -> Result<bool, AllocError> {
        self.universe.keeps_invariant();
        if self.at >= self.dups.len() {
            return Ok(false);
        }
        let dups = self.dups;
        set_dup_line(line, self.universe, self.at + 1, &dups[self.at])?;
        self.at += 1;
        Ok(true)
    }
}
