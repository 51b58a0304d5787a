//! The command that audits the dups of a plan.
ghost use Rattle.std.specs.Prelude.{◌≡◌, ◌<◌, ◌≤◌, ◌-◌, ◌^◌, ◌∷◌, [], IfOk, codes, false, length, string_bytes};
ghost use Rattle.std.specs.List.{All};
ghost use Rattle.metis_commands.specs.Terms.{Audited, AuditedFor, NamesPairOf, audit_line, word_line};
ghost use Rattle.metis_output.specs.Terms.{Puts, Says};
ghost use Rattle.metis_text.specs.Terms.{IsWellFormed, lists_of};
ghost use Rattle.metis_universe.specs.Terms.{IsGoalOf, IsWordable, goal_word, pair_count};

use crate::goal_line::goal_line;
use metis_audit::{Answer as AuditAnswer, audit};
use metis_choice::{Resolved, pairs_for_goals_hold_them, resolve_goals};
use metis_ids::{Goal, NoMemory, PairIx, Plan};
use metis_inputs::GoalsAnd;
use metis_output::{Answer, Lines, Once, Status, finish, line_answer, number_line};
use metis_outside::Sink;
use metis_text::PlanText;
use metis_universe::Universe;
use std::alloc::{AllocError, Global};

/// Puts whether the plan's instances are the life lines for the goals and its dups, each of these forced by its cycle.
#[tactic(auto, using(metis_output::proofs::Given::puts))]
pub fn put<K: Sink>(alloc: Global, read: &GoalsAnd<PlanText>, out: &mut K) -> Status
    ensures { let text = read.now.text in
        Puts K.Sink (Audited read.now.asked.universe read.now.asked.goals.items text.plan (lists_of text)) out.old out.new result }
{
    let (u, goals) = (&read.asked.universe, &read.asked.goals);
    finish(alloc, answer(alloc, u, &read.text, goals), out)
}

fn answer(
    alloc: Global,
    u: &Universe,
    text: &PlanText,
    goals: &[Goal],
) -> Result<Answer<Once>, NoMemory>
    requires few { length goals.now ≤ 256 }
    requires within { All (IsGoalOf u.now) goals.now }
    requires wordable { All (IsWordable u.now) goals.now }
    requires formed { IsWellFormed u.now text.now.plan (lists_of text.now) }
    requires few_actions { length text.now.plan.actions < 2 ^ 32 - 1 }
    ensures { IfOk result (Says (Audited u.now goals.now text.now.plan (lists_of text.now)) ⟦<Once as Lines>⟧.rest) }
{
    u.keeps_invariant();
    pairs_for_goals_hold_them();
    let (resolved, _layers) = resolve_goals(alloc, u, goals)?;
    match resolved {
        Resolved::Pairs(pairs) => audited(alloc, u, text, &pairs),
        Resolved::Lacks(lacks) => not_attained(alloc, u, lacks),
    }
}

// The audit of a plan for the pairs that were found for the goals.
fn audited(
    alloc: Global,
    u: &Universe,
    text: &PlanText,
    pairs: &[PairIx],
) -> Result<Answer<Once>, NoMemory>
    requires within { All (λ p. p < pair_count u.now) pairs.now }
    requires few { length pairs.now ≤ 256 }
    requires formed { IsWellFormed u.now text.now.plan (lists_of text.now) }
    requires few_actions { length text.now.plan.actions < 2 ^ 32 - 1 }
    ensures { IfOk result (Says (AuditedFor u.now pairs.now text.now.plan (lists_of text.now)) ⟦<Once as Lines>⟧.rest) }
{
    u.keeps_invariant();
    let answer = audit(alloc, u, text, pairs)?;
    let line = audit_line(alloc, u, &text.plan, &answer)?;
    Ok(line_answer(line, matches!(answer, AuditAnswer::Justified)))
}

// The answer that nothing attains this goal.
fn not_attained(alloc: Global, u: &Universe, lacks: Goal) -> Result<Answer<Once>, NoMemory>
    requires { IsGoalOf u.now lacks }
    ensures { IfOk result (λ a. (a.lines ≡ word_line (codes "notattained") (goal_word u.now lacks) ∷ []) × (a.good ≡ false)) }
{
    u.keeps_invariant();
    let line = goal_line(alloc, u, "notattained", lacks)?;
    Ok(line_answer(line, false))
}

// The line of an answer on the plan.
fn audit_line(
    alloc: Global,
    u: &Universe,
    plan: &Plan,
    answer: &AuditAnswer,
) -> Result<String, AllocError>
    requires { NamesPairOf u.now answer.now }
    ensures { IfOk result (λ line. string_bytes line ≡ audit_line u.now plan.now answer.now) }
{
    match *answer {
        AuditAnswer::Justified => {
            let (instances, dups) = (plan.instances, plan.dups.len());
            format!(in alloc; "justified instances {instances} dups {dups}\n")
        }
        AuditAnswer::NotAttained(p) => goal_line(alloc, u, "notattained", Goal::Pair(p)),
        AuditAnswer::NoCycle(number) => number_line(alloc, "nocycle", number),
        AuditAnswer::Count(have, want) => format!(in alloc; "count have {have} want {want}\n"),
        AuditAnswer::Path(line) => number_line(alloc, "path", line),
        AuditAnswer::Loose(number) => number_line(alloc, "loose", number),
        AuditAnswer::After(number) => number_line(alloc, "after", number),
    }
}
