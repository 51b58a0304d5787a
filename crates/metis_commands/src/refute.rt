//! The command that checks a refusal.
ghost use Rattle.std.specs.Prelude.{◌≡◌, IfOk, string_bytes};
ghost use Rattle.std.specs.List.{All};
ghost use Rattle.metis_commands.specs.Terms.{Judged, judgement_line};
ghost use Rattle.metis_output.specs.Terms.{Puts, Says};
ghost use Rattle.metis_refusal.specs.Terms.{NamesOf};
ghost use Rattle.metis_universe.specs.Terms.{IsGoalOf, pair_count};

use crate::goal_line::goal_line;
use metis_ids::{Goal, NoMemory, PairSet};
use metis_inputs::GoalsAnd;
use metis_output::{Answer, Lines, Once, Status, finish, line_answer};
use metis_outside::Sink;
use metis_refusal::{Verdict2, check_closed};
use metis_text::Refusal;
use metis_universe::Universe;
use std::alloc::{AllocError, Global};

/// Puts what the set of pairs comes to as a refusal of the goals.
#[tactic(auto, using(metis_output::proofs::Given::puts))]
pub fn put<K: Sink>(alloc: Global, read: &GoalsAnd<Refusal>, out: &mut K) -> Status
    ensures { Puts K.Sink (Judged read.now.asked.universe read.now.asked.goals.items read.now.text.pairs.members) out.old out.new result }
{
    let (u, goals) = (&read.asked.universe, &read.asked.goals);
    finish(alloc, answer(alloc, u, &read.text.pairs, goals), out)
}

fn answer(
    alloc: Global,
    u: &Universe,
    set: &PairSet,
    goals: &[Goal],
) -> Result<Answer<Once>, NoMemory>
    requires size { set.now.size ≡ pair_count u.now }
    requires within { All (IsGoalOf u.now) goals.now }
    ensures { IfOk result (Says (Judged u.now goals.now set.now.members) ⟦<Once as Lines>⟧.rest) }
{
    u.keeps_invariant();
    let judgement = check_closed(u, set, goals);
    let line = judgement_line(alloc, u, &judgement)?;
    Ok(line_answer(line, matches!(judgement, Verdict2::Closed(_))))
}

// The line of a verdict on a set of pairs.
fn judgement_line(alloc: Global, u: &Universe, judgement: &Verdict2) -> Result<String, AllocError>
    requires { NamesOf u.now judgement.now }
    ensures { IfOk result (λ line. string_bytes line ≡ judgement_line u.now judgement.now) }
{
    match *judgement {
        Verdict2::Closed(goal) => goal_line(alloc, u, "closed lacks", goal),
        Verdict2::NotFree(p) => goal_line(alloc, u, "notfree", Goal::Pair(p)),
        Verdict2::Open(p, q) => {
            let (kind, state) = (u.type_name(u.type_of(p)), u.state_name(p));
            let (to_kind, to_state) = (u.type_name(u.type_of(q)), u.state_name(q));
            format!(in alloc; "open {kind}:{state} {to_kind}:{to_state}\n")
        }
        Verdict2::LacksNone => String::from_str(alloc, "lacksnone\n"),
    }
}
