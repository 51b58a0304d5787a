//! The command that tells when a plan's actions may start.
ghost use Rattle.std.specs.Prelude.{◌≡◌, ◌+◌, ◌<◌, ◌≤◌, ◌-◌, ◌^◌, IfOk, OnOk, drop, length, string_bytes};
ghost use Rattle.std.specs.List.{All, zip};
ghost use Rattle.metis_commands.specs.Waves.{Waved, chain_line, durations_of, end_lines, finish_line, schedule_lines, start_line};
ghost use Rattle.metis_output.specs.Terms.{Puts, Says};
ghost use Rattle.metis_tokens.specs.Terms.{numbered};
ghost use Rattle.metis_universe.specs.Terms.{IsOf};

use metis_ids::{Action, NoMemory};
use metis_inputs::UniverseAnd;
use metis_output::{Answer, Chain, Each, Either, LineAt, Lines, Once, Status, finish, set_text};
use metis_outside::Sink;
use metis_steady::{steady_waits, unsteady_answer};
use metis_text::PlanText;
use metis_tokens::push_numbers;
use metis_universe::Universe;
use metis_waves::{Durations, Waves, waves};
use std::alloc::{AllocError, Global};

// When actions may start, line by line: each action's starts, and then when all is done, with the chain.
type ScheduleLines = Chain<StartLines, Each<ScheduleEnd>>;

// The line that says why actions are no steadfast run, or when they may start.
type WaveLines = Either<Once, ScheduleLines>;

/// Puts the first action that cannot be done or is not steadfast, or else for each action its earliest and its latest start, by
/// durations of these numbers, and when all is done, with the chain of actions that takes as long.
#[tactic(auto, using(metis_output::proofs::Given::puts))]
pub fn put<K: Sink>(
    alloc: Global,
    read: &UniverseAnd<PlanText>,
    numbers: &[u32],
    out: &mut K,
) -> Status
    requires five { length numbers.now ≡ 5 }
    requires small { All (λ n. n ≤ 1000000) numbers.now }
    ensures { Puts K.Sink (Waved read.now.universe read.now.text.plan.actions numbers.now) out.old out.new result }
{
    let answer = answer(alloc, &read.universe, &read.text.plan.actions, numbers);
    finish(alloc, answer, out)
}

fn answer(
    alloc: Global,
    u: &Universe,
    actions: &[Action],
    numbers: &[u32],
) -> Result<Answer<WaveLines>, NoMemory>
    requires numbers { All (IsOf u.now) actions.now }
    requires few { length actions.now < 2 ^ 32 - 1 }
    requires five { length numbers.now ≡ 5 }
    requires small { All (λ n. n ≤ 1000000) numbers.now }
    ensures { IfOk result (Says (Waved u.now actions.now numbers.now) ⟦<WaveLines as Lines>⟧.rest) }
{
    match steady_waits(alloc, u, actions) {
        Ok(waits) => {
            let schedule = waves(alloc, actions, &waits, &durations_of(numbers))?;
            Ok(Answer {
                lines: Either::Second(schedule_lines(schedule)),
                good: true,
            })
        }
        Err(why) => unsteady_answer(alloc, u, &why),
    }
}

// How long actions take.
fn durations_of(numbers: &[u32]) -> Durations
    requires { length numbers.now ≡ 5 }
    ensures { result ≡ durations_of numbers.now }
{
    Durations {
        new_inst: numbers[0],
        delete: numbers[1],
        bind: numbers[2],
        unbind: numbers[3],
        move_to: numbers[4],
    }
}

// The starts of each action, when all is done, and the chain.
fn schedule_lines(schedule: Waves) -> ScheduleLines
    requires { length schedule.latest ≡ length schedule.earliest }
    ensures { ⟦<ScheduleLines as Lines>⟧.rest result ≡ schedule_lines schedule }
{
    let first = StartLines {
        earliest: schedule.earliest,
        latest: schedule.latest,
        at: 0,
    };
    let second = Each::of(ScheduleEnd {
        finish: schedule.finish,
        chain: schedule.chain,
    });
    Chain { first, second }
}

/// The earliest and the latest start of each action from a place on.
#[derive(Drop)]
pub struct StartLines {
    earliest: Vec<u64>,
    latest: Vec<u64>,
    at: usize,
    ghost paired: { length latest.items ≡ length earliest.items },
}

impl Lines for StartLines {
    ghost rest = { λ s. numbered start_line (s.at + 1) (zip (drop s.at s.earliest.items) (drop s.at s.latest.items)) };

    #[tactic(auto, using(crate::proofs::WaveLines::is_start_line))]
    fn next_line(&mut self, line: &mut String) -> Result<bool, AllocError> {
        if self.at >= self.earliest.len() {
            return Ok(false);
        }
        let (number, early, late) = (self.at + 1, self.earliest[self.at], self.latest[self.at]);
        line.clear();
        write!(line, "{number} at {early} to {late}\n")?;
        self.at += 1;
        Ok(true)
    }
}

/// The last two lines: when all is done, and the chain.
#[derive(Drop)]
pub struct ScheduleEnd {
    finish: u64,
    chain: Vec<u32>,
}

impl LineAt for ScheduleEnd {
    ghost lines = { λ e. end_lines e.finish e.chain.items };

    fn count(&self) -> usize {
        2
    }

    #[tactic(auto, using(crate::proofs::WaveLines::is_finish_line, crate::proofs::WaveLines::is_chain_line))]
    fn set_line(&self, place: usize, line: &mut String) -> Result<(), AllocError> {
        if place == 0 {
            set_finish(line, self.finish)
        } else {
            set_chain(line, &self.chain)
        }
    }
}

// The line becomes the one that says when all is done.
fn set_finish(line: &mut String, finish: u64) -> Result<(), AllocError>
    ensures { OnOk result (string_bytes line.new ≡ finish_line finish) }
{
    line.clear();
    write!(line, "finish {finish}\n")
}

// The line becomes that of the chain.
fn set_chain(line: &mut String, chain: &[u32]) -> Result<(), AllocError>
    ensures { OnOk result (string_bytes line.new ≡ chain_line chain.now) }
{
    set_text(line, "chain")?;
    push_numbers(line, chain)?;
    line.push_str("\n")
}
