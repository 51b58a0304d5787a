//! Writes what `why` answers.
ghost use Rattle.std.specs.Prelude.{IfOk};
ghost use Rattle.std.specs.List.{All};
ghost use Rattle.metis_universe.specs.Terms.{IsGoalOf};
ghost use Rattle.metis_why.specs.Terms.{IsLineOf};

use crate::lists::put;
use crate::stop::Stop;
use metis_ids::Goal;
use metis_universe::Universe;
use metis_why::{Because, Confirmation, Line, Reason, confirm, why};
use std::alloc::Global;

/// Writes what keeps the goal from being attained that the word asks for, line by line.
pub fn write_reasons(
    alloc: Global,
    text: &mut String,
    u: &Universe,
    word: &str,
) -> Result<(), Stop> {
    let goal = goal_in(u, word)?;
    match why(alloc, u, &goal)? {
        Because::Attained => put(text, "attained\n"),
        Because::Lines(lines) => {
            write_all(text, u, &lines)?;
            write_confirmation(text, u, &lines, goal)
        }
    }
}

/// Writes how many lines there are.
pub fn write_reason_count(
    alloc: Global,
    text: &mut String,
    u: &Universe,
    word: &str,
) -> Result<(), Stop> {
    let goal = goal_in(u, word)?;
    match why(alloc, u, &goal)? {
        Because::Attained => put(text, "attained\n"),
        Because::Lines(lines) => {
            write_count(text, lines.len())?;
            write_confirmation(text, u, &lines, goal)
        }
    }
}

fn write_count(text: &mut String, count: usize) -> Result<(), Stop> {
    write!(text, "lines {count}\n")?;
    Ok(())
}

// The goal that the word asks for.
fn goal_in(u: &Universe, word: &str) -> Result<Goal, Stop>
    ensures { IfOk result (IsGoalOf u.now) }
{
    match word.split_once(':') {
        Some((kind, name)) => u.goal_named(kind, name).ok_or(Stop::NoProbe),
        None => Err(Stop::NoProbe),
    }
}

fn write_all(text: &mut String, u: &Universe, lines: &[Line]) -> Result<(), Stop>
    requires { All (IsLineOf u.now) lines.now }
{
    for line in lines {
        write_reason(text, u, line)?;
    }
    Ok(())
}

fn write_reason(text: &mut String, u: &Universe, line: &Line) -> Result<(), Stop>
    requires { IsLineOf u.now line.now }
{
    write_pair(
        text,
        u.type_name(u.type_of(line.pair)),
        u.state_name(line.pair),
    )?;
    match line.reason {
        Reason::Needs(port) => write_need(text, u.port_name(port)),
        Reason::Comes => put(text, " comes\n"),
    }
}

fn write_pair(text: &mut String, kind: &str, state: &str) -> Result<(), Stop> {
    write!(text, "{kind}:{state}")?;
    Ok(())
}

fn write_need(text: &mut String, port: &str) -> Result<(), Stop> {
    write!(text, " needs {port}\n")?;
    Ok(())
}

fn write_confirmation(
    text: &mut String,
    u: &Universe,
    lines: &[Line],
    goal: Goal,
) -> Result<(), Stop>
    requires lines { All (IsLineOf u.now) lines.now }
    requires goal { IsGoalOf u.now goal }
{
    match confirm(u, lines, &[goal]) {
        Confirmation::Confirmed(_) => put(text, "confirmed\n"),
        Confirmation::Unfounded(place) => write_unfounded(text, place),
        Confirmation::LacksNone => put(text, "lacks none\n"),
    }
}

fn write_unfounded(text: &mut String, place: usize) -> Result<(), Stop> {
    write!(text, "unfounded {place}\n")?;
    Ok(())
}
