//! The lines of the text.
ghost use Rattle.std.specs.Prelude.{◌≡◌, ◌<◌, ◌++◌, ◌∷◌, [], OnOk, codes, decimal, map, string_bytes};
ghost use Rattle.metis_universe.specs.Terms.{IsOf, pair_count};
ghost use Rattle.metis_tokens.specs.Terms.{added, words};
ghost use Rattle.metis_text.specs.Terms.{action_line, action_tokens, after_tokens, counts_line, dup_line, dup_tokens, event_token};

use metis_ids::{Action, Dup, Event, Ix, PairIx};
use metis_tokens::push_numbers;
use metis_universe::Universe;
use std::alloc::AllocError;

/// The line becomes that of a plan's counts.
pub fn set_counts(
    line: &mut String,
    instances: u32,
    count: usize,
    dups: usize,
) -> Result<(), AllocError>
    ensures { OnOk result (string_bytes line.new ≡ counts_line instances count dups) }
{
    line.clear();
    write!(line, "instances {instances} actions {count} dups {dups}\n")
}

/// The line becomes that of the action that has this number and waits for those.
pub fn set_action_line(
    line: &mut String,
    u: &Universe,
    number: u32,
    action: &Action,
    after: &[u32],
) -> Result<(), AllocError>
    requires { IsOf u.now action.now }
    ensures { OnOk result (string_bytes line.new ≡ action_line u.now number (action.now, after.now)) }
{
    line.clear();
    push_action(line, u, number, action)?;
    push_after(line, after)?;
    line.push_str("\n")?;
    Ok(())
}

fn push_action(
    line: &mut String,
    u: &Universe,
    number: u32,
    action: &Action,
) -> Result<(), AllocError>
    requires { IsOf u.now action.now }
    ensures { OnOk result (string_bytes line.new ≡ string_bytes line.old ++ words (decimal number ∷ action_tokens u.now action.now)) }
{
    match *action {
        Action::New { inst, kind } => push_new(line, number, inst.number(), u.type_name(kind)),
        Action::Delete { inst } => push_delete(line, number, inst.number()),
        Action::Bind { port, inst, to } => {
            let port = u.port_name(port);
            push_tie(line, number, "bind", port, inst.number(), to.number())
        }
        Action::Unbind { port, inst, to } => {
            let port = u.port_name(port);
            push_tie(line, number, "unbind", port, inst.number(), to.number())
        }
        Action::Move { inst, from, to } => {
            let (from, to) = (u.state_name(from), u.state_name(to));
            push_move(line, number, inst.number(), from, to)
        }
    }
}

fn push_new(line: &mut String, number: u32, z: u32, kind: &str) -> Result<(), AllocError>
    ensures { OnOk result (string_bytes line.new ≡ string_bytes line.old ++ words (decimal number ∷ codes "new" ∷ decimal z ∷ kind.now ∷ [])) }
{
    write!(line, "{number} new {z} {kind}")
}

fn push_delete(line: &mut String, number: u32, z: u32) -> Result<(), AllocError>
    ensures { OnOk result (string_bytes line.new ≡ string_bytes line.old ++ words (decimal number ∷ codes "delete" ∷ decimal z ∷ [])) }
{
    write!(line, "{number} delete {z}")
}

fn push_tie(
    line: &mut String,
    number: u32,
    verb: &str,
    port: &str,
    z: u32,
    y: u32,
) -> Result<(), AllocError>
    ensures { OnOk result (string_bytes line.new ≡ string_bytes line.old ++ words (decimal number ∷ verb.now ∷ port.now ∷ decimal z ∷ decimal y ∷ [])) }
{
    write!(line, "{number} {verb} {port} {z} {y}")
}

fn push_move(line: &mut String, number: u32, z: u32, from: &str, to: &str) -> Result<(), AllocError>
    ensures { OnOk result (string_bytes line.new ≡ string_bytes line.old ++ words (decimal number ∷ codes "move" ∷ decimal z ∷ from.now ∷ to.now ∷ [])) }
{
    write!(line, "{number} move {z} {from} {to}")
}

fn push_after(line: &mut String, after: &[u32]) -> Result<(), AllocError>
    ensures { OnOk result (string_bytes line.new ≡ string_bytes line.old ++ added (after_tokens after.now)) }
{
    if after.is_empty() {
        return Ok(());
    }
    line.push_str(" after")?;
    push_numbers(line, after)
}

/// The line becomes that of the dup that has this number.
pub fn set_dup_line(
    line: &mut String,
    u: &Universe,
    number: usize,
    dup: &Dup,
) -> Result<(), AllocError>
    requires { dup.now.pair < pair_count u.now }
    ensures { OnOk result (string_bytes line.new ≡ dup_line u.now number dup.now) }
{
    line.clear();
    push_dup(line, u, number, dup.pair)?;
    push_events(line, &dup.cycle)?;
    line.push_str("\n")?;
    Ok(())
}

fn push_dup(line: &mut String, u: &Universe, number: usize, pair: PairIx) -> Result<(), AllocError>
    requires { pair < pair_count u.now }
    ensures { OnOk result (string_bytes line.new ≡ string_bytes line.old ++ words (dup_tokens u.now number pair)) }
{
    push_cycle(
        line,
        number,
        u.type_name(u.type_of(pair)),
        u.state_name(pair),
    )
}

fn push_cycle(line: &mut String, number: usize, kind: &str, state: &str) -> Result<(), AllocError>
    ensures { OnOk result (string_bytes line.new ≡ string_bytes line.old ++ words (codes "dup" ∷ decimal number ∷ (kind.now ++ (codes ":" ++ state.now)) ∷ codes "cycle" ∷ [])) }
{
    write!(line, "dup {number} {kind}:{state} cycle")
}

fn push_events(line: &mut String, cycle: &[Event]) -> Result<(), AllocError>
    ensures { OnOk result (string_bytes line.new ≡ string_bytes line.old ++ added (map event_token cycle.now)) }
{
    for event in cycle {
        push_event(line, event)?;
    }
    Ok(())
}

fn push_event(line: &mut String, event: &Event) -> Result<(), AllocError>
    ensures { OnOk result (string_bytes line.new ≡ string_bytes line.old ++ (codes " " ++ event_token event.now)) }
{
    match *event {
        Event::At(life, step) => push_at(line, life.number(), step.number()),
        Event::End => line.push_str(" end"),
    }
}

fn push_at(line: &mut String, life: u32, step: u32) -> Result<(), AllocError>
    ensures { OnOk result (string_bytes line.new ≡ string_bytes line.old ++ (codes " " ++ (decimal life ++ (codes "." ++ decimal step)))) }
{
    write!(line, " {life}.{step}")
}
