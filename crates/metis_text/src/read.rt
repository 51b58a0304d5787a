//! Reads the text of a plan.
ghost use Rattle.std.specs.Prelude.{◌≡◌, ◌<◌, ◌-◌, ◌+◌, ◌^◌, ◌&&◌, IfOk, [], codes, length, map};
ghost use Rattle.std.specs.Str.{bytes_eq};
ghost use Rattle.metis_tokens.specs.Terms.{Reads, both, made, number_in, read_next};
ghost use Rattle.metis_text.specs.Terms.{HasPlanFault, IsTextOf, ReadsPlan, body_from, counted, counts_in, counts_of_tokens, dup_in, dup_row, dups_from, end_from, numbers_of, parts, plan_in, row_in, rows_from, rows_of};
ghost use Rattle.metis_ids.specs.Terms.{IfFault};
ghost use Rattle.metis_tokens.specs.declared.fault.TFault.TheVariants.{NoMemory};

use crate::action_line::row_in;
use crate::dup_line::dup_in;
use crate::plan_text::PlanText;
use crate::rows::Rows;
use metis_ids::{Action, Dup, Plan};
use metis_tokens::bytes::is;
use metis_tokens::cursor::{Cursor, read_exactly};
use metis_tokens::{Flaw, TFault, both, number_in, tokens_of};
use metis_universe::Universe;
use std::alloc::Global;

/// The numbers in the second line.
#[derive(Clone, Copy)]
pub struct Counts {
    pub instances: u32,
    pub actions: u32,
    pub dups: u32,
}

/// The plan that the bytes say, with the list behind each action, or their first fault.
pub fn read_plan(alloc: Global, u: &Universe, bytes: &[u8]) -> Result<PlanText, TFault>
    requires { length bytes.now < 2 ^ 32 - 1 }
    ensures read { ReadsPlan result (plan_in u.now bytes.now) }

    // The bytes are the text of what is read, and this is well formed.
    ensures text { IfOk result (λ t. IsTextOf u.now t bytes.now) }
    ensures fewer { IfOk result (λ t. length t.plan.actions < length bytes.now) }

    // Each fault is that of the first line that is not the one that is due, or of an end that is missing, or of the count.
    ensures fault { IfFault NoMemory result (λ f. HasPlanFault u.now bytes.now f) }
{
    read_text(alloc, u, bytes)
}

fn read_text(alloc: Global, u: &Universe, bytes: &[u8]) -> Result<PlanText, TFault>
    requires { length bytes.now < 2 ^ 32 - 1 }
    ensures { ReadsPlan result (plan_in u.now bytes.now) }
{
    let mut lines = Cursor::of(bytes);
    read_exactly("metis plan 1", &mut lines)?;
    let counts = read_counts(alloc, &mut lines)?;
    read_body(alloc, u, counts, &mut lines)
}

// What stands behind the second line.
fn read_body(
    alloc: Global,
    u: &Universe,
    counts: Counts,
    lines: &mut Cursor<'_>,
) -> Result<PlanText, TFault>
    ensures { ReadsPlan result (body_from u.now (numbers_of counts) lines.old) }
{
    let rows = read_rows(alloc, u, counts.actions, lines)?;
    let dups = read_dups(alloc, u, counts.dups, lines)?;
    read_end(counts.instances, rows, dups, lines)
}

// The last line, and nothing behind it.
fn read_end(
    instances: u32,
    rows: Rows,
    dups: Vec<Dup>,
    lines: &mut Cursor<'_>,
) -> Result<PlanText, TFault>
    ensures { ReadsPlan result (end_from (parts instances rows (map dup_row dups.items)) lines.old) }
{
    read_exactly("end", lines)?;
    lines.ended()?;
    counted(instances, rows, dups)
}

fn read_counts(alloc: Global, lines: &mut Cursor<'_>) -> Result<Counts, TFault>
    ensures { Reads numbers_of result lines.new (read_next counts_in lines.old) }
{
    let line = lines.next_line()?;
    let tokens = tokens_of(alloc, line)?;
    match counts_in(&tokens) {
        Ok(counts) => Ok(counts),
        Err(flaw) => Err(flaw.at(lines.number())),
    }
}

fn counts_in(tokens: &[&[u8]]) -> Result<Counts, Flaw>
    ensures { made numbers_of result ≡ counts_of_tokens (map (λ t. t.now) tokens.now) }
{
    match tokens {
        [i, instances, a, actions, d, dups] => {
            if has_words(i, a, d) {
                counts_of(instances, actions, dups)
            } else {
                Err(Flaw::Form)
            }
        }
        _ => Err(Flaw::Form),
    }
}

fn counts_of(instances: &[u8], actions: &[u8], dups: &[u8]) -> Result<Counts, Flaw>
    ensures { made numbers_of result ≡ both (number_in instances.now) (both (number_in actions.now) (number_in dups.now)) }
{
    let others = both(number_in(actions), number_in(dups));
    let (instances, (actions, dups)) = both(number_in(instances), others)?;
    Ok(Counts {
        instances,
        actions,
        dups,
    })
}

// Whether the words of the second line are there.
fn has_words(instances: &[u8], actions: &[u8], dups: &[u8]) -> bool
    ensures { result ≡ (bytes_eq instances.now (codes "instances") && bytes_eq actions.now (codes "actions") && bytes_eq dups.now (codes "dups")) }
{
    is(instances, "instances") && is(actions, "actions") && is(dups, "dups")
}

// The lines of this many actions.
fn read_rows<'a>(
    alloc: Global,
    u: &Universe,
    count: u32,
    lines: &mut Cursor<'a>,
) -> Result<Rows, TFault>
    ensures { Reads (λ rows. rows) result lines.new (rows_from u.now count (rows_of [] []) lines.old) }
{
    let mut rows = Rows::new(alloc);
    let mut tokens = Vec::new(alloc);
    for index in 0..count {
        let (action, after) = next_row(alloc, u, &rows, index + 1, lines, &mut tokens)?;
        rows = rows.add(action, after)?;
    }
    Ok(rows)
}

// The action of the next line, which has this number, with its list.
fn next_row<'a>(
    alloc: Global,
    u: &Universe,
    rows: &Rows,
    number: u32,
    lines: &mut Cursor<'a>,
    tokens: &mut Vec<&'a [u8]>,
) -> Result<(Action, Vec<u32>), TFault>
    requires { number ≡ length rows.now.actions + 1 }
    ensures { Reads (λ row. (row.0, row.1.items)) result lines.new (read_next (row_in u.now rows.now.actions) lines.old) }
{
    let line = lines.next_line()?;
    match row_in(alloc, u, rows, number, line, tokens)? {
        Ok(row) => Ok(row),
        Err(flaw) => Err(flaw.at(lines.number())),
    }
}

// The lines of this many dups.
fn read_dups(
    alloc: Global,
    u: &Universe,
    count: u32,
    lines: &mut Cursor<'_>,
) -> Result<Vec<Dup>, TFault>
    ensures { Reads (λ dups. map dup_row dups.items) result lines.new (dups_from u.now count [] lines.old) }
{
    let mut dups = Vec::new(alloc);
    for index in 0..count {
        dups.push(next_dup(alloc, u, index + 1, lines)?)?;
    }
    Ok(dups)
}

// The dup of the next line, which has this number.
fn next_dup(alloc: Global, u: &Universe, number: u32, lines: &mut Cursor<'_>) -> Result<Dup, TFault>
    ensures { Reads dup_row result lines.new (read_next (dup_in u.now number) lines.old) }
{
    let line = lines.next_line()?;
    match dup_in(alloc, u, number, line)? {
        Ok(dup) => Ok(dup),
        Err(flaw) => Err(flaw.at(lines.number())),
    }
}

// The instances are as many as the actions make.
fn counted(instances: u32, rows: Rows, dups: Vec<Dup>) -> Result<PlanText, TFault>
    ensures { ReadsPlan result (counted (parts instances rows (map dup_row dups.items))) }
{
    let made = rows
        .actions
        .iter()
        .filter(|action| matches!(action, Action::New { .. }))
        .count();
    if made != instances as usize {
        return Err(TFault::Line(2));
    }
    let plan = Plan {
        actions: rows.actions,
        dups,
        instances,
    };
    Ok(PlanText {
        plan,
        after: rows.after,
    })
}
