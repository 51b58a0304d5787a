//! Reads the text of an explanation.
ghost use Rattle.std.specs.Prelude.{◌≡◌, ◌<◌, ◌-◌, ◌^◌, IfOk, [], length};
ghost use Rattle.std.specs.List.{All};
ghost use Rattle.metis_ids.specs.Terms.{IfFault};
ghost use Rattle.metis_tokens.specs.Terms.{Reads, read_next};
ghost use Rattle.metis_universe.specs.Terms.{IsWordable};
ghost use Rattle.metis_why.specs.Terms.{IsTellable};
ghost use Rattle.metis_why_text.specs.Terms.{HasWhyFault, ReadsWhy, count_in, lacks_in, line_in, lines_from, why_bytes, why_in};
ghost use Rattle.metis_tokens.specs.declared.fault.TFault.TheVariants.{NoMemory};

use crate::said::{count_of, lacks_in, line_in};
use metis_ids::Goal;
use metis_tokens::cursor::{Cursor, read_exactly};
use metis_tokens::{TFault, tokens_of};
use metis_universe::Universe;
use metis_why::{Explanation, Line};
use std::alloc::Global;

/// The explanation that the bytes say, or their first fault. Whether its lines hold is not asked.
pub fn read_why(alloc: Global, u: &Universe, bytes: &[u8]) -> Result<Explanation, TFault>
    requires { length bytes.now < 2 ^ 32 - 1 }
    ensures read { ReadsWhy result (why_in u.now bytes.now) }
    ensures lacks { IfOk result (λ why. IsWordable u.now why.lacks) }
    ensures tellable { IfOk result (λ why. All (IsTellable u.now) why.lines.items) }

    // The bytes are the text of what is read.
    ensures text { IfOk result (λ why. bytes.now ≡ why_bytes u.now why.lacks why.lines.items) }

    // Each fault is that of the first line that is wrong, by what this line says, or of an end that is missing.
    ensures fault { IfFault NoMemory result (λ f. HasWhyFault u.now bytes.now f) }
{
    u.keeps_invariant();
    read_text(alloc, u, bytes)
}

fn read_text(alloc: Global, u: &Universe, bytes: &[u8]) -> Result<Explanation, TFault>
    requires { length bytes.now < 2 ^ 32 - 1 }
    ensures { ReadsWhy result (why_in u.now bytes.now) }
{
    let mut lines = Cursor::of(bytes);
    read_exactly("metis why 1", &mut lines)?;
    let lacks = read_lacks(alloc, u, &mut lines)?;
    let count = read_count(alloc, &mut lines)?;
    let said = read_lines(alloc, u, count, &mut lines)?;
    read_exactly("end", &mut lines)?;
    lines.ended()?;
    Ok(Explanation { lacks, lines: said })
}

fn read_lacks(alloc: Global, u: &Universe, lines: &mut Cursor<'_>) -> Result<Goal, TFault>
    ensures { Reads (λ g. g) result lines.new (read_next (lacks_in u.now) lines.old) }
{
    let line = lines.next_line()?;
    match lacks_in(alloc, u, line)? {
        Ok(goal) => Ok(goal),
        Err(flaw) => Err(flaw.at(lines.number())),
    }
}

fn read_count(alloc: Global, lines: &mut Cursor<'_>) -> Result<u32, TFault>
    ensures { Reads (λ n. n) result lines.new (read_next count_in lines.old) }
{
    let line = lines.next_line()?;
    let tokens = tokens_of(alloc, line)?;
    match count_of(&tokens) {
        Ok(count) => Ok(count),
        Err(flaw) => Err(flaw.at(lines.number())),
    }
}

// This many lines of an explanation.
fn read_lines(
    alloc: Global,
    u: &Universe,
    count: u32,
    lines: &mut Cursor<'_>,
) -> Result<Vec<Line>, TFault>
    ensures { Reads (λ said. said.items) result lines.new (lines_from u.now count [] lines.old) }
{
    let mut said = Vec::new(alloc);
    for _ in 0..count {
        let Line { pair, reason } = read_line(alloc, u, lines)?;
        said.push(Line { pair, reason })?;
    }
    Ok(said)
}

fn read_line(alloc: Global, u: &Universe, lines: &mut Cursor<'_>) -> Result<Line, TFault>
    ensures { Reads (λ l. l) result lines.new (read_next (line_in u.now) lines.old) }
{
    let line = lines.next_line()?;
    match line_in(alloc, u, line)? {
        Ok(line) => Ok(line),
        Err(flaw) => Err(flaw.at(lines.number())),
    }
}
