//! Reads the text of a refusal.
ghost use Rattle.std.specs.Prelude.{◌≡◌, ◌<◌, ◌-◌, ◌^◌, IfOk, [], length};
ghost use Rattle.metis_tokens.specs.Terms.{Reads, read_next};
ghost use Rattle.metis_text.specs.Terms.{HasRefusalFault, ReadsRefusal, lacks_in, pairs_from, refusal_bytes, refusal_in, size_in};
ghost use Rattle.metis_ids.specs.Terms.{IfFault};
ghost use Rattle.metis_universe.specs.Terms.{IsWordable, pair_count};
ghost use Rattle.metis_tokens.specs.declared.fault.TFault.TheVariants.{NoMemory};

use crate::refusal_lines::{lacks_of, next_pair_of, size_of};
use crate::refusal_text::Refusal;
use metis_ids::{Goal, PairSet};
use metis_tokens::cursor::{Cursor, read_exactly};
use metis_tokens::{TFault, tokens_of};
use metis_universe::Universe;
use std::alloc::Global;

/// The refusal that the bytes say, or their first fault.
pub fn read_refusal(alloc: Global, u: &Universe, bytes: &[u8]) -> Result<Refusal, TFault>
    requires { length bytes.now < 2 ^ 32 - 1 }
    ensures read { ReadsRefusal result (refusal_in u.now bytes.now) }
    ensures size { IfOk result (λ r. r.pairs.size ≡ pair_count u.now) }
    ensures lacks { IfOk result (λ r. IsWordable u.now r.lacks) }

    // The bytes are the text of what is read.
    ensures text { IfOk result (λ r. bytes.now ≡ refusal_bytes u.now r.pairs.members r.lacks) }

    // Each fault is that of the first line that is wrong, by what this line says, or of an end that is missing.
    ensures fault { IfFault NoMemory result (λ f. HasRefusalFault u.now bytes.now f) }
{
    u.keeps_invariant();
    read_text(alloc, u, bytes)
}

fn read_text(alloc: Global, u: &Universe, bytes: &[u8]) -> Result<Refusal, TFault>
    requires { length bytes.now < 2 ^ 32 - 1 }
    ensures read { ReadsRefusal result (refusal_in u.now bytes.now) }
    ensures size { IfOk result (λ r. r.pairs.size ≡ pair_count u.now) }
{
    let mut lines = Cursor::of(bytes);
    read_exactly("metis refusal 1", &mut lines)?;
    let lacks = read_lacks(alloc, u, &mut lines)?;
    let size = read_size(alloc, &mut lines)?;
    let pairs = read_pairs(alloc, u, size, &mut lines)?;
    read_exactly("end", &mut lines)?;
    lines.ended()?;
    Ok(Refusal { lacks, pairs })
}

fn read_lacks(alloc: Global, u: &Universe, lines: &mut Cursor<'_>) -> Result<Goal, TFault>
    ensures { Reads (λ g. g) result lines.new (read_next (lacks_in u.now) lines.old) }
{
    let line = lines.next_line()?;
    let tokens = tokens_of(alloc, line)?;
    match lacks_of(u, &tokens) {
        Ok(goal) => Ok(goal),
        Err(flaw) => Err(flaw.at(lines.number())),
    }
}

fn read_size(alloc: Global, lines: &mut Cursor<'_>) -> Result<u32, TFault>
    ensures { Reads (λ n. n) result lines.new (read_next size_in lines.old) }
{
    let line = lines.next_line()?;
    let tokens = tokens_of(alloc, line)?;
    match size_of(&tokens) {
        Ok(size) => Ok(size),
        Err(flaw) => Err(flaw.at(lines.number())),
    }
}

// A set of so many pairs.
fn read_pairs(
    alloc: Global,
    u: &Universe,
    count: u32,
    lines: &mut Cursor<'_>,
) -> Result<PairSet, TFault>
    ensures read { Reads (λ set. set.members) result lines.new (pairs_from u.now count [] lines.old) }
    ensures size { IfOk result (λ set. set.size ≡ pair_count u.now) }
{
    let mut pairs = PairSet::with_pairs(alloc, u.pairs())?;
    let mut last = None;
    for _ in 0..count {
        let line = lines.next_line()?;
        let tokens = tokens_of(alloc, line)?;
        match next_pair_of(u, last, &tokens) {
            Ok(pair) => {
                pairs.add(pair);
                last = Some(pair);
            }
            Err(flaw) => return Err(flaw.at(lines.number())),
        }
    }
    Ok(pairs)
}
