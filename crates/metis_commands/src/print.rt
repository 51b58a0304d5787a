//! The command that prints a universe.
ghost use Rattle.std.specs.Prelude.{IfOk};
ghost use Rattle.metis_commands.specs.Terms.{Printed};
ghost use Rattle.metis_output.specs.Terms.{Puts, Says};

use metis_ids::NoMemory;
use metis_output::{Answer, Lines, Once, Status, finish};
use metis_outside::Sink;
use metis_ujson::universe_line;
use metis_universe::Universe;
use std::alloc::Global;

/// Puts the universe in its canonical form.
#[tactic(auto, using(metis_output::proofs::Given::puts))]
pub fn put<K: Sink>(alloc: Global, u: &Universe, out: &mut K) -> Status
    ensures { Puts K.Sink (Printed u.now) out.old out.new result }
{
    finish(alloc, answer(alloc, u), out)
}

fn answer(alloc: Global, u: &Universe) -> Result<Answer<Once>, NoMemory>
    ensures { IfOk result (Says (Printed u.now) ⟦<Once as Lines>⟧.rest) }
{
    Ok(Answer {
        lines: universe_line(alloc, u)?,
        good: true,
    })
}
