//! The run over what ships, where it tells its bytes, and over files and output in memory.
ghost use Rattle.std.specs.Prelude.{IfSome};
ghost use Rattle.metis_inputs.specs.Terms.{script_of};
ghost use Rattle.metis_top.specs.Terms.{HeadlineInBytes, IsCalm, Ran, Undisturbed};
ghost use Rattle.metis_universe.specs.Terms.{texts};

use crate::top::run;
use metis_output::Status;
use metis_outside::{CalmShelf, CalmSink, Disk, DiskShelf, Shelf, Sink, StdSink};
use std::alloc::Global;
use std::io::Write;

/// The run of the program over the adapters that ship: the files of any disk that tells their bytes, and any writer that tells its
/// own. It does what the run does, the headline holds, and it is bytes that the writer gets: those of the lines, one behind the other,
/// and no others.
pub fn headline_over_adapters<'a, D: Disk, W: Write + Drop>(
    alloc: Global,
    words: &[String],
    shelf: &mut DiskShelf<'a, D>,
    out: &mut StdSink<W>,
) -> Status
    ensures course { Ran ⟦<DiskShelf<'a, D> as Shelf>⟧.files ⟦<DiskShelf<'a, D> as Shelf>⟧.faults ⟦<DiskShelf<'a, D> as Shelf>⟧.opens
        ⟦<StdSink<W> as Sink>⟧.written ⟦<StdSink<W> as Sink>⟧.faults (script_of (texts words.now)) shelf.old shelf.new out.old out.new result }
    ensures headline { IfSome (W.contents out.old.writer) (λ before.
        Undisturbed (⟦<DiskShelf<'a, D> as Shelf>⟧.files shelf.old) (⟦<DiskShelf<'a, D> as Shelf>⟧.faults shelf.old) (⟦<DiskShelf<'a, D> as Shelf>⟧.faults shelf.new)
        (⟦<StdSink<W> as Sink>⟧.faults out.old) (⟦<StdSink<W> as Sink>⟧.faults out.new) result
        (λ file. HeadlineInBytes (texts words.now) file before (W.contents out.new.writer) result)) }
{
    run(alloc, words, shelf, out)
}

/// The run over files and output in memory, of which no call fails: what it puts is what the run does, and it ends with an answer, at
/// words or files that are not accepted, or where memory runs out.
pub fn run_in_memory(
    alloc: Global,
    words: &[String],
    shelf: &mut CalmShelf,
    out: &mut CalmSink,
) -> Status
    ensures course { Ran ⟦<CalmShelf as Shelf>⟧.files ⟦<CalmShelf as Shelf>⟧.faults ⟦<CalmShelf as Shelf>⟧.opens
        ⟦<CalmSink as Sink>⟧.written ⟦<CalmSink as Sink>⟧.faults (script_of (texts words.now)) shelf.old shelf.new out.old out.new result }
    ensures calm { IsCalm result }
{
    run(alloc, words, shelf, out)
}
