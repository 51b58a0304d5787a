//! The whole program, over the words, the files and the output that it is handed.
ghost use Rattle.std.specs.Prelude.{◌≡◌, ◌⊎◌};
ghost use Rattle.std.specs.Process.{exit_status};
ghost use Rattle.metis_output.specs.Terms.{code_of};
ghost use Rattle.metis_top.specs.Terms.{IsRun};

use crate::top::run;
use metis_output::Status;
use metis_outside::{Arguments, Shelf, Sink, words_given};
use std::alloc::Global;
use std::process::ExitCode;

/// Runs over the words that were given, and answers the exit code: that of the run's status. Where memory runs out
/// before the words are read, nothing is done, and the code is that of want of memory.
pub fn exit_code<A: Arguments, H: Shelf, K: Sink>(
    alloc: Global,
    arguments: &A,
    shelf: &mut H,
    out: &mut K,
) -> ExitCode
    ensures { IsRun (A.words arguments.now) H.files H.faults H.opens K.written K.faults shelf.old shelf.new out.old out.new result
        ⊎ ((exit_status result ≡ code_of Status.NoMemory) × (shelf.new ≡ shelf.old) × (out.new ≡ out.old)) }
{
    match words_given(alloc, arguments) {
        Ok(words) => ExitCode::from(run(alloc, &words, shelf, out).code()),
        Err(_) => ExitCode::from(Status::NoMemory.code()),
    }
}
