//! The top call.
ghost use Rattle.std.specs.Prelude.{◌≡◌};
ghost use Rattle.metis_outside.specs.Terms.{Rose};
ghost use Rattle.metis_inputs.specs.Terms.{script_of};
ghost use Rattle.metis_top.specs.Terms.{Headline, IsThePlan, OpensFiles, PlansHave, Ran, Tells, TellsReadFault, Undisturbed};
ghost use Rattle.metis_output.specs.Terms.{IsVerdict, PutsLines};
ghost use Rattle.metis_words.specs.Terms.{form_of};
ghost use Rattle.metis_universe.specs.Terms.{texts};

use crate::commands::perform;
use crate::stop::end;
use metis_inputs::Stop;
use metis_output::Status;
use metis_outside::{Shelf, Sink};
use metis_waits::{complete_order_ends_alike, kept_order_is_a_run, own_order_is_kept};
use metis_words::read_words;
use std::alloc::Global;

/// Does all that the program does: reads the words and the files that they name, and puts the answer.
pub fn run<H: Shelf, K: Sink>(alloc: Global, words: &[String], shelf: &mut H, out: &mut K) -> Status
    // What it takes of its files, which ones it opens, what it puts, and its status.
    ensures course { Ran H.files H.faults H.opens K.written K.faults (script_of (texts words.now)) shelf.old shelf.new out.old out.new result }

    // The files stay as they were.
    ensures files { H.files shelf.new ≡ H.files shelf.old }

    // It opens the files of its words, in their order, each once, as far as it goes, and no other: at least one where there are
    // any, all of them where it answers, and none where its words are no command.
    ensures opens { OpensFiles (form_of (texts words.now)) result (H.opens shelf.old) (H.opens shelf.new) }

    // It puts lines, one a put.
    ensures lines { PutsLines (K.written out.old) (K.written out.new) result }

    // A fault is told only where there was one, a failed read at the file of that word, and an answer only where there was none.
    ensures read_fault { result ≡ Status.ReadFault
        → TellsReadFault (texts words.now) (H.faults shelf.old) (H.faults shelf.new) (H.opens shelf.old) (H.opens shelf.new) (K.written out.old) (K.written out.new) }
    ensures gave_up { result ≡ Status.NoMemory → K.faults out.new ≡ K.faults out.old }
    ensures write_fault { result ≡ Status.WriteFault → Rose (K.faults out.old) (K.faults out.new) }
    ensures shelf_calm { IsVerdict result → H.faults shelf.new ≡ H.faults shelf.old }
    ensures sink_calm { IsVerdict result → K.faults out.new ≡ K.faults out.old }

    // Memory and faults aside, it puts what its words say of the files that they name.
    ensures told { Undisturbed (H.files shelf.old) (H.faults shelf.old) (H.faults shelf.new) (K.faults out.old) (K.faults out.new) result
        (λ file. Tells file (script_of (texts words.now)) (K.written out.old) (K.written out.new) result) }

    // The headline of `plan` holds.
    ensures headline { Undisturbed (H.files shelf.old) (H.faults shelf.old) (H.faults shelf.new) (K.faults out.old) (K.faults out.new) result
        (λ file. Headline (texts words.now) file (K.written out.old) (K.written out.new) result) }

    // Which plan it is: the one that rounds come to. An instance is doubled only where a printed cycle stands in the way, and at the end
    // only the targets and what serves them remain.
    ensures plan { Undisturbed (H.files shelf.old) (H.faults shelf.old) (H.faults shelf.new) (K.faults out.old) (K.faults out.new) result
        (λ file. PlansHave IsThePlan (texts words.now) file (K.written out.old) (K.written out.new) result) }
{
    kept_order_is_a_run();
    complete_order_ends_alike();
    own_order_is_kept();
    follow(alloc, words, shelf, out)
}

// Reads the words, and does what they say.
fn follow<H: Shelf, K: Sink>(alloc: Global, words: &[String], shelf: &mut H, out: &mut K) -> Status
    ensures { Ran H.files H.faults H.opens K.written K.faults (script_of (texts words.now)) shelf.old shelf.new out.old out.new result }
{
    match read_words(alloc, words) {
        Ok(command) => match perform(alloc, &command, shelf, out) {
            Ok(status) => status,
            Err(stop) => end(alloc, stop, out),
        },
        Err(fault) => end(alloc, Stop::from(fault), out),
    }
}
