//! Runs the commands of the file `cases.txt` in the folder that it runs in, and puts what a terminal would show: each
//! line, and behind each command what it puts and its status. `CONTRIBUTING.md` has the forms of lines.
#![tactic(auto)]

mod case;
mod case_shelf;
mod case_sink;
mod countdown;
mod input_text;
mod play;
mod setting;
mod staged_shelf;
mod staged_sink;
mod stop;
mod words;

use metis_outside::{DiskShelf, StdSink};
use play::play_file;
use staged_shelf::StagedShelf;
use staged_sink::StagedSink;
use stop::Stop;

fn main(rt: HostRuntime) -> Result<(), Stop> {
    let mut shelf = StagedShelf::new(rt.alloc(), DiskShelf::new(&rt));
    let mut out = StagedSink::new(StdSink::new(&rt));
    play_file(rt.alloc(), "cases.txt", &mut shelf, &mut out)
}
