//! Plans the deployment of components: the words after the program's name say what is done with which files.
#![tactic(auto)]

use metis_outside::{DiskShelf, StdSink};
use metis_top::exit_code;
use std::process::ExitCode;

fn main(rt: HostRuntime) -> ExitCode {
    let mut files = DiskShelf::new(&rt);
    let mut out = StdSink::new(&rt);
    exit_code(rt.alloc(), &rt, &mut files, &mut out)
}
