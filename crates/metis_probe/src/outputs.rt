//! Output in memory with puts that are to fail, and what stands in it.
use crate::graphs::number_of;
use crate::lists::put;
use crate::stop::Stop;
use metis_outside::{MemSink, Trouble};
use std::alloc::Global;

/// How a call ended that writes.
pub type Ended = Result<(), Trouble>;

/// Output in memory whose put of this number fails; none does at 0, since puts are numbered from 1.
pub fn output_failing_at(alloc: Global, word: &str) -> Result<MemSink, Stop> {
    let mut fails = Vec::new(alloc);
    fails.push(number_of(word)?)?;
    Ok(MemSink::new(alloc, fails))
}

/// Writes what was put, byte for byte, and then in brackets how the call ended that put it.
pub fn write_output(text: &mut String, out: &MemSink, ended: Ended) -> Result<(), Stop> {
    match str::from_utf8(out.bytes()) {
        Ok(bytes) => put(text, bytes)?,
        Err(_) => return Err(Stop::NoText),
    }
    put(text, ended_word(ended))
}

fn ended_word(ended: Ended) -> &'static str {
    match ended {
        Ok(()) => "[put]\n",
        Err(Trouble::Failed) => "[failed]\n",
        Err(Trouble::NoMemory) => "[no memory]\n",
    }
}
