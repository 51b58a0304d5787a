//! Refusals and explanations that are read, and written again.
ghost use Rattle.std.specs.Prelude.{◌≤◌, length};

use crate::outputs::Ended;
use crate::stop::Stop;
use metis_outside::MemSink;
use metis_text::{read_refusal, write_refusal};
use metis_universe::Universe;
use metis_why_text::{read_why, write_why};
use std::alloc::Global;

/// Puts the text of the refusal that the bytes say.
pub fn put_refusal(
    alloc: Global,
    u: &Universe,
    bytes: &[u8],
    out: &mut MemSink,
) -> Result<Ended, Stop>
    requires { length bytes.now ≤ 268435456 }
{
    match read_refusal(alloc, u, bytes) {
        Ok(refusal) => Ok(write_refusal(alloc, u, &refusal, out)),
        Err(_) => Err(Stop::NoText),
    }
}

/// Puts the text of the explanation that the bytes say.
pub fn put_why(alloc: Global, u: &Universe, bytes: &[u8], out: &mut MemSink) -> Result<Ended, Stop>
    requires { length bytes.now ≤ 268435456 }
{
    match read_why(alloc, u, bytes) {
        Ok(why) => Ok(write_why(alloc, u, &why, out)),
        Err(_) => Err(Stop::NoText),
    }
}
