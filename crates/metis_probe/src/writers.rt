//! The calls that write a text whole, over output in memory.
ghost use Rattle.std.specs.Prelude.{◌≤◌, IfOk, length};

use crate::outputs::{Ended, output_failing_at, write_output};
use crate::plan_texts::{put_fault, put_plan, put_rollout};
use crate::refusal_texts::{put_refusal, put_why};
use crate::scripts::{put_answers, put_replies};
use crate::stop::Stop;
use metis_outside::MemSink;
use metis_ujson::write_universe;
use metis_universe::Universe;
use std::alloc::Global;
use std::fs;
use std::rt::Files;

// The most bytes of a text.
const TEXT_LIMIT: usize = 268_435_456;

/// A call that writes a text whole.
#[derive(Clone, Copy)]
pub enum Writer {
    Plan,
    Refusal,
    Why,
    Universe,
    Answers,
    Replies,
    Fault,
    Rollout,
}

/// The call that this word asks for.
pub fn writer_of(verb: &str) -> Option<Writer> {
    match verb {
        "write-plan" => Some(Writer::Plan),
        "write-refusal" => Some(Writer::Refusal),
        "write-why" => Some(Writer::Why),
        "write-universe" => Some(Writer::Universe),
        "write-answers" => Some(Writer::Answers),
        "write-reply" => Some(Writer::Replies),
        "write-fault" => Some(Writer::Fault),
        "rollout" => Some(Writer::Rollout),
        _ => None,
    }
}

/// Writes what the call puts, if the put of the first word's number fails, and how it ends. The other words are the files that it is
/// called over.
pub fn write_call<R: Files + AllocGlobal>(
    rt: &R,
    text: &mut String,
    u: &Universe,
    writer: Writer,
    words: &[&str],
) -> Result<(), Stop> {
    let [number, files @ ..] = words else {
        return Err(Stop::NoProbe);
    };
    let mut out = output_failing_at(rt.alloc(), number)?;
    let ended = call(rt, u, writer, files, &mut out)?;
    write_output(text, &out, ended)
}

fn call<R: Files + AllocGlobal>(
    rt: &R,
    u: &Universe,
    writer: Writer,
    files: &[&str],
    out: &mut MemSink,
) -> Result<Ended, Stop> {
    let first = text_at(rt, files, 0)?;
    let second = text_at(rt, files, 1)?;
    call_over(rt.alloc(), u, writer, &first, &second, out)
}

// The text of the file at this place; an empty one if there is none.
fn text_at<R: Files + AllocGlobal>(rt: &R, files: &[&str], place: usize) -> Result<Vec<u8>, Stop>
    ensures { IfOk result (λ bytes. length bytes.items ≤ 268435456) }
{
    let Some(file) = files.get(place) else {
        return Ok(Vec::new(rt.alloc()));
    };
    let bytes = fs::read(rt, file)?;
    if bytes.len() > TEXT_LIMIT {
        return Err(Stop::NoText);
    }
    Ok(bytes)
}

fn call_over(
    alloc: Global,
    u: &Universe,
    writer: Writer,
    first: &[u8],
    second: &[u8],
    out: &mut MemSink,
) -> Result<Ended, Stop>
    requires first { length first.now ≤ 268435456 }
    requires second { length second.now ≤ 268435456 }
{
    match writer {
        Writer::Plan => put_plan(alloc, u, first, out),
        Writer::Refusal => put_refusal(alloc, u, first, out),
        Writer::Why => put_why(alloc, u, first, out),
        Writer::Universe => Ok(write_universe(alloc, u, out)),
        Writer::Answers => put_answers(alloc, u, first, second, out),
        Writer::Replies => put_replies(alloc, u, first, out),
        Writer::Fault => put_fault(alloc, u, first, out),
        Writer::Rollout => put_rollout(alloc, u, first, second, out),
    }
}
