//! Runs cases, and puts their transcript.
ghost use Rattle.std.specs.Prelude.{◌∷◌, [], OnOk};
ghost use Rattle.metis_outside.specs.Terms.{Appends};
ghost use Rattle.std.specs.Str.Lines.{lines};
ghost use Rattle.metis_transcripts.specs.Terms.{AreAllPlayed, IsPlayed, IsWholePlay, blank, outside, plain_line};

use crate::case::play_case;
use crate::case_shelf::CaseShelf;
use crate::case_sink::CaseSink;
use crate::setting::Setting;
use crate::stop::Stop;
use crate::words::{Role, lines_in, role_of};
use metis_outside::{Sink, read_whole};
use std::alloc::Global;

/// The most bytes of a file of cases.
const CASES_LIMIT: u64 = 1_048_576;

/// Runs the cases of the file of this name, and puts their transcript. It ends well only where each was run.
pub fn play_file<H: CaseShelf, K: CaseSink>(
    alloc: Global,
    name: &str,
    shelf: &mut H,
    out: &mut K,
) -> Result<(), Stop>
    ensures { OnOk result (IsWholePlay (outside H.files H.faults H.opens H.input H.fails K.written K.faults K.fails) name.now 1048576 shelf.old shelf.new out.old out.new) }
{
    match read_whole(alloc, shelf, name, CASES_LIMIT) {
        Ok(bytes) => match str::from_utf8(&bytes) {
            Ok(text) => play(alloc, text, shelf, out),
            Err(_) => Err(Stop::NoText),
        },
        Err(answer) => Err(Stop::Unread(answer)),
    }
}

fn play<H: CaseShelf, K: CaseSink>(
    alloc: Global,
    text: &str,
    shelf: &mut H,
    out: &mut K,
) -> Result<(), Stop>
    ensures { OnOk result (AreAllPlayed (outside H.files H.faults H.opens H.input H.fails K.written K.faults K.fails) (lines text.now) blank shelf.old shelf.new out.old out.new) }
{
    let lines = lines_in(alloc, text)?;
    let mut setting = Setting::blank(alloc);
    for line in &lines {
        play_line(alloc, line, &mut setting, shelf, out)?;
    }
    if setting.is_blank() {
        Ok(())
    } else {
        Err(Stop::NoCaseFollows)
    }
}

fn play_line<H: CaseShelf, K: CaseSink>(
    alloc: Global,
    line: &str,
    setting: &mut Setting,
    shelf: &mut H,
    out: &mut K,
) -> Result<(), Stop>
    ensures { OnOk result (IsPlayed (outside H.files H.faults H.opens H.input H.fails K.written K.faults K.fails) line.now setting.old setting.new shelf.old shelf.new out.old out.new) }
{
    match role_of(line) {
        Role::Remark => put_plain(alloc, line, out),
        Role::Input => {
            put_plain(alloc, line, out)?;
            setting.add_input(line)?;
            Ok(())
        }
        Role::Failing => {
            put_plain(alloc, line, out)?;
            setting.name_call(line)
        }
        Role::Case => {
            play_case(alloc, line, setting, shelf, out)?;
            setting.clear();
            Ok(())
        }
    }
}

fn put_plain<K: Sink>(alloc: Global, line: &str, out: &mut K) -> Result<(), Stop>
    ensures { OnOk result (Appends (K.written out.old) (K.written out.new) (plain_line line.now ∷ [])) }
{
    let text = format!(in alloc; "{line}\n")?;
    out.put(text.as_bytes())?;
    Ok(())
}
