//! The lines of a script.
ghost use Rattle.std.specs.Prelude.{◌≡◌, ◌≤◌, ◌+◌, IfOk, length, map, take};
ghost use Rattle.std.specs.List.{slice_split};
ghost use Rattle.metis_tokens.specs.Terms.{is_feed, script_lines, without_empty_end};

use std::alloc::{AllocError, Global};

/// What stands between the line feeds of the bytes.
pub fn pieces_of<'a>(alloc: Global, bytes: &'a [u8]) -> Result<Vec<&'a [u8]>, AllocError>
    ensures pieces { IfOk result (λ v. map (λ piece. piece.now) v.items ≡ slice_split is_feed bytes.now) }
    ensures few { IfOk result (λ v. length v.items ≤ length bytes.now + 1) }
{
    bytes.split(|byte| *byte == b'\n').collect(alloc)
}

/// The lines of the script: behind its last line feed there is one only if something stands there.
pub fn script_lines<'a>(alloc: Global, script: &'a [u8]) -> Result<Vec<&'a [u8]>, AllocError>
    ensures lines { IfOk result (λ v. map (λ line. line.now) v.items ≡ script_lines script.now) }
    ensures few { IfOk result (λ v. length v.items ≤ length script.now + 1) }
{
    let mut lines = pieces_of(alloc, script)?;
    let count = without_empty_end(&lines).len();
    lines.truncate(count);
    Ok(lines)
}

// The pieces, but a last one that is empty.
fn without_empty_end<'a, 'b>(pieces: &'b [&'a [u8]]) -> &'b [&'a [u8]]
    ensures lines { map (λ line. line.now) result.now ≡ without_empty_end (map (λ piece. piece.now) pieces.now) }
    ensures front { result.now ≡ take (length result.now) pieces.now }
    ensures few { length result.now ≤ length pieces.now }
{
    match pieces {
        [lines @ .., last] => { if last.is_empty() { lines } else { pieces } }
        [] => pieces,
    }
}
