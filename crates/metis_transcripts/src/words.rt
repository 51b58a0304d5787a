//! The lines of a file of cases, and the words of a line.
ghost use Rattle.std.specs.Prelude.{◌≡◌, ◌∷◌, IfOk, IfSome, codes, map};
ghost use Rattle.std.specs.Str.Lines.{lines};
ghost use Rattle.metis_universe.specs.Terms.{texts};
ghost use Rattle.metis_transcripts.specs.Terms.{role_of, words_in};

use std::alloc::{AllocError, Global};

/// What a line of a file of cases is.
#[derive(Clone, Copy)]
pub enum Role {
    /// It is empty or a comment.
    Remark,
    /// A line of the input of the next case.
    Input,
    /// It names a call that is to fail in the next case.
    Failing,
    Case,
}

pub fn lines_in<'a>(alloc: Global, text: &'a str) -> Result<Vec<&'a str>, AllocError>
    ensures { IfOk result (λ v. map (λ line. line.now) v.items ≡ lines text.now) }
{
    text.lines().collect(alloc)
}

pub fn role_of(line: &str) -> Role
    ensures { result ≡ role_of line.now }
{
    match line.as_bytes() {
        [] => Role::Remark,
        [b'#', ..] => Role::Remark,
        [b'>', ..] => Role::Input,
        [b'!', ..] => Role::Failing,
        _ => Role::Case,
    }
}

/// The parts of the line between its spaces.
pub fn words_in(alloc: Global, line: &str) -> Result<Vec<String>, AllocError>
    ensures { IfOk result (λ words. texts words.items ≡ words_in line.now) }
{
    let parts = parts_in(alloc, line)?;
    let mut words = Vec::new(alloc);
    for part in &parts {
        words.push(String::from_str(alloc, part)?)?;
    }
    Ok(words)
}

/// The words behind the name of the program, where that is the first word.
pub fn command_in(words: &[String]) -> Option<&[String]>
    ensures { IfSome result (λ command. texts words.now ≡ codes "metis" ∷ texts command.now) }
{
    match words {
        [program, command @ ..] if program.as_str() == "metis" => Some(command),
        _ => None,
    }
}

fn parts_in<'a>(alloc: Global, line: &'a str) -> Result<Vec<&'a str>, AllocError>
    ensures { IfOk result (λ v. map (λ part. part.now) v.items ≡ words_in line.now) }
{
    line.split(' ').collect(alloc)
}
