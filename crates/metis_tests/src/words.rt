//! Words with spaces, which no line of a transcript can have.
use metis_words::{WordFault, read_words};
use std::alloc::{AllocError, Global};
use std::process::Abort;
use std::test::Fail;

/// The words between the commas of the line.
pub(crate) fn words_in(alloc: Global, line: &str) -> Result<Vec<String>, AllocError> {
    let mut words = Vec::new(alloc);
    for word in line.split(',') {
        words.push(String::from_str(alloc, word)?)?;
    }
    Ok(words)
}

fn expect_fault(rt: &impl Abort, alloc: Global, line: &str, place: u32) -> Result<(), AllocError> {
    let words = words_in(alloc, line)?;
    let fault = read_words(alloc, &words).err();
    assert!(rt; fault == Some(WordFault::At(place)), "{line}");
    Ok(())
}

fn expect_command(rt: &impl Abort, alloc: Global, line: &str) -> Result<(), AllocError> {
    let words = words_in(alloc, line)?;
    assert!(rt; read_words(alloc, &words).is_ok(), "{line}");
    Ok(())
}

#[test]
fn a_word_may_have_a_space(rt: HostRuntime) -> Result<(), Fail> {
    let alloc = rt.alloc();
    for (line, place) in [
        ("plan,a file.json,Svc:c ", 3),
        ("plan,a file.json, Svc:c", 3),
        ("plan,a file.json,Svc:a b", 3),
        ("print ,a file.json", 1),
        ("plan,-,Svc", 3),
    ] {
        expect_fault(&rt, alloc, line, place)?;
    }
    expect_command(&rt, alloc, "plan,a file.json")?;
    Ok(())
}
