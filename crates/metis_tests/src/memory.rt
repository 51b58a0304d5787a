//! Files and output in memory: each kind once. What each call answers and leaves, where it fails too, its clauses say.
use metis_outside::{CalmShelf, MemShelf, MemSink, ReadAnswer, Shelf, Sink, Trouble, read_whole};
use std::alloc::{AllocError, Global};
use std::process::Abort;
use std::test::Fail;

// One file, `f`, with the bytes `abc`.
fn one_file(alloc: Global) -> Result<Vec<(String, Vec<u8>)>, AllocError> {
    let mut files = Vec::new(alloc);
    files.push((String::from_str(alloc, "f")?, b"abc".to_vec(alloc)?))?;
    Ok(files)
}

// Reads the whole file, of at most three bytes: its bytes, or why not.
fn expect_read<H: Shelf>(
    rt: &impl Abort,
    alloc: Global,
    shelf: &mut H,
    name: &str,
    wanted: Result<&[u8], ReadAnswer>,
) {
    match (read_whole(alloc, shelf, name, 3), wanted) {
        (Ok(bytes), Ok(wanted)) => assert!(rt; bytes.as_slice() == wanted, "{name}"),
        (Err(answer), Err(wanted)) => assert!(rt; answer == wanted, "{name}"),
        _ => assert!(rt; false, "{name}"),
    }
}

// The file is opened, taken and found to end. Then call 4, which opens it again, fails.
#[test]
fn files_in_memory(rt: HostRuntime) -> Result<(), Fail> {
    let alloc = rt.alloc();
    let mut shelf = MemShelf::new(alloc, one_file(alloc)?, vec![in alloc; 4]?);
    expect_read(&rt, alloc, &mut shelf, "f", Ok(b"abc"));
    expect_read(&rt, alloc, &mut shelf, "f", Err(ReadAnswer::Failed));
    expect_read(&rt, alloc, &mut shelf, "f", Ok(b"abc"));
    Ok(())
}

#[test]
fn files_that_do_not_fail(rt: HostRuntime) -> Result<(), Fail> {
    let alloc = rt.alloc();
    let mut calm = CalmShelf::new(alloc, one_file(alloc)?);
    expect_read(&rt, alloc, &mut calm, "f", Ok(b"abc"));
    expect_read(&rt, alloc, &mut calm, "g", Ok(b""));
    Ok(())
}

fn expect_put(rt: &impl Abort, out: &mut MemSink, piece: &str, wanted: Result<(), Trouble>) {
    assert!(rt; out.put(piece.as_bytes()) == wanted, "{piece}");
}

#[test]
fn output_in_memory(rt: HostRuntime) -> Result<(), Fail> {
    let alloc = rt.alloc();
    let mut out = MemSink::new(alloc, vec![in alloc; 2]?);
    expect_put(&rt, &mut out, "ab", Ok(()));
    expect_put(&rt, &mut out, "cd", Err(Trouble::Failed));
    expect_put(&rt, &mut out, "ef", Ok(()));
    assert!(rt; out.bytes() == b"abef".as_slice());
    Ok(())
}
