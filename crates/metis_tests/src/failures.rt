//! Runs of which a put fails within a line, over files that are read byte by byte.
use crate::words::words_in;
use metis_outside::{MemShelf, MemSink};
use metis_top::{Status, run};
use std::alloc::{AllocError, Global};
use std::process::Abort;
use std::test::Fail;

/// A database, off and on, provides sql, which a web server that runs requires.
const WEB: &str =
    r#"{"aeolus":1,"types":[{"name":"Db","initial":"off","states":[{"name":"off","next":["on"]},{"name":"on","provide":["sql"]}]},{"name":"Web","initial":"off","states":[{"name":"off","next":["run"]},{"name":"run","require":["sql"]}]}]}"#;

/// The server is bound to a database that is on, and runs.
const PLAN: &str =
    "metis plan 1\ninstances 2 actions 5 dups 0\n1 new 0 Web\n2 new 1 Db\n3 move 1 off on\n4 bind sql 0 1 after 3\n5 move 0 off run\nend\n";

// The universe by the name of its file.
fn web_file(alloc: Global) -> Result<Vec<(String, Vec<u8>)>, AllocError> {
    let mut files = Vec::new(alloc);
    let bytes = WEB.as_bytes().to_vec(alloc)?;
    files.push((String::from_str(alloc, "web.json")?, bytes))?;
    Ok(files)
}

// Plans the server, over files that are read byte by byte.
fn plan_server(alloc: Global, out: &mut MemSink) -> Result<Status, AllocError> {
    let words = words_in(alloc, "plan,web.json,Web:run")?;
    let mut shelf = MemShelf::in_pieces(alloc, web_file(alloc)?, Vec::new(alloc), 1);
    Ok(run(alloc, &words, &mut shelf, out))
}

// Plans it with a put of this number that fails, of which so many bytes are kept, and compares the status and all that was put.
fn expect_run(
    rt: &impl Abort,
    alloc: Global,
    put: u32,
    keep: u32,
    status: Status,
    text: &[u8],
) -> Result<(), AllocError> {
    let mut out = MemSink::keeping(alloc, vec![in alloc; put]?, keep);
    let answered = plan_server(alloc, &mut out)?;
    assert!(rt; answered == status, "put {put} keeps {keep}");
    assert!(rt; out.bytes() == text, "put {put} keeps {keep}");
    Ok(())
}

// Each put fails in turn: what was put are the lines before it, and the first bytes of its own.
fn expect_fronts(rt: &impl Abort, alloc: Global, keep: u32) -> Result<(), Fail> {
    let mut start: usize = 0;
    let mut put: u32 = 0;
    for piece in PLAN.split_inclusive('\n') {
        put = put.saturating_add(1);
        let end = start.saturating_add(piece.len().min(keep as usize));
        let front = PLAN.as_bytes().get(..end).ok_or("no front")?;
        expect_run(rt, alloc, put, keep, Status::WriteFault, front)?;
        start = start.saturating_add(piece.len());
    }
    let behind = put.saturating_add(1);
    expect_run(rt, alloc, behind, keep, Status::Done, PLAN.as_bytes())?;
    Ok(())
}

#[test]
fn each_put_of_a_plan_fails(rt: HostRuntime) -> Result<(), Fail> {
    let alloc = rt.alloc();
    for keep in [0, 1, 5, 1_000] {
        expect_fronts(&rt, alloc, keep)?;
    }
    Ok(())
}
