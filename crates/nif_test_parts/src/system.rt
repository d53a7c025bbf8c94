//! The real shelf, once, on files of the test's own.
use nif_base::MemSink;
use nif_tool::{RealShelf, Status, run};
use std::alloc::Global;
use std::fs;
use std::test::Fail;
use std::time::{SystemTime, UNIX_EPOCH};

/// A plain file of version 4.0.0.2 with a block of the number 7, which is the one root: 75 bytes.
const ONE_BLOCK: &[u8] =
    b"NetImmerse File Format, Version 4.0.0.2\n\x02\0\0\x04\x01\0\0\0\x0b\0\0\0PlainNumber\x07\0\0\0\x01\0\0\0\0\0\0\0";

/// The words of a line.
fn words(alloc: Global, line: &str) -> Result<Vec<String>, Fail> {
    let mut words = Vec::new(alloc);
    for word in line.split_whitespace() {
        words.push(String::from_str(alloc, word)?)?;
    }
    Ok(words)
}

/// Runs a line over the system's files; its status, and whether it prints this text.
fn run_line(rt: &HostRuntime, line: &str, text: &[u8]) -> Result<(Status, bool), Fail> {
    let mut out = MemSink::new(rt.alloc(), 1, None);
    let words = words(rt.alloc(), line)?;
    let report = run(
        rt.alloc(),
        words.as_slice(),
        &mut RealShelf::new(rt),
        &mut out,
    );
    Ok((report.status, out.bytes() == text))
}

/// Whether a line is done, prints the line of the file, and leaves it as the file of this name, which is then taken away.
fn copies(rt: &HostRuntime, line: &str, to: &str) -> Result<bool, Fail> {
    let (status, prints) = run_line(rt, line, b"ok 4.0.0.2 blocks 1 bytes 75 nodes 10\n")?;
    let same = fs::read(rt, to)?.as_slice() == ONE_BLOCK;
    fs::remove_file(rt, to)?;
    Ok(status == Status::Done && prints && same)
}

/// Whether a line is refused, since it can't open a file, and leaves no file of this name.
fn refuses(rt: &HostRuntime, line: &str, to: &str) -> Result<bool, Fail> {
    let (status, prints) = run_line(rt, line, b"nif: open fault\n")?;
    Ok(status == Status::OutsideFault && prints && !fs::exists(rt, to)?)
}

/// Copies a file of the system, and refuses one that is not there.
#[test]
fn copies_a_real_file(rt: HostRuntime) -> Result<(), Fail> {
    let now = SystemTime::now(&rt)?.duration_since(UNIX_EPOCH)?.as_nanos();
    let from = format!(in rt.alloc(); "/tmp/nif_test_{now}.nif")?;
    let to = format!(in rt.alloc(); "/tmp/nif_test_{now}_copy.nif")?;
    let line = format!(in rt.alloc(); "copy plain {from} {to}")?;
    fs::write(&rt, from.as_str(), ONE_BLOCK)?;
    assert!(rt; copies(&rt, line.as_str(), to.as_str())?);
    fs::remove_file(&rt, from.as_str())?;
    assert!(rt; refuses(&rt, line.as_str(), to.as_str())?);
    Ok(())
}
