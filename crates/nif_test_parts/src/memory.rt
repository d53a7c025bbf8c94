//! What keeps bytes in memory, by the calls that take memory, each once where memory suffices.
use nif_base::{
    AllFault, MemShelf, MemSource, Numbers, Shelf, Word, read_all, read_at_most, write_all,
};
use std::test::Fail;

#[test]
fn keeps_words_and_numbers(rt: HostRuntime) -> Result<(), Fail> {
    let word = Word::from_bytes(rt.alloc(), b"NiNode")?;
    assert!(rt; word.copy()?.bytes() == b"NiNode".as_slice());
    let mut numbers = Numbers::new(rt.alloc());
    numbers.push(7)?;
    assert!(rt; numbers.len() == 1);
    assert!(rt; numbers.get(0) == 7);
    Ok(())
}

#[test]
fn reads_all_bytes(rt: HostRuntime) -> Result<(), Fail> {
    for (most, fails, want) in [
        (5, None, Ok(5)),
        (4, None, Err(AllFault::TooLong)),
        (5, Some(1), Err(AllFault::ReadFault)),
    ] {
        let mut source = MemSource::new(b"bytes", 2, fails);
        let answer = read_all(rt.alloc(), &mut source, most).map(|v| v.len());
        assert!(rt; answer == want);
    }
    let mut source = MemSource::new(b"bytes", 2, None);
    let first = read_at_most(rt.alloc(), &mut source, 3)?;
    assert!(rt; first.as_slice() == b"byt".as_slice());
    Ok(())
}

/// Whether a shelf has a file of this name with these bytes.
fn has(shelf: &MemShelf, name: &str, bytes: &[u8]) -> bool {
    match shelf.file(name) {
        Some(found) => found == bytes,
        None => false,
    }
}

#[test]
fn keeps_files(rt: HostRuntime) -> Result<(), Fail> {
    let mut shelf = MemShelf::new(rt.alloc(), 3);
    shelf.put("a", b"first")?;
    shelf.put("a", b"second")?;
    shelf.create_output("b")?;
    write_all(&mut shelf, b"written")?;
    assert!(rt; has(&shelf, "a", b"second"));
    assert!(rt; has(&shelf, "b", b"written"));
    assert!(rt; shelf.file("c").is_none());
    // the create and three writes were calls 0 to 3
    shelf.fail_call(4)?;
    assert!(rt; shelf.open_input("a").is_err());
    assert!(rt; shelf.open_input("a").is_ok());
    Ok(())
}
