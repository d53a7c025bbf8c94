//! A script with each form of line, and scripts with a line of no form.
use nif_base::{Numbers, Word};
use nif_edit::{Edit, Edits};
use nif_script::{MOST_SCRIPT_BYTES, ScriptFault, read_script};
use std::alloc::Global;
use std::test::Fail;

/// The first number of a list, and how many it has.
fn first(numbers: &Numbers) -> (u32, u32) {
    match numbers.len() {
        0 => (0, 0),
        count => (numbers.get(0), count),
    }
}

/// 6 for the name `NiNode`, and 0 for each other.
fn named(kind: &Word) -> u32 {
    if kind.bytes() == b"NiNode".as_slice() {
        6
    } else {
        0
    }
}

/// An edit as its verb and the numbers that it names; 99 stands for none.
fn told(edit: &Edit) -> (&'static str, u32, u32, u32) {
    match edit {
        Edit::Remove { block } => ("remove", *block, 0, 0),
        Edit::Copy { block, place } => ("copy", *block, *place, 0),
        Edit::Insert { kind, place } => ("insert", named(kind), *place, 0),
        Edit::Replace { block, by } => ("replace", *block, *by, 0),
        Edit::Move { block, place } => ("move", *block, *place, 0),
        Edit::Reorder { blocks } => ("reorder", first(blocks).0, first(blocks).1, 0),
        Edit::Point { from, slot, to } => ("point", from.unwrap_or(99), *slot, to.unwrap_or(99)),
    }
}

/// Whether the edit at a place is this one.
fn is_at(edits: &Edits, place: u32, want: (&str, u32, u32, u32)) -> bool {
    place < edits.len() && told(edits.get(place)) == want
}

/// The fault of a script.
fn fault(alloc: Global, script: &[u8]) -> Option<ScriptFault> {
    if script.len() > MOST_SCRIPT_BYTES as usize {
        return Some(ScriptFault::ScriptTooLong);
    }
    read_script(alloc, script).err()
}

#[test]
fn reads_each_form(rt: HostRuntime) -> Result<(), Fail> {
    let script =
        b"remove 1\n\ncopy 2 at 3\ninsert NiNode at 0\nreplace 4 with 5\nmove 6 to 4294967295\n\
        reorder\nreorder 2 0 1\npoint 8 9 to 10\npoint roots 0 to none";
    let edits = read_script(rt.alloc(), script)?;
    assert!(rt; edits.len() == 9);
    assert!(rt; is_at(&edits, 0, ("remove", 1, 0, 0)));
    assert!(rt; is_at(&edits, 1, ("copy", 2, 3, 0)));
    assert!(rt; is_at(&edits, 2, ("insert", 6, 0, 0)));
    assert!(rt; is_at(&edits, 3, ("replace", 4, 5, 0)));
    assert!(rt; is_at(&edits, 4, ("move", 6, 4294967295, 0)));
    assert!(rt; is_at(&edits, 5, ("reorder", 0, 0, 0)));
    assert!(rt; is_at(&edits, 6, ("reorder", 2, 3, 0)));
    assert!(rt; is_at(&edits, 7, ("point", 8, 9, 10)));
    assert!(rt; is_at(&edits, 8, ("point", 99, 0, 99)));
    Ok(())
}

#[test]
fn tells_the_first_bad_line(rt: HostRuntime) -> Result<(), Fail> {
    assert!(rt;
        fault(rt.alloc(), b"remove 1\n\nremove 01\nmove\n")
            == Some(ScriptFault::NotALine { line: 3 })
    );
    assert!(rt; fault(rt.alloc(), b"remove 1\r\n") == Some(ScriptFault::NotALine { line: 1 }));
    assert!(rt; fault(rt.alloc(), b"\n").is_none());
    Ok(())
}
