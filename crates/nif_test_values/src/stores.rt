//! A store of trees, by its calls.
ghost use Rattle.std.specs.Prelude.{◌≡◌, None, Some, OnOk, IfOk, IsSome};
ghost use Rattle.nif_region.specs.Contents.{find};
ghost use Rattle.nif_test_values.specs.Sample.{sample};

use nif_base::NoMemory;
use nif_value::{RefView, Step, Store, TreeId};
use std::test::Fail;

/// Builds a group with a node of each kind in it, and an absent member.
fn build(store: &mut Store) -> Result<TreeId, NoMemory>
    requires { store.old.building ≡ None }
    ensures free { OnOk result (store.new.building ≡ None) }
    ensures tree { IfOk result (λ tree. find store.new.trees tree.run.key ≡ Some sample) }
{
    store.begin()?;
    store.open_group()?;
    store.num(2, true, 258)?;
    store.line(b"ab")?;
    store.refer(RefView {
        strong: true,
        wanted: Some(3),
        target: Some(1),
    })?;
    store.text(None)?;
    store.absent()?;
    store.open_bytes()?;
    store.more_bytes(b"0123456789")?;
    store.close();
    store.open_row()?;
    store.close();
    store.close();
    Ok(store.finish())
}

#[test]
fn builds_and_counts(rt: HostRuntime) -> Result<(), Fail> {
    let mut store = Store::new(rt.alloc());
    let tree = build(&mut store)?;
    assert!(rt; store.nodes(tree) == 8);
    assert!(rt; store.bytes_of(tree) == 23);
    assert!(rt; store.cells_of(tree) == 15);
    assert!(rt; store.ref_count(tree) == 1);
    let other = store.copy(tree)?;
    store.set_ref(other, 0, None);
    assert!(rt; store.ref_at(other, 0).target == None);
    assert!(rt; store.ref_at(tree, 0).target == Some(1));
    store.drop_tree(tree);
    assert!(rt; store.nodes(other) == 8);
    Ok(())
}

/// Begins a tree and makes one call of a builder in it, or as many as it needs.
fn begin_with(store: &mut Store, call: u32) -> Result<(), NoMemory>
    requires { store.old.building ≡ None }
    ensures building { OnOk result (IsSome store.new.building) }
    ensures trees { store.new.trees ≡ store.old.trees }
{
    store.begin()?;
    match call {
        0 => store.num(8, false, 1),
        1 => store.line(b"a line"),
        2 => store.refer(RefView {
            strong: false,
            wanted: None,
            target: None,
        }),
        3 => store.text(Some(7)),
        4 => store.open_bytes(),
        5 => store.open_group(),
        6 => store.open_row(),
        7 => {
            store.open_bytes()?;
            store.more_bytes(b"0123456789")
        }
        8 => {
            store.open_group()?;
            store.absent()
        }
        _ => {
            store.open_row()?;
            store.close();
            Ok(())
        }
    }
}

#[test]
fn abandons_each_call(rt: HostRuntime) -> Result<(), Fail> {
    let mut store = Store::new(rt.alloc());
    let tree = build(&mut store)?;
    for call in 0..10 {
        begin_with(&mut store, call)?;
        store.abandon();
        assert!(rt; store.nodes(tree) == 8);
    }
    Ok(())
}

#[test]
fn builds_what_was_reserved(rt: HostRuntime) -> Result<(), Fail> {
    let mut store = Store::new(rt.alloc());
    store.reserve(2 * (2 * 8 + 23 / 8 + 1), 2)?;
    let one = build(&mut store)?;
    assert!(rt; store.nodes(one) == 8);
    let other = build(&mut store)?;
    assert!(rt; store.nodes(other) == 8);
    Ok(())
}

#[test]
fn walks_in_order(rt: HostRuntime) -> Result<(), Fail> {
    let mut store = Store::new(rt.alloc());
    let tree = build(&mut store)?;
    let view = RefView {
        strong: true,
        wanted: Some(3),
        target: Some(1),
    };
    let mut walk = store.walk(tree);
    for step in [
        Step::Group { members: 7 },
        Step::Num {
            width: 2,
            little: true,
            bits: 258,
        },
        Step::Line { len: 2 },
        Step::Ref { view },
        Step::Text { index: None },
        Step::Absent,
        Step::Bytes { len: 10 },
        Step::Row { items: 0 },
        Step::End,
        Step::End,
    ] {
        assert!(rt; walk.next() == Some(step));
    }
    assert!(rt; walk.next() == None);
    Ok(())
}

#[test]
fn copies_bytes_in_order(rt: HostRuntime) -> Result<(), Fail> {
    let mut store = Store::new(rt.alloc());
    store.begin()?;
    store.open_bytes()?;
    store.more_bytes(b"0123456789")?;
    store.close();
    let tree = store.finish();
    let mut walk = store.walk(tree);
    assert!(rt; walk.next() == Some(Step::Bytes { len: 10 }));
    let mut piece = [0u8; 7];
    assert!(rt; walk.bytes(&mut piece) == 7);
    assert!(rt; piece == *b"0123456");
    assert!(rt; walk.bytes(&mut piece) == 3);
    assert!(rt; piece == *b"7893456");
    assert!(rt; walk.bytes(&mut piece) == 0);
    Ok(())
}
