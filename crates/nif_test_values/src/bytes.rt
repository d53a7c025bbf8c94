//! A tree with each kind of node, as bytes in both orders, whole and by its members, and to sinks that fail.
ghost use Rattle.std.specs.Prelude.{◌≡◌, None, Some, OnOk, IfOk};
ghost use Rattle.nif_region.specs.Contents.{find};
ghost use Rattle.nif_test_values.specs.Encoded.{encoded};

use nif_base::{MemSink, NoMemory, Order, WriteFault};
use nif_encode::{Targets, encode_member, encode_value};
use nif_stream::Putter;
use nif_value::{RefView, Store, TreeId};
use std::alloc::Global;
use std::test::Fail;

/// The place of each target.
const PLACES: &[Option<u32>] = &[None, Some(0), Some(4), None, Some(1), Some(3)];

/// The bytes of the tree in a little file, and in a big one.
const LITTLE: &[u8] =
    b"\x02\x01\x02\x01\x04\x03\x02\x01name\n\x07\x03\0\0\0\xff\xff\xff\xffnine byte\x06\0\0\0\xff\xff\xff\xff";

const BIG: &[u8] =
    b"\x02\x01\x01\x02\x01\x02\x03\x04name\n\x07\0\0\0\x03\xff\xff\xff\xffnine byte\0\0\0\x06\xff\xff\xff\xff";

fn build(store: &mut Store) -> Result<TreeId, NoMemory>
    requires { store.old.building ≡ None }
    ensures { IfOk result (λ tree. find store.new.trees tree.run.key ≡ Some encoded) }
{
    store.begin()?;
    store.open_group()?;
    store.num(2, true, 0x0102)?;
    store.num(2, false, 0x0102)?;
    store.num(4, false, 0x0102_0304)?;
    store.line(b"name")?;
    store.absent()?;
    store.open_row()?;
    store.num(1, false, 7)?;
    store.close();
    store.open_row()?;
    store.close();
    store.refer(RefView {
        strong: true,
        wanted: None,
        target: Some(5),
    })?;
    store.refer(RefView {
        strong: false,
        wanted: Some(1),
        target: None,
    })?;
    store.open_bytes()?;
    store.more_bytes(b"nine byte")?;
    store.close();
    store.text(Some(6))?;
    store.text(None)?;
    store.close();
    Ok(store.finish())
}

/// Puts the tree whole.
fn put_whole(
    store: &Store,
    tree: TreeId,
    order: Order,
    sink: &mut MemSink,
) -> Result<(), WriteFault>
    requires { find store.now.trees tree.run.key ≡ Some encoded }
{
    let to = Targets {
        order,
        places: PLACES,
    };
    let mut out = Putter::new(sink);
    match encode_value(store, tree, &to, &mut out) {
        Ok(()) => out.finish(),
        Err(fault) => Err(fault),
    }
}

/// Puts the members of the tree, one by one.
fn put_members(
    store: &Store,
    tree: TreeId,
    order: Order,
    sink: &mut MemSink,
) -> Result<(), WriteFault>
    requires { find store.now.trees tree.run.key ≡ Some encoded }
{
    let to = Targets {
        order,
        places: PLACES,
    };
    let mut out = Putter::new(sink);
    for member in 0..12 {
        encode_member(store, tree, member, &to, &mut out)?;
    }
    out.finish()
}

/// Whether the tree gives these bytes, whole and by its members.
fn gives(alloc: Global, store: &Store, tree: TreeId, order: Order, bytes: &[u8]) -> bool
    requires { find store.now.trees tree.run.key ≡ Some encoded }
{
    let mut whole = MemSink::new(alloc, 7, None);
    let mut parts = MemSink::new(alloc, 7, None);
    put_whole(store, tree, order, &mut whole).is_ok()
        && put_members(store, tree, order, &mut parts).is_ok()
        && whole.bytes() == bytes
        && parts.bytes() == bytes
}

#[test]
fn puts_each_kind_in_each_order(rt: HostRuntime) -> Result<(), Fail> {
    let mut store = Store::new(rt.alloc());
    let tree = build(&mut store)?;
    assert!(rt; gives(rt.alloc(), &store, tree, Order::Little, LITTLE));
    assert!(rt; gives(rt.alloc(), &store, tree, Order::Big, BIG));
    Ok(())
}

#[test]
fn answers_a_failing_write(rt: HostRuntime) -> Result<(), Fail> {
    let mut store = Store::new(rt.alloc());
    let tree = build(&mut store)?;
    for call in 0..8 {
        let mut sink = MemSink::new(rt.alloc(), 7, Some(call));
        let mut out = Putter::new(&mut sink);
        let to = Targets {
            order: Order::Little,
            places: PLACES,
        };
        let answer = encode_value(&store, tree, &to, &mut out);
        let failed = answer.is_err() || out.finish().is_err();
        assert!(rt; failed == (call < 6));
        assert!(rt; LITTLE.starts_with(sink.bytes()));
    }
    Ok(())
}
