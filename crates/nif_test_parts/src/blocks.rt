//! The tree of a block that is read.
ghost use Rattle.std.specs.Prelude.{◌≡◌, None, IfOk, Ok};
ghost use Rattle.nif_value.specs.Trees.{IsLive};

use nif_base::{MemSource, Order, Version};
use nif_builtin::builtin::SCENE;
use nif_check::{Checked, check};
use nif_decode::{Bounds, decode_value};
use nif_read::read_schema;
use nif_schema::Context;
use nif_stream::Taker;
use nif_value::{Step, Store, TreeId};
use std::alloc::Global;
use std::test::Fail;

/// The schema `scene`, checked.
fn scene(alloc: Global) -> Result<Checked, Fail> {
    let schema = read_schema(alloc, SCENE)?;
    Ok(check(alloc, schema)?)
}

/// Reads a block `SceneRagged` of version 4.0.0.2, byte by byte.
fn read_ragged(
    alloc: Global,
    checked: &Checked,
    bytes: &[u8],
    store: &mut Store,
) -> Result<TreeId, Fail>
    requires { store.old.building ≡ None }
    ensures building { store.new.building ≡ None }
    ensures tree { IfOk result (λ tree. IsLive store.new tree.run.key) }
{
    let schema = checked.schema();
    let kind = schema.find(b"SceneRagged").ok_or("no such type")?;
    if !schema.decl(kind).what.is_block() || !checked.is_open(kind) {
        return Err("no open block type".into());
    }
    let context = Context {
        version: Version {
            number: 0x0400_0002,
        },
        user: 0,
        bs: 0,
        order: Order::Little,
    };
    let mut bounds = Bounds {
        blocks: 0,
        strings: 0,
        nodes: 0,
    };
    let mut source = MemSource::new(bytes, 1, None);
    let mut taker = Taker::new(&mut source);
    Ok(decode_value(alloc, schema, context, kind, &mut taker, store, &mut bounds)?)
}

/// One width, and three rows of bytes by it: two bytes, none, none.
const STEPS: [Step; 10] = [
    Step::Group { members: 4 },
    Step::Num {
        width: 1,
        little: false,
        bits: 1,
    },
    Step::Bytes { len: 1 },
    Step::Num {
        width: 1,
        little: false,
        bits: 3,
    },
    Step::Row { items: 3 },
    Step::Bytes { len: 2 },
    Step::Bytes { len: 0 },
    Step::Bytes { len: 0 },
    Step::End,
    Step::End,
];

/// Whether a walk through a tree has these steps.
fn has_steps(store: &Store, tree: TreeId) -> bool
    requires { IsLive store.now tree.run.key }
{
    let mut walk = store.walk(tree);
    for step in STEPS {
        if walk.next() != Some(step) {
            return false;
        }
    }
    walk.next().is_none()
}

/// Reads a block into a store of its own, and says whether it has these steps.
fn reads(alloc: Global, checked: &Checked, bytes: &[u8]) -> Result<bool, Fail> {
    let mut store = Store::new(alloc);
    match read_ragged(alloc, checked, bytes, &mut store) {
        Ok(tree) => Ok(has_steps(&store, tree)),
        Err(fail) => Err(fail),
    }
}

#[test]
fn gives_each_ragged_row_its_length(rt: HostRuntime) -> Result<(), Fail> {
    let checked = scene(rt.alloc())?;
    assert!(rt; reads(rt.alloc(), &checked, b"\x01\x02\x03\xaa\xbb")?);
    Ok(())
}
