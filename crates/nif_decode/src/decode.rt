//! The value of a type, from its bytes.
ghost use Rattle.std.specs.Prelude.{◌≡◌, ◌≤◌, ◌<◌, ◌^◌, length, None};
ghost use Rattle.nif_base.specs.Limits.{most_nodes};
ghost use Rattle.nif_layout.specs.Laws.{IsOpenType};
ghost use Rattle.nif_stream.specs.Taking as taking;
ghost use Rattle.nif_decode.specs.Decodes.{Decodes, IsGroupType, context_for, owner_of};

use crate::faults::{Bounds, ValueFault};
use crate::takes::take_nothing;
use crate::values::read_group;
use nif_base::Source;
use nif_base::limits::MOST_DEPTH;
use nif_schema::{Context, Schema, What};
use nif_scope::{Entry, Setting, ValueContext};
use nif_stream::Taker;
use nif_value::{Store, TreeId};
use std::alloc::Global;

/// The block type that owns its value.
pub(crate) fn owner_of(schema: &Schema, kind: u32) -> Option<u32>
    requires { kind < length schema.now }
    ensures { result ≡ owner_of schema.now kind }
{
    if schema.decl(kind).what.is_block() {
        return Some(kind);
    }
    None
}

/// Reads the value of an open block type, or of an open struct that isn't generic, into a new tree. Its bytes are
/// taken, and its nodes counted. A fault lets the tree go that was begun, and changes no other; the taker may then
/// have moved.
pub fn decode_value<S: Source>(
    alloc: Global,
    schema: &Schema,
    context: Context,
    kind: u32,
    taker: &mut Taker<'_, S>,
    store: &mut Store,
    bounds: &mut Bounds,
) -> Result<TreeId, ValueFault>
    requires open { IsOpenType schema.now kind }
    requires group { IsGroupType schema.now kind }
    requires counted { bounds.old.nodes ≤ most_nodes }
    requires sound { taking.IsSound taker.old }
    requires building { store.old.building ≡ None }
    ensures blocks { bounds.new.blocks ≡ bounds.old.blocks }
    ensures strings { bounds.new.strings ≡ bounds.old.strings }
    ensures building { store.new.building ≡ None }
    ensures answers { Decodes S.left S.still S.read_faults schema.now (context_for schema.now context kind bounds.old) kind taker.old taker.new bounds.old.nodes bounds.new.nodes store.old store.new result }
    ensures counted { bounds.new.nodes ≤ most_nodes }
{
    match take_nothing(taker) {
        Ok(()) => {}
        Err(fault) => return Err(fault),
    }
    match store.begin() {
        Ok(()) => {}
        Err(_) => return Err(ValueFault::NoMemory),
    }
    let context = ValueContext {
        context,
        owner: owner_of(schema, kind),
        blocks: bounds.blocks,
        strings: bounds.strings,
    };
    let setting = Setting {
        schema,
        context: &context,
        number: kind,
        template: None,
        arg: 0,
    };
    let mut told: Vec<Entry> = Vec::new(alloc);
    match read_group(
        alloc,
        &setting,
        MOST_DEPTH - 1,
        taker,
        store,
        &mut bounds.nodes,
        &mut told,
    ) {
        Ok(()) => Ok(store.finish()),
        Err(fault) => {
            store.abandon();
            Err(fault)
        }
    }
}
