//! Members of a group, read one behind another by calls of the caller's.
ghost use Rattle.std.specs.Prelude.{◌≡◌, ◌≤◌, ◌<◌, length, Some, slice_get};
ghost use Rattle.nif_base.specs.Node.{Members};
ghost use Rattle.nif_schema.specs.Declaration.{field};
ghost use Rattle.nif_schema.specs.Schema.{line};
ghost use Rattle.nif_base.specs.Limits.{most_nodes};
ghost use Rattle.nif_layout.specs.Laws.{IsOpenType};
ghost use Rattle.nif_stream.specs.Taking as taking;
ghost use Rattle.nif_decode.specs.Decodes.{DecodesMembers, IsGroupType, context_for};
ghost use Rattle.nif_decode.specs.Scopes.{HoldsMembers};
ghost use Rattle.nif_decode.specs.Answers.{IsReadyTaker, stand};
ghost use Rattle.nif_decode.specs.MembersSoFar.{HoldsAt, MembersAnswers};
ghost use Rattle.nif_scope.specs.Scope.{IsSetting};

use crate::decode::owner_of;
use crate::faults::{Bounds, ValueFault};
use crate::scope::Scope;
use crate::takes::take_nothing;
use crate::values::read_member;
use nif_base::Source;
use nif_base::limits::MOST_DEPTH;
use nif_schema::{Context, Field, Schema};
use nif_scope::{Entry, Setting, ValueContext};
use nif_stream::Taker;
use nif_value::Store;
use std::alloc::Global;

/// The field at a place of the line of an open type.
fn field_at(schema: &Schema, kind: u32, place: u32) -> &Field
    requires open { IsOpenType schema.now kind }
    requires within { place < length (line schema.now kind) }
    ensures { slice_get (line schema.now kind) place ≡ Some (field result.now) }
{
    if schema.parent(kind).is_none() {
        return schema.decl(kind).fields.get(place);
    }
    let mut fields = schema.line_of(kind);
    for _passed in 0..place {
        fields.next();
    }
    match fields.next() {
        Some(of) => of,
        None => unreachable!(),
    }
}

/// Reads the members of the fields `from` to `to - 1` of the line of a setting, behind those that are kept.
fn read_members<S: Source>(
    alloc: Global,
    at: &Setting<'_>,
    from: u32,
    to: u32,
    taker: &mut Taker<'_, S>,
    store: &mut Store,
    nodes: &mut u32,
    told: &mut Vec<Entry>,
) -> Result<(), ValueFault>
    requires setting { IsSetting at.now }
    requires ready { IsReadyTaker taker.old }
    requires counted { nodes.old ≤ most_nodes }
    requires range { from ≤ to }
    requires within { to ≤ length (line at.now.schema.now at.now.number) }
    requires members { (held : Members) × HoldsAt at.now from
        (stand taker.old nodes.old store.old told.old.items) held }
    ensures trees { store.new.trees ≡ store.old.trees }
    ensures answers { (held : Members) → HoldsAt at.now from (stand taker.old nodes.old store.old told.old.items) held
        → MembersAnswers S.left S.still S.read_faults at.now from to held
        (stand taker.old nodes.old store.old told.old.items)
        (stand taker.new nodes.new store.new told.new.items) result }
    ensures counted { nodes.new ≤ most_nodes }
{
    for place in from..to {
        let of = field_at(at.schema, at.number, place);
        match read_member(alloc, at, of, MOST_DEPTH - 1, taker, store, nodes, told) {
            Ok(()) => {}
            Err(fault) => return Err(fault),
        }
    }
    Ok(())
}

/// Reads the members of the fields `from` to `to - 1` of the line of an open block type, or of an open struct that isn't
/// generic. Behind the members before them, which the scope keeps, they are added to the group that is open at the top
/// of the tree that is being built. A fault lets this tree go, and changes no other; the taker may then have moved.
pub fn decode_members<S: Source>(
    alloc: Global,
    schema: &Schema,
    context: Context,
    kind: u32,
    from: u32,
    to: u32,
    scope: &mut Scope,
    taker: &mut Taker<'_, S>,
    store: &mut Store,
    bounds: &mut Bounds,
) -> Result<(), ValueFault>
    requires open { IsOpenType schema.now kind }
    requires group { IsGroupType schema.now kind }
    requires counted { bounds.old.nodes ≤ most_nodes }
    requires sound { taking.IsSound taker.old }
    requires range { from ≤ to }
    requires within { to ≤ length (line schema.now kind) }
    requires members { (held : Members)
        × HoldsMembers schema.now kind from scope.old store.old.building bounds.old.nodes
        (taking.place_of taker.old) held }
    ensures blocks { bounds.new.blocks ≡ bounds.old.blocks }
    ensures strings { bounds.new.strings ≡ bounds.old.strings }
    ensures trees { store.new.trees ≡ store.old.trees }
    ensures answers { (held : Members) → HoldsMembers schema.now kind from scope.old store.old.building bounds.old.nodes
        (taking.place_of taker.old) held
        → DecodesMembers S.left S.still S.read_faults schema.now (context_for schema.now context kind bounds.old) kind from to held taker.old taker.new bounds.old.nodes bounds.new.nodes scope.new store.new result }
    ensures counted { bounds.new.nodes ≤ most_nodes }
{
    match take_nothing(taker) {
        Ok(()) => {}
        Err(fault) => {
            store.abandon();
            return Err(fault);
        }
    }
    let context = ValueContext {
        context,
        owner: owner_of(schema, kind),
        blocks: bounds.blocks,
        strings: bounds.strings,
    };
    let setting = Setting {
        schema,
        context: &context,
        number: kind,
        template: None,
        arg: 0,
    };
    match read_members(
        alloc,
        &setting,
        from,
        to,
        taker,
        store,
        &mut bounds.nodes,
        &mut scope.entries,
    ) {
        Ok(()) => Ok(()),
        Err(fault) => {
            store.abandon();
            return Err(fault);
        }
    }
}
