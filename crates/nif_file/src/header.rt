//! The header of a file: the members of the struct `Header`, each read in the context that those before it make, and
//! checked at once.
ghost use Rattle.std.specs.Prelude.{◌≡◌, ◌+◌, ◌^◌, ◌<◌, ◌∷◌, ℕ, List, [], length, true, codes, bytes_eq, Option, OnOk, OnErr, IfOk, IfErr, Some, None, slice_get};
ghost use Rattle.nif_base.specs.Node as node;
ghost use Rattle.nif_base.specs.Node.{Node, Members, End};
ghost use Rattle.nif_cells.specs.Building.{InGroup};
ghost use Rattle.nif_schema.specs.Declaration as plain;
ghost use Rattle.nif_schema.specs.Declaration.{field};
ghost use Rattle.nif_schema.specs.Schema.{Schema, IsSchema, find};
ghost use Rattle.nif_schema.specs.Roles.{Roles};
ghost use Rattle.nif_layout.specs.Earlier.{Env};
ghost use Rattle.nif_stream.specs.declared.takers.Taker as takers;
ghost use Rattle.nif_stream.specs.Taking.{IsSound, place_of};
ghost use Rattle.nif_scope.specs.declared.entries.Entry.{Entry};
ghost use Rattle.nif_decode.specs.Scopes.{AreKept, member_at};
ghost use Rattle.nif_file.specs.Head.{inner_number};
ghost use Rattle.nif_file.specs.Files.{header_line};
ghost use Rattle.nif_file.specs.HeaderReading.{HasNoHeader, IsNoted, Notes, ReadsHeader, StandsAt, fault_of};

use crate::faults::FileFault;
use crate::heads::{Head, is_name, version_of_line};
use crate::places::{place_of, role_places};
use nif_base::{NoMemory, Source};
use nif_decode::{Bounds, Scope, ValueFault, decode_line, decode_members};
use nif_graph::RolePlaces;
use nif_schema::{Context, Field, Schema};
use nif_stream::Taker;
use nif_uses::named;
use nif_value::{Store, TreeId};
use std::alloc::Global;

/// A header that was read.
#[derive(Debug, Drop, Clone, Copy)]
pub struct Header {
    /// The tree of its members.
    pub tree: TreeId,
    /// Where the members stand that say something of the blocks.
    pub places: RolePlaces,
    /// What decides how the blocks and the footer are read.
    pub context: Context,
    /// The numbers of blocks and of strings, and how many nodes the file has so far.
    pub bounds: Bounds,
}

/// The fault of a value as one of a file.
pub fn of_value(fault: ValueFault) -> FileFault
    ensures { result ≡ fault_of fault }
{
    match fault {
        ValueFault::Ended { at } => FileFault::Ended { at },
        ValueFault::TooLong => FileFault::TooLong,
        ValueFault::LineTooLong { at } => FileFault::LineTooLong { at },
        ValueFault::RefRange { at, value } => FileFault::RefRange { at, value },
        ValueFault::StringRange { at, value } => FileFault::StringRange { at, value },
        ValueFault::TooDeep { at } => FileFault::TooDeep { at },
        ValueFault::TooManyNodes { at } => FileFault::TooManyNodes { at },
        ValueFault::ReadFault => FileFault::ReadFault,
        ValueFault::NoMemory => FileFault::NoMemory,
    }
}

/// Begins a tree with a group.
fn begin(store: &mut Store) -> Result<(), NoMemory>
    requires { store.old.building ≡ None }
    ensures trees { store.new.trees ≡ store.old.trees }
    ensures ok { OnOk result (store.new.building ≡ Some (record { top = None; levels = InGroup node.End ∷ [] })) }
    ensures err { OnErr result (store.new.building ≡ None) }
{
    match store.begin() {
        Ok(()) => {}
        Err(NoMemory) => return Err(NoMemory),
    }
    match store.open_group() {
        Ok(()) => Ok(()),
        Err(NoMemory) => {
            store.abandon();
            Err(NoMemory)
        }
    }
}

/// Reads the line, the first member of the group that was begun.
fn read_line<S: Source>(
    scope: &mut Scope,
    taker: &mut Taker<'_, S>,
    store: &mut Store,
    bounds: &mut Bounds,
) -> Result<Head, FileFault>
    requires sound { IsSound taker.old }
    requires scope { scope.old ≡ [] }
    requires nodes { bounds.old.nodes ≡ 1 }
    requires building { store.old.building ≡ Some (record { top = None; levels = InGroup node.End ∷ [] }) }
    ensures trees { store.new.trees ≡ store.old.trees }
    ensures blocks { bounds.new.blocks ≡ bounds.old.blocks }
    ensures strings { bounds.new.strings ≡ bounds.old.strings }
    ensures ok { IfOk result (λ head. (schema : Schema) (header : ℕ) → IsSchema schema → Roles schema
        → find schema (codes "Header") ≡ Some header → place_of taker.old ≡ 0
        → StandsAt S.left S.still S.read_faults schema header 1 taker.old taker.new scope.new store.new.building bounds.new.nodes head) }
    ensures err { IfErr result (λ fault. (schema : Schema) → IsSchema schema → Roles schema → place_of taker.old ≡ 0
        → HasNoHeader S.left S.still S.read_faults schema taker.old taker.new fault) }
    ensures building { OnErr result (store.new.building ≡ None) }
{
    let mut line = [0; 255];
    let length = match decode_line(scope, &mut line, taker, store, bounds) {
        Ok(length) => length,
        Err(fault) => return Err(of_value(fault)),
    };
    match version_of_line(&line[..length]) {
        Ok(version) => Ok(Head::new(version)),
        Err(fault) => {
            store.abandon();
            Err(fault)
        }
    }
}

/// The number of `BS Version` in `BS Header`, where the member is that; else 0.
fn inner_number(schema: &Schema, of: &Field, place: u32, scope: &Scope) -> u64
    ensures { (header : ℕ) (held : Members) (at : Node) → IsSchema schema.now → Roles schema.now
        → find schema.now (codes "Header") ≡ Some header
        → slice_get (header_line schema.now) place ≡ Some (field of.now)
        → AreKept schema.now header (place + 1) scope.now held → member_at held place ≡ Some at
        → bytes_eq (codes "BS Header") of.now.name ≡ true
        → result ≡ inner_number schema.now (codes "BS Version") (field of.now) at }
{
    if !is_name(b"BS Header".as_slice(), of.name.bytes()) {
        return 0;
    }
    let Some(number) = named(schema, &of.kind) else {
        return 0;
    };
    let Some(inner) = place_of(&schema.decl(number).fields, b"BS Version".as_slice()) else {
        return 0;
    };
    scope.number_at(place, Some(inner)).unwrap_or(0)
}

/// Tells of a member that was read, and says why it is refused, if it is.
fn note(
    schema: &Schema,
    header: u32,
    place: u32,
    scope: &Scope,
    head: &mut Head,
) -> Option<FileFault>
    requires is { IsSchema schema.now }
    requires roles { Roles schema.now }
    requires header { find schema.now (codes "Header") ≡ Some header }
    requires noted { (E : Env) × (f : plain.Field) × (got : Option Node)
        × (slice_get (header_line schema.now) place ≡ Some f)
        × IsNoted schema.now header place E f got scope.now head.old }
    ensures { (E : Env) (f : plain.Field) (got : Option Node) → slice_get (header_line schema.now) place ≡ Some f
        → IsNoted schema.now header place E f got scope.now head.old
        → Notes schema.now E f got head.new result }
{
    if !scope.is_present(place) {
        return None;
    }
    let of = schema.decl(header).fields.get(place);
    let name = of.name.bytes();
    let number = scope.number_at(place, None).unwrap_or(0);
    let inner = inner_number(schema, of, place, scope);
    head.add(name, number, inner);
    head.refusal(name, number)
}

/// Reads the next member behind those that were read, and checks it.
fn read_next<S: Source>(
    alloc: Global,
    schema: &Schema,
    header: u32,
    place: u32,
    head: &mut Head,
    scope: &mut Scope,
    taker: &mut Taker<'_, S>,
    store: &mut Store,
    bounds: &mut Bounds,
) -> Result<(), FileFault>
    requires is { IsSchema schema.now }
    requires roles { Roles schema.now }
    requires header { find schema.now (codes "Header") ≡ Some header }
    requires within { place < length (header_line schema.now) }
    requires next { place + 1 < 2 ^ 32 }
    requires none { (bounds.old.blocks ≡ 0) × (bounds.old.strings ≡ 0) }
    requires stands { (start : takers.Taker S) × StandsAt S.left S.still S.read_faults schema.now header place start taker.old scope.old store.old.building bounds.old.nodes head.old }
    ensures trees { store.new.trees ≡ store.old.trees }
    ensures blocks { bounds.new.blocks ≡ bounds.old.blocks }
    ensures strings { bounds.new.strings ≡ bounds.old.strings }
    ensures ok { OnOk result ((start : takers.Taker S) → StandsAt S.left S.still S.read_faults schema.now header place start taker.old scope.old store.old.building bounds.old.nodes head.old
        → StandsAt S.left S.still S.read_faults schema.now header
        (place + 1) start taker.new scope.new store.new.building bounds.new.nodes head.new) }
    ensures err { IfErr result (λ fault. (start : takers.Taker S) → StandsAt S.left S.still S.read_faults schema.now header place start taker.old scope.old store.old.building bounds.old.nodes head.old
        → HasNoHeader S.left S.still S.read_faults schema.now start taker.new fault) }
    ensures building { OnErr result (store.new.building ≡ None) }
{
    match decode_members(
        alloc,
        schema,
        head.context(),
        header,
        place,
        place + 1,
        scope,
        taker,
        store,
        bounds,
    ) {
        Ok(()) => {}
        Err(fault) => return Err(of_value(fault)),
    }
    match note(schema, header, place, scope, head) {
        None => Ok(()),
        Some(fault) => {
            store.abandon();
            Err(fault)
        }
    }
}

/// Reads the members behind the line.
fn read_members<S: Source>(
    alloc: Global,
    schema: &Schema,
    header: u32,
    head: &mut Head,
    scope: &mut Scope,
    taker: &mut Taker<'_, S>,
    store: &mut Store,
    bounds: &mut Bounds,
) -> Result<(), FileFault>
    requires is { IsSchema schema.now }
    requires roles { Roles schema.now }
    requires header { find schema.now (codes "Header") ≡ Some header }
    requires none { (bounds.old.blocks ≡ 0) × (bounds.old.strings ≡ 0) }
    requires stands { (start : takers.Taker S) × StandsAt S.left S.still S.read_faults schema.now header 1 start taker.old scope.old store.old.building bounds.old.nodes head.old }
    ensures trees { store.new.trees ≡ store.old.trees }
    ensures ok { OnOk result ((start : takers.Taker S) → StandsAt S.left S.still S.read_faults schema.now header 1 start taker.old scope.old store.old.building bounds.old.nodes head.old
        → StandsAt S.left S.still S.read_faults schema.now header
        (length (header_line schema.now)) start taker.new scope.new store.new.building bounds.new.nodes head.new) }
    ensures err { IfErr result (λ fault. (start : takers.Taker S) → StandsAt S.left S.still S.read_faults schema.now header 1 start taker.old scope.old store.old.building bounds.old.nodes head.old
        → HasNoHeader S.left S.still S.read_faults schema.now start taker.new fault) }
    ensures building { OnErr result (store.new.building ≡ None) }
{
    for place in 1..schema.decl(header).fields.len() {
        match read_next(
            alloc, schema, header, place, head, scope, taker, store, bounds,
        ) {
            Ok(()) => {}
            Err(fault) => return Err(fault),
        }
    }
    Ok(())
}

/// Reads the line and the members behind it, into the group that was begun.
fn read_all<S: Source>(
    alloc: Global,
    schema: &Schema,
    header: u32,
    taker: &mut Taker<'_, S>,
    store: &mut Store,
    bounds: &mut Bounds,
) -> Result<Head, FileFault>
    requires is { IsSchema schema.now }
    requires roles { Roles schema.now }
    requires header { find schema.now (codes "Header") ≡ Some header }
    requires sound { IsSound taker.old }
    requires first { place_of taker.old ≡ 0 }
    requires none { (bounds.old.blocks ≡ 0) × (bounds.old.strings ≡ 0) }
    requires nodes { bounds.old.nodes ≡ 1 }
    requires building { store.old.building ≡ Some (record { top = None; levels = InGroup node.End ∷ [] }) }
    ensures trees { store.new.trees ≡ store.old.trees }
    ensures ok { IfOk result (λ head. (entries : List Entry)
        × StandsAt S.left S.still S.read_faults schema.now header
        (length (header_line schema.now)) taker.old taker.new entries store.new.building bounds.new.nodes head) }
    ensures err { IfErr result
        (λ fault. HasNoHeader S.left S.still S.read_faults schema.now taker.old taker.new fault) }
    ensures building { OnErr result (store.new.building ≡ None) }
{
    let mut scope = Scope::new(alloc);
    let mut head = match read_line(&mut scope, taker, store, bounds) {
        Ok(head) => head,
        Err(fault) => return Err(fault),
    };
    match read_members(
        alloc, schema, header, &mut head, &mut scope, taker, store, bounds,
    ) {
        Ok(()) => Ok(head),
        Err(fault) => Err(fault),
    }
}

/// Reads the header of a file, from its first byte, into a new tree. Its first fault is answered exactly where it has
/// one (`docs/FILES.md` says each), `ReadFault` only where a read failed in this call, and `NoMemory` where memory ran
/// out. After a fault the tree that was begun is dropped, no other has changed, and the taker may have moved.
pub fn read_header<S: Source>(
    alloc: Global,
    schema: &Schema,
    header: u32,
    taker: &mut Taker<'_, S>,
    store: &mut Store,
) -> Result<Header, FileFault>
    requires roles { Roles schema.now }
    requires header { find schema.now (codes "Header") ≡ Some header }
    requires sound { IsSound taker.old }
    requires first { place_of taker.old ≡ 0 }
    requires building { store.old.building ≡ None }
    ensures building { store.new.building ≡ None }
    ensures reads { ReadsHeader S.left S.still S.read_faults schema.now taker.old taker.new store.old store.new result }
{
    // The contract of `count` says that the names of a schema are different, and its basics of their kinds.
    let _declarations = schema.count();
    match begin(store) {
        Ok(()) => {}
        Err(NoMemory) => return Err(FileFault::NoMemory),
    }
    let mut bounds = Bounds {
        blocks: 0,
        strings: 0,
        nodes: 1,
    };
    let head = match read_all(alloc, schema, header, taker, store, &mut bounds) {
        Ok(head) => head,
        Err(fault) => return Err(fault),
    };
    if head.lacks_types() {
        store.abandon();
        return Err(FileFault::NoTypeList);
    }
    store.close();
    Ok(Header {
        tree: store.finish(),
        places: role_places(schema, header),
        context: head.context(),
        bounds: Bounds {
            blocks: head.blocks,
            strings: head.strings,
            nodes: bounds.nodes,
        },
    })
}
