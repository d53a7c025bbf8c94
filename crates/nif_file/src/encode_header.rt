//! The header of a graph: what the graph tells of its blocks, and all other members as they were read.
ghost use Rattle.std.specs.Prelude.{◌≡◌, ◌+◌, ◌-◌, ◌<◌, ◌≤◌, ◌^◌, ◌++◌, ◌||◌, ℕ, length, codes, map, OnOk, OnErr, IsSome, None, Some, slice_get, unwrap_or};
ghost use Rattle.std.specs.List.{flat_map};
ghost use Rattle.nif_base.specs.Graph.{Named};
ghost use Rattle.nif_base.specs.Node.{Members, number, is_little, size};
ghost use Rattle.nif_cells.specs.Walks.{count};
ghost use Rattle.nif_schema.specs.Declaration.{field};
ghost use Rattle.nif_schema.specs.Schema.{find};
ghost use Rattle.nif_schema.specs.Roles.{header_fields};
ghost use Rattle.nif_stream.specs.Putting.{IsSound, Puts, Fails};
ghost use Rattle.nif_graph.specs.Written.{is_indexed};
ghost use Rattle.nif_file.specs.Files.{sized_string};
ghost use Rattle.nif_file.specs.PartsText.{CanPut, WalksHeader, count_text, header_part, is_absent, members_text, number_form, telling_at, telling_text, up_to, written_header};

use crate::places::place_of;
use nif_base::{Order, Sink, WriteFault};
use nif_encode::{Targets, member_step, put_number, put_one};
use nif_graph::{Graph, RolePlaces};
use nif_schema::{Fields, Schema};
use nif_stream::Putter;
use nif_value::{Step, Walk};

/// What the graph tells at a member of the header: a count of blocks or types, or a list of them.
#[derive(Drop, Clone, Copy)]
pub(crate) enum Telling {
    Blocks,
    Sizes,
    TypeCount,
    Types,
    Index,
}

/// What the graph tells at a member, if it tells anything there.
fn telling_at(places: &RolePlaces, indexed: bool, member: u32) -> Option<Telling>
    ensures { result ≡ telling_at places.now indexed member }
{
    if member == places.num_blocks {
        return Some(Telling::Blocks);
    }
    if places.sizes == Some(member) {
        return Some(Telling::Sizes);
    }
    if !indexed {
        return None;
    }
    if places.num_types == Some(member) {
        return Some(Telling::TypeCount);
    }
    if places.types == Some(member) {
        return Some(Telling::Types);
    }
    if places.index == Some(member) {
        return Some(Telling::Index);
    }
    None
}

/// Whether the lowest byte of a number comes first.
fn is_little(order: Order) -> bool
    ensures { result ≡ is_little order }
{
    order == Order::Little
}

/// Whether a step is that of an absent member.
fn is_absent(step: Step) -> bool
    ensures { result ≡ is_absent step }
{
    match step {
        Step::Absent => true,
        _ => false,
    }
}

/// The width of a number in bytes, and whether it is little in every file; those of a `uint` where a step is none.
fn number_form(step: Step) -> (u8, bool)
    ensures { result ≡ number_form step }
{
    match step {
        Step::Num { width, little, .. } => (width, little),
        _ => (4, false),
    }
}

/// Puts a number in place of the one that a step gives.
fn put_count<K: Sink>(
    count: u32,
    first: Step,
    order: Order,
    out: &mut Putter<'_, K>,
) -> Result<(), WriteFault>
    ensures ok { OnOk result (Puts K.grew K.write_faults out.old (count_text count first order) out.new) }
    ensures err { OnErr result (Fails K.grew K.write_faults out.old (count_text count first order) out.new) }
{
    let (width, little) = number_form(first);
    put_number(little || is_little(order), width, count as u64, out)
}

/// Puts a sized string.
#[tactic(auto, using(nif_stream::specs::PutterLaws::puts))]
pub(crate) fn put_sized<K: Sink>(
    bytes: &[u8],
    order: Order,
    out: &mut Putter<'_, K>,
) -> Result<(), WriteFault>
    ensures ok { OnOk result (Puts K.grew K.write_faults out.old (sized_string order bytes.now) out.new) }
    ensures err { OnErr result (Fails K.grew K.write_faults out.old (sized_string order bytes.now) out.new) }
{
    put_number(order == Order::Little, 4, bytes.len() as u64, out)?;
    out.put(bytes)
}

/// Puts the length of the value of each block.
fn put_sizes<K: Sink>(
    graph: &Graph,
    order: Order,
    out: &mut Putter<'_, K>,
) -> Result<(), WriteFault>
    requires { IsSound out.old }
    ensures ok { OnOk result (Puts K.grew K.write_faults out.old
        (flat_map (λ (b : Named). number (is_little order) 4 (size b.block.node)) graph.now.graph.blocks) out.new) }
    ensures err { OnErr result (Fails K.grew K.write_faults out.old
        (flat_map (λ (b : Named). number (is_little order) 4 (size b.block.node)) graph.now.graph.blocks) out.new) }
{
    let little = is_little(order);
    for place in 0..graph.count() {
        let tree = graph.tree_of(graph.name_at(place));
        let len = graph.store().bytes_of(tree);
        match put_number(little, 4, len as u64, out) {
            Ok(()) => {}
            Err(WriteFault) => return Err(WriteFault),
        }
    }
    Ok(())
}

/// Puts the entry of each block in the index of types.
fn put_words<K: Sink>(
    graph: &Graph,
    order: Order,
    out: &mut Putter<'_, K>,
) -> Result<(), WriteFault>
    requires { IsSound out.old }
    ensures ok { OnOk result (Puts K.grew K.write_faults out.old (flat_map
        (λ (b : Named). number (is_little order) 2 (unwrap_or b.block.index 0)) graph.now.graph.blocks) out.new) }
    ensures err { OnErr result (Fails K.grew K.write_faults out.old (flat_map
        (λ (b : Named). number (is_little order) 2 (unwrap_or b.block.index 0)) graph.now.graph.blocks) out.new) }
{
    let little = is_little(order);
    for place in 0..graph.count() {
        let word = graph.index_word(graph.name_at(place)).unwrap_or(0);
        match put_number(little, 2, word as u64, out) {
            Ok(()) => {}
            Err(WriteFault) => return Err(WriteFault),
        }
    }
    Ok(())
}

/// Puts the names of the types.
fn put_types<K: Sink>(
    graph: &Graph,
    order: Order,
    out: &mut Putter<'_, K>,
) -> Result<(), WriteFault>
    requires { IsSound out.old }
    ensures ok { OnOk result (Puts K.grew K.write_faults out.old
        (flat_map (sized_string order) graph.now.graph.types) out.new) }
    ensures err { OnErr result (Fails K.grew K.write_faults out.old
        (flat_map (sized_string order) graph.now.graph.types) out.new) }
{
    for k in 0..graph.entries() {
        match put_sized(graph.entry(k).bytes(), order, out) {
            Ok(()) => {}
            Err(WriteFault) => return Err(WriteFault),
        }
    }
    Ok(())
}

/// Puts what the graph tells at a member that is there, whose first step is given.
fn put_telling<K: Sink>(
    graph: &Graph,
    telling: Telling,
    first: Step,
    order: Order,
    out: &mut Putter<'_, K>,
) -> Result<(), WriteFault>
    requires { IsSound out.old }
    ensures ok { OnOk result (Puts K.grew K.write_faults out.old
        (telling_text graph.now.graph telling first order) out.new) }
    ensures err { OnErr result (Fails K.grew K.write_faults out.old
        (telling_text graph.now.graph telling first order) out.new) }
{
    match telling {
        Telling::Blocks => put_count(graph.count(), first, order, out),
        Telling::Sizes => put_sizes(graph, order, out),
        Telling::TypeCount => put_count(graph.entries(), first, order, out),
        Telling::Types => put_types(graph, order, out),
        Telling::Index => put_words(graph, order, out),
    }
}

/// Puts a member of the header, which the walk meets next.
fn put_member<K: Sink>(
    graph: &Graph,
    member: u32,
    order: Order,
    walk: &mut Walk<'_>,
    out: &mut Putter<'_, K>,
) -> Result<(), WriteFault>
    requires sound { IsSound out.old }
    requires walks { (members : Members) × (member < count members) × WalksHeader graph.now members member walk.old.ahead }
    ensures walks { OnOk result ((members : Members) → WalksHeader graph.now members member walk.old.ahead
        → WalksHeader graph.now members (member + 1) walk.new.ahead) }
    ensures ok { OnOk result (Puts K.grew K.write_faults out.old
        (members_text order member (member + 1) (written_header graph.now)) out.new) }
    ensures err { OnErr result (Fails K.grew K.write_faults out.old
        (members_text order member (member + 1) (written_header graph.now)) out.new) }
{
    let Some(telling) = telling_at(graph.places(), graph.is_indexed(), member) else {
        let to = Targets {
            order,
            places: graph.places_of_names(),
        };
        return put_one(walk, &to, out);
    };
    let Some(first) = member_step(walk) else {
        return Ok(());
    };
    if is_absent(first) {
        return Ok(());
    }
    put_telling(graph, telling, first, order, out)
}

/// Puts members of the header from one on, up to another, which is not put.
fn put_members<K: Sink>(
    graph: &Graph,
    from: u32,
    to: u32,
    order: Order,
    walk: &mut Walk<'_>,
    out: &mut Putter<'_, K>,
) -> Result<(), WriteFault>
    requires sound { IsSound out.old }
    requires range { from ≤ to }
    requires walks { (members : Members) × (to ≤ count members) × WalksHeader graph.now members from walk.old.ahead }
    ensures walks { OnOk result ((members : Members) → WalksHeader graph.now members from walk.old.ahead
        → WalksHeader graph.now members to walk.new.ahead) }
    ensures ok { OnOk result (Puts K.grew K.write_faults out.old
        (members_text order from to (written_header graph.now)) out.new) }
    ensures err { OnErr result (Fails K.grew K.write_faults out.old
        (members_text order from to (written_header graph.now)) out.new) }
{
    for member in from..to {
        match put_member(graph, member, order, walk, out) {
            Ok(()) => {}
            Err(WriteFault) => return Err(WriteFault),
        }
    }
    Ok(())
}

/// How many fields stand up to and with the first of a name, all where there is none.
fn up_to(fields: &Fields, name: &[u8]) -> u32
    ensures { result ≡ up_to name.now (map field fields.now) }
{
    let all = fields.len();
    match place_of(fields, name) {
        Some(place) => place + 1,
        None => all,
    }
}

/// How many members of the header stand before the order of the file holds, and how many there are.
fn header_counts(schema: &Schema) -> (u32, u32)
    requires { IsSome (find schema.now (codes "Header")) }
    ensures front { result.0 ≡ up_to (codes "Endian Type") (header_fields schema.now) }
    ensures all { result.1 ≡ length (header_fields schema.now) }
{
    let Some(number) = schema.find(b"Header") else {
        unreachable!()
    };
    let fields = &schema.decl(number).fields;
    (up_to(fields, b"Endian Type"), fields.len())
}

/// Puts the header: its members up to and with `Endian Type` little, the others in the order of the file.
pub(crate) fn put_header<K: Sink>(
    schema: &Schema,
    graph: &Graph,
    out: &mut Putter<'_, K>,
) -> Result<(), WriteFault>
    requires can { CanPut schema.now graph.now }
    requires sound { IsSound out.old }
    ensures ok { OnOk result (Puts K.grew K.write_faults out.old
        (header_part (header_fields schema.now) graph.now.graph.origin.order (written_header graph.now)) out.new) }
    ensures err { OnErr result (Fails K.grew K.write_faults out.old
        (header_part (header_fields schema.now) graph.now.graph.origin.order (written_header graph.now)) out.new) }
{
    let (front, all) = header_counts(schema);
    let mut walk = graph.store().walk(graph.header_tree());
    let _group = walk.next();
    match put_members(graph, 0, front, Order::Little, &mut walk, out) {
        Ok(()) => {}
        Err(WriteFault) => return Err(WriteFault),
    }
    put_members(graph, front, all, graph.context().order, &mut walk, out)
}
