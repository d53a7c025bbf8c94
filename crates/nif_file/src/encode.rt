//! Whole files, written from their graphs.
ghost use Rattle.std.specs.Prelude.{◌≡◌, ◌<◌, length, OnOk, OnErr, Some, slice_get};
ghost use Rattle.std.specs.List.{flat_map};
ghost use Rattle.nif_base.specs.Graph.{Named};
ghost use Rattle.nif_base.specs.Outside.{HasCause};
ghost use Rattle.nif_schema.specs.Roles.{Roles};
ghost use Rattle.nif_stream.specs.Putting.{HasTaken, IsSound, Puts, Fails};
ghost use Rattle.nif_value.specs.Trees.{IsLive};
ghost use Rattle.nif_graph.specs.Written.{numbered};
ghost use Rattle.nif_file.specs.Files.{text_of, name_of, name_where, has_zero_word, zero_where};
ghost use Rattle.nif_file.specs.GraphOf.{IsWhole};
ghost use Rattle.nif_file.specs.PartsText.{CanPut, block_part, graph_text, placed_text};

use crate::encode_header::{put_header, put_sized};
use crate::versions::has_zero_word;
use nif_base::{Order, Sink, Version, WriteFault};
use nif_encode::{Targets, encode_value};
use nif_graph::Graph;
use nif_schema::Schema;
use nif_stream::Putter;
use nif_value::TreeId;

/// Puts a tree of a graph, each target as the place of its block.
fn put_tree<K: Sink>(graph: &Graph, tree: TreeId, out: &mut Putter<'_, K>) -> Result<(), WriteFault>
    requires { IsLive graph.now.trees tree.run.key }
    ensures ok { OnOk result (Puts K.grew K.write_faults out.old (placed_text graph.now tree) out.new) }
    ensures err { OnErr result (Fails K.grew K.write_faults out.old (placed_text graph.now tree) out.new) }
{
    let to = Targets {
        order: graph.context().order,
        places: graph.places_of_names(),
    };
    encode_value(graph.store(), tree, &to, out)
}

/// Puts the name of a type before a block, where the file isn't indexed.
fn put_name<K: Sink>(
    schema: &Schema,
    kind: u32,
    index_word: Option<u16>,
    order: Order,
    out: &mut Putter<'_, K>,
) -> Result<(), WriteFault>
    requires kind { kind < length schema.now }
    requires sound { IsSound out.old }
    ensures ok { OnOk result (Puts K.grew K.write_faults out.old
        (name_where index_word order (name_of schema.now kind)) out.new) }
    ensures err { OnErr result (Fails K.grew K.write_faults out.old
        (name_where index_word order (name_of schema.now kind)) out.new) }
{
    match index_word {
        Some(_) => Ok(()),
        None => put_sized(schema.decl(kind).name.bytes(), order, out),
    }
}

/// Puts the zero word, where the version has it.
fn put_zero_word<K: Sink>(version: Version, out: &mut Putter<'_, K>) -> Result<(), WriteFault>
    requires { IsSound out.old }
    ensures ok { OnOk result (Puts K.grew K.write_faults out.old (zero_where (has_zero_word version.number)) out.new) }
    ensures err { OnErr result (Fails K.grew K.write_faults out.old
        (zero_where (has_zero_word version.number)) out.new) }
{
    if has_zero_word(version) {
        return out.put(&[0; 4]);
    }
    Ok(())
}

/// Puts the block at a place.
fn put_block<K: Sink>(
    schema: &Schema,
    graph: &Graph,
    place: u32,
    out: &mut Putter<'_, K>,
) -> Result<(), WriteFault>
    requires place { place < length graph.now.graph.blocks }
    requires can { CanPut schema.now graph.now }
    requires sound { IsSound out.old }
    ensures ok { OnOk result ((b : Named) → slice_get graph.now.graph.blocks place ≡ Some b
        → Puts K.grew K.write_faults out.old (block_part schema.now graph.now.graph b) out.new) }
    ensures err { OnErr result ((b : Named) → slice_get graph.now.graph.blocks place ≡ Some b
        → Fails K.grew K.write_faults out.old (block_part schema.now graph.now.graph b) out.new) }
{
    let name = graph.name_at(place);
    let kind = graph.type_of(name);
    let context = *graph.context();
    match put_name(schema, kind, graph.index_word(name), context.order, out) {
        Ok(()) => {}
        Err(WriteFault) => return Err(WriteFault),
    }
    match put_zero_word(context.version, out) {
        Ok(()) => {}
        Err(WriteFault) => return Err(WriteFault),
    }
    put_tree(graph, graph.tree_of(name), out)
}

/// Puts the blocks.
fn put_blocks<K: Sink>(
    schema: &Schema,
    graph: &Graph,
    out: &mut Putter<'_, K>,
) -> Result<(), WriteFault>
    requires can { CanPut schema.now graph.now }
    requires sound { IsSound out.old }
    ensures ok { OnOk result (Puts K.grew K.write_faults out.old
        (flat_map (block_part schema.now graph.now.graph) graph.now.graph.blocks) out.new) }
    ensures err { OnErr result (Fails K.grew K.write_faults out.old
        (flat_map (block_part schema.now graph.now.graph) graph.now.graph.blocks) out.new) }
{
    for place in 0..graph.count() {
        match put_block(schema, graph, place, out) {
            Ok(()) => {}
            Err(WriteFault) => return Err(WriteFault),
        }
    }
    Ok(())
}

/// Puts the header, the blocks and the footer.
fn put_graph<K: Sink>(
    schema: &Schema,
    graph: &Graph,
    out: &mut Putter<'_, K>,
) -> Result<(), WriteFault>
    requires can { CanPut schema.now graph.now }
    requires sound { IsSound out.old }
    ensures ok { OnOk result (Puts K.grew K.write_faults out.old (graph_text schema.now graph.now) out.new) }
    ensures err { OnErr result (Fails K.grew K.write_faults out.old (graph_text schema.now graph.now) out.new) }
{
    match put_header(schema, graph, out) {
        Ok(()) => {}
        Err(WriteFault) => return Err(WriteFault),
    }
    match put_blocks(schema, graph, out) {
        Ok(()) => {}
        Err(WriteFault) => return Err(WriteFault),
    }
    put_tree(graph, graph.footer_tree(), out)
}

/// Writes the header, the blocks and the footer.
fn write_graph<K: Sink>(schema: &Schema, graph: &Graph, sink: &mut K) -> Result<(), WriteFault>
    requires { CanPut schema.now graph.now }
    ensures ok { OnOk result (K.grew sink.old (graph_text schema.now graph.now) sink.new) }
    ensures err { OnErr result (HasTaken K.grew sink.old sink.new (graph_text schema.now graph.now)) }
    ensures cause { HasCause (K.write_faults sink.old) (K.write_faults sink.new) result }
{
    let mut out = Putter::new(sink);
    put_graph(schema, graph, &mut out)?;
    out.finish()
}

/// Writes the bytes of the file that the graph stands for (`docs/FILES.md`): each target as the place of its block, the
/// counts, the names of types, the index and the sizes from the graph, and all else as it was read. It takes no memory.
/// A fault comes only where the sink's count of failed writes rose in this call, and then the sink has a prefix of the
/// bytes.
pub fn encode_file<K: Sink>(schema: &Schema, graph: &Graph, sink: &mut K) -> Result<(), WriteFault>
    requires roles { Roles schema.now }
    requires whole { IsWhole schema.now graph.now }
    ensures ok { OnOk result (K.grew sink.old
        (text_of schema.now (numbered graph.now.places graph.now.graph)) sink.new) }
    ensures err { OnErr result (HasTaken K.grew sink.old sink.new
        (text_of schema.now (numbered graph.now.places graph.now.graph))) }
    ensures cause { HasCause (K.write_faults sink.old) (K.write_faults sink.new) result }
{
    // The contract of `count` says that the names of a schema are different, and its basics of their kinds.
    let _declarations = schema.count();
    write_graph(schema, graph, sink)
}
