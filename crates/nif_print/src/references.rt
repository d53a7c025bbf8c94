//! What is printed of the references of a graph.
ghost use Rattle.std.specs.Prelude.{◌≡◌, ◌<◌, ◌++◌, ℕ, true, List, [], ◌∷◌, length, codes, decimal, None, Some, IfSome, OnOk, OnErr, option_and_then, slice_get};
ghost use Rattle.nif_base.specs.Node.{refs as refs_of};
ghost use Rattle.nif_stream.specs.Putting.{IsSound, Puts, Fails};
ghost use Rattle.nif_value.specs.Trees.{reference_of};
ghost use Rattle.nif_graph.specs.Graph.{is_live, kind_of, reference};
ghost use Rattle.nif_graph.specs.Reach.{DeclaresTypes};
ghost use Rattle.nif_print.specs.References.{block_lines, by_number, from_text, line_of, reference_line, reference_lines, reference_words, refs_text, strength_text, target_text, verdict_text, wanted_text};

use crate::numbers::{put_counted, put_decimal};
use nif_base::{Sink, WriteFault};
use nif_check::Checked;
use nif_graph::Graph;
use nif_schema::Schema;
use nif_stream::Putter;
use nif_value::RefView;

/// How strong a reference is.
fn strength(strong: bool) -> &'static [u8]
    ensures { result.now ≡ strength_text strong }
{
    if strong { b"strong" } else { b"weak" }
}

/// Whether a reference is well typed.
fn verdict(ok: bool) -> &'static [u8]
    ensures { result.now ≡ verdict_text ok }
{
    if ok { b"ok" } else { b"wrong" }
}

/// The name of the type that is wanted.
fn wanted_name(schema: &Schema, wanted: Option<u32>) -> &[u8]
    requires { IfSome wanted (λ wanted. wanted < length schema.now) }
    ensures { result.now ≡ wanted_text schema.now wanted }
{
    match wanted {
        Some(wanted) => schema.decl(wanted).name.bytes(),
        None => b"any",
    }
}

/// Puts where a reference stands: in the block of a place, or in the footer.
fn put_from<K: Sink>(from: Option<u32>, out: &mut Putter<'_, K>) -> Result<(), WriteFault>
    requires { IsSound out.old }
    ensures ok { OnOk result (Puts K.grew K.write_faults out.old (from_text from) out.new) }
    ensures err { OnErr result (Fails K.grew K.write_faults out.old (from_text from) out.new) }
{
    match from {
        Some(block) => put_decimal(block as u64, out),
        None => out.put(b"roots"),
    }
}

/// Puts the place of the target of a reference.
fn put_target<K: Sink>(
    graph: &Graph,
    target: Option<u32>,
    out: &mut Putter<'_, K>,
) -> Result<(), WriteFault>
    requires { IsSound out.old }
    ensures ok { OnOk result (Puts K.grew K.write_faults out.old
        (target_text graph.now.graph.blocks target) out.new) }
    ensures err { OnErr result (Fails K.grew K.write_faults out.old
        (target_text graph.now.graph.blocks target) out.new) }
{
    let Some(name) = target else {
        return out.put(b"none");
    };
    match graph.place_of(name) {
        Some(place) => put_decimal(place as u64, out),
        None => out.put(b"none"),
    }
}

/// Puts a word and a blank.
fn put_word<K: Sink>(word: &[u8], out: &mut Putter<'_, K>) -> Result<(), WriteFault>
    requires { IsSound out.old }
    ensures ok { OnOk result (Puts K.grew K.write_faults out.old (word.now ++ codes " ") out.new) }
    ensures err { OnErr result (Fails K.grew K.write_faults out.old (word.now ++ codes " ") out.new) }
{
    match out.put(word) {
        Ok(()) => {}
        Err(WriteFault) => return Err(WriteFault),
    }
    out.put(b" ")
}

/// Puts where a reference stands and which one it is there, a blank behind each.
fn put_start<K: Sink>(from: Option<u32>, k: u32, out: &mut Putter<'_, K>) -> Result<(), WriteFault>
    requires { IsSound out.old }
    ensures ok { OnOk result (Puts K.grew K.write_faults out.old
        (from_text from ++ (codes " " ++ (decimal k ++ codes " "))) out.new) }
    ensures err { OnErr result (Fails K.grew K.write_faults out.old
        (from_text from ++ (codes " " ++ (decimal k ++ codes " "))) out.new) }
{
    match put_from(from, out) {
        Ok(()) => {}
        Err(WriteFault) => return Err(WriteFault),
    }
    match put_counted(b" ", k as u64, out) {
        Ok(()) => {}
        Err(WriteFault) => return Err(WriteFault),
    }
    out.put(b" ")
}

/// Puts the place of the target of a reference, whether it is of the wanted type, and a line end.
fn put_end<K: Sink>(
    graph: &Graph,
    target: Option<u32>,
    ok: bool,
    out: &mut Putter<'_, K>,
) -> Result<(), WriteFault>
    requires { IsSound out.old }
    ensures ok { OnOk result (Puts K.grew K.write_faults out.old
        (line_of (target_text graph.now.graph.blocks target ∷ verdict_text ok ∷ [])) out.new) }
    ensures err { OnErr result (Fails K.grew K.write_faults out.old
        (line_of (target_text graph.now.graph.blocks target ∷ verdict_text ok ∷ [])) out.new) }
{
    match put_target(graph, target, out) {
        Ok(()) => {}
        Err(WriteFault) => return Err(WriteFault),
    }
    match out.put(b" ") {
        Ok(()) => {}
        Err(WriteFault) => return Err(WriteFault),
    }
    match out.put(verdict(ok)) {
        Ok(()) => {}
        Err(WriteFault) => return Err(WriteFault),
    }
    out.put(b"\n")
}

/// Puts what a reference is, and a line end.
fn put_view<K: Sink>(
    schema: &Schema,
    graph: &Graph,
    view: RefView,
    out: &mut Putter<'_, K>,
) -> Result<(), WriteFault>
    requires sound { IsSound out.old }
    requires wanted { IfSome view.wanted (λ wanted. wanted < length schema.now) }
    requires found { IfSome (option_and_then (kind_of graph.now.graph) view.target) (λ kind. kind < length schema.now) }
    requires live { IfSome view.target (λ target. is_live target graph.now.graph.blocks ≡ true) }
    ensures ok { OnOk result (Puts K.grew K.write_faults out.old
        (line_of (reference_words schema.now graph.now.graph (reference_of view))) out.new) }
    ensures err { OnErr result (Fails K.grew K.write_faults out.old
        (line_of (reference_words schema.now graph.now.graph (reference_of view))) out.new) }
{
    match put_word(strength(view.strong), out) {
        Ok(()) => {}
        Err(WriteFault) => return Err(WriteFault),
    }
    match put_word(wanted_name(schema, view.wanted), out) {
        Ok(()) => {}
        Err(WriteFault) => return Err(WriteFault),
    }
    put_end(graph, view.target, graph.suits(schema, view), out)
}

/// Puts the line of reference k of the block of a place, or of the footer.
fn put_reference<K: Sink>(
    schema: &Schema,
    graph: &Graph,
    from: Option<u32>,
    k: u32,
    view: RefView,
    out: &mut Putter<'_, K>,
) -> Result<(), WriteFault>
    requires sound { IsSound out.old }
    requires wanted { IfSome view.wanted (λ wanted. wanted < length schema.now) }
    requires found { IfSome (option_and_then (kind_of graph.now.graph) view.target) (λ kind. kind < length schema.now) }
    requires live { IfSome view.target (λ target. is_live target graph.now.graph.blocks ≡ true) }
    ensures ok { OnOk result (Puts K.grew K.write_faults out.old
        (reference_line schema.now graph.now.graph from k (reference_of view)) out.new) }
    ensures err { OnErr result (Fails K.grew K.write_faults out.old
        (reference_line schema.now graph.now.graph from k (reference_of view)) out.new) }
{
    match put_start(from, k, out) {
        Ok(()) => {}
        Err(WriteFault) => return Err(WriteFault),
    }
    put_view(schema, graph, view, out)
}

/// Puts the lines of the references of a block.
fn put_block<K: Sink>(
    schema: &Schema,
    graph: &Graph,
    place: u32,
    out: &mut Putter<'_, K>,
) -> Result<(), WriteFault>
    requires sound { IsSound out.old }
    requires place { place < length graph.now.graph.blocks }
    requires declared { DeclaresTypes schema.now graph.now.graph }
    ensures ok { IfSome (slice_get graph.now.graph.blocks place) (λ b.
        OnOk result (Puts K.grew K.write_faults out.old (block_lines schema.now graph.now.graph place b) out.new)) }
    ensures err { IfSome (slice_get graph.now.graph.blocks place) (λ b.
        OnErr result (Fails K.grew K.write_faults out.old (block_lines schema.now graph.now.graph place b) out.new)) }
{
    let name = graph.name_at(place);
    for k in 0..graph.ref_count(name) {
        match put_reference(schema, graph, Some(place), k, graph.ref_at(name, k), out) {
            Ok(()) => {}
            Err(WriteFault) => return Err(WriteFault),
        }
    }
    Ok(())
}

/// Puts the lines of the references of all blocks in order.
fn put_blocks<K: Sink>(
    schema: &Schema,
    graph: &Graph,
    out: &mut Putter<'_, K>,
) -> Result<(), WriteFault>
    requires sound { IsSound out.old }
    requires declared { DeclaresTypes schema.now graph.now.graph }
    ensures ok { OnOk result (Puts K.grew K.write_faults out.old
        (by_number (block_lines schema.now graph.now.graph) 0 graph.now.graph.blocks) out.new) }
    ensures err { OnErr result (Fails K.grew K.write_faults out.old
        (by_number (block_lines schema.now graph.now.graph) 0 graph.now.graph.blocks) out.new) }
{
    for place in 0..graph.count() {
        match put_block(schema, graph, place, out) {
            Ok(()) => {}
            Err(WriteFault) => return Err(WriteFault),
        }
    }
    Ok(())
}

/// Puts the lines of the references of the footer.
fn put_roots<K: Sink>(
    schema: &Schema,
    graph: &Graph,
    out: &mut Putter<'_, K>,
) -> Result<(), WriteFault>
    requires sound { IsSound out.old }
    requires declared { DeclaresTypes schema.now graph.now.graph }
    ensures ok { OnOk result (Puts K.grew K.write_faults out.old
        (reference_lines schema.now graph.now.graph None (refs_of graph.now.graph.footer)) out.new) }
    ensures err { OnErr result (Fails K.grew K.write_faults out.old
        (reference_lines schema.now graph.now.graph None (refs_of graph.now.graph.footer)) out.new) }
{
    for k in 0..graph.root_count() {
        match put_reference(schema, graph, None, k, graph.root_at(k), out) {
            Ok(()) => {}
            Err(WriteFault) => return Err(WriteFault),
        }
    }
    Ok(())
}

/// Puts a line for each reference: of the blocks in order, and then of the footer. A line says where the reference
/// stands, its number there, whether it is strong or weak, the type that it wants, the place of its target, and whether
/// it is well typed. It takes no memory.
pub fn refs<K: Sink>(
    checked: &Checked,
    graph: &Graph,
    out: &mut Putter<'_, K>,
) -> Result<(), WriteFault>
    requires sound { IsSound out.old }
    requires declared { DeclaresTypes checked.now graph.now.graph }
    ensures ok { OnOk result (Puts K.grew K.write_faults out.old
        (refs_text checked.now graph.now.graph) out.new) }
    ensures err { OnErr result (Fails K.grew K.write_faults out.old
        (refs_text checked.now graph.now.graph) out.new) }
{
    let schema = checked.schema();
    match put_blocks(schema, graph, out) {
        Ok(()) => {}
        Err(WriteFault) => return Err(WriteFault),
    }
    put_roots(schema, graph, out)
}
