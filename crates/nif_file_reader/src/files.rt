//! A file: its header, its blocks, its footer, and nothing more.
ghost use Rattle.std.specs.Prelude.{◌≡◌, ◌≤◌, ℕ, [], None, IfOk, IfErr, OnOk};
ghost use Rattle.nif_base.specs.Outside.{IsAtEnd};
ghost use Rattle.nif_region.specs.Contents.{AreApart};
ghost use Rattle.nif_base.specs.File.{File};
ghost use Rattle.nif_base.specs.Node.{Members};
ghost use Rattle.nif_base.specs.Limits.{most_nodes, most_depth};
ghost use Rattle.nif_layout.specs.Fails.{Fails, Lifted};
ghost use Rattle.nif_stream.specs.Taking.{IsSound, Takes, left_of, place_of};
ghost use Rattle.nif_decode.specs.Answers.{IsReadyTaker, Went};
ghost use Rattle.nif_file.specs.GraphOf.{IsGraphOf};
ghost use Rattle.nif_graph.specs.Written.{numbered};
ghost use Rattle.nif_file.specs.Head.{file_context};
ghost use Rattle.nif_file.specs.Stops.{of_value};
ghost use Rattle.nif_file.specs.Files.{footer_kind, head_of};
ghost use Rattle.nif_file.specs.FileFails.{BodyFails, IsTrailing};
ghost use Rattle.nif_file_reader.specs.Halting.{Halts};
ghost use Rattle.nif_file_reader.specs.Known.{HasRest, Knows, ReadsFooter};
ghost use Rattle.nif_file_reader.specs.Answers.{AreRead, GetsFile, GetsParts, ReadsFile};

use crate::blocks::read_blocks;
use crate::types::Preamble;
use nif_base::{NoMemory, Source};
use nif_check::Checked;
use nif_decode::{Bounds, decode_value};
use nif_file::laws::graph_of_file;
use nif_file::{FileFault, of_value, read_header};
use nif_graph::{Blocks, Graph, GraphParts};
use nif_lists::read_lists;
use nif_stream::Taker;
use nif_value::{Store, TreeId};
use std::alloc::Global;

/// Reads the footer.
fn read_footer<S: Source>(
    alloc: Global,
    at: &Preamble<'_>,
    taker: &mut Taker<'_, S>,
    store: &mut Store,
    bounds: &mut Bounds,
) -> Result<TreeId, FileFault>
    requires ready { IsReadyTaker taker.old }
    requires counted { bounds.old.nodes ≤ most_nodes }
    requires building { store.old.building ≡ None }
    requires bounds { (bounds.old.blocks ≡ at.now.header.now.bounds.blocks)
        × (bounds.old.strings ≡ at.now.header.now.bounds.strings) }
    requires knows { (members : Members)
        × Knows at.now.checked.now members at.now.header.now at.now.lists.now store.old.trees }
    ensures building { store.new.building ≡ None }
    ensures ok { IfOk result (λ tree. (members : Members)
        → Knows at.now.checked.now members at.now.header.now at.now.lists.now store.old.trees
        → ReadsFooter S.left S.still S.read_faults at.now.checked.now members taker.old taker.new bounds.old.nodes bounds.new.nodes store.old store.new tree) }
    ensures err { IfErr result (λ fault. (members : Members)
        → Knows at.now.checked.now members at.now.header.now at.now.lists.now store.old.trees
        → Halts S.left S.still S.read_faults (λ total. Lifted (of_value total)
        (Fails at.now.checked.now (file_context at.now.checked.now (head_of at.now.checked.now members)) most_depth
        (footer_kind at.now.checked.now
        (head_of at.now.checked.now members)))) bounds.old.nodes taker.old taker.new fault) }
{
    match decode_value(
        alloc,
        at.checked.schema(),
        at.header.context,
        at.checked.footer(),
        taker,
        store,
        bounds,
    ) {
        Ok(tree) => Ok(tree),
        Err(fault) => Err(of_value(fault)),
    }
}

/// Sees that no byte follows.
fn end_file<S: Source>(taker: &mut Taker<'_, S>) -> Result<(), FileFault>
    requires { IsReadyTaker taker.old }
    ensures ok { OnOk result (Takes S.left S.still S.read_faults taker.old [] taker.new) }
    ensures end { OnOk result (IsAtEnd (left_of S.left taker.old)) }
    ensures err { IfErr result (λ fault. (nodes : ℕ)
        → Halts S.left S.still S.read_faults (λ total. IsTrailing) nodes taker.old taker.new fault) }
{
    let at = taker.place();
    match taker.at_end() {
        Ok(true) => Ok(()),
        Ok(false) => Err(FileFault::Trailing { at }),
        Err(_) => Err(FileFault::ReadFault),
    }
}

/// Reads all that stands behind the header: the blocks, the footer, and nothing more.
fn read_rest<S: Source>(
    alloc: Global,
    at: &Preamble<'_>,
    taker: &mut Taker<'_, S>,
    store: &mut Store,
    bounds: &mut Bounds,
) -> Result<(Blocks, TreeId), FileFault>
    requires ready { IsReadyTaker taker.old }
    requires counted { bounds.old.nodes ≤ most_nodes }
    requires building { store.old.building ≡ None }
    requires apart { AreApart store.old.trees }
    requires bounds { (bounds.old.blocks ≡ at.now.header.now.bounds.blocks)
        × (bounds.old.strings ≡ at.now.header.now.bounds.strings) }
    requires knows { (members : Members)
        × Knows at.now.checked.now members at.now.header.now at.now.lists.now store.old.trees }
    ensures building { store.new.building ≡ None }
    ensures ok { IfOk result (λ rest. (members : Members)
        → Knows at.now.checked.now members at.now.header.now at.now.lists.now store.old.trees
        → HasRest S.left S.still S.read_faults at.now.checked.now members at.now.header.now.bounds.blocks taker.old taker.new bounds.old.nodes bounds.new.nodes store.old store.new rest.0 rest.1) }
    ensures err { IfErr result (λ fault. (members : Members)
        → Knows at.now.checked.now members at.now.header.now at.now.lists.now store.old.trees
        → Halts S.left S.still S.read_faults (λ total. BodyFails at.now.checked.now total
        (head_of at.now.checked.now members)) bounds.old.nodes taker.old taker.new fault) }
{
    let blocks = match read_blocks(alloc, at, taker, store, bounds) {
        Ok(blocks) => blocks,
        Err(fault) => return Err(fault),
    };
    let footer = match read_footer(alloc, at, taker, store, bounds) {
        Ok(footer) => footer,
        Err(fault) => return Err(fault),
    };
    match end_file(taker) {
        Ok(()) => Ok((blocks, footer)),
        Err(fault) => Err(fault),
    }
}

/// Reads a file from its first byte on.
fn read_parts<S: Source>(
    alloc: Global,
    checked: &Checked,
    taker: &mut Taker<'_, S>,
) -> Result<GraphParts, FileFault>
    requires sound { IsSound taker.old }
    requires first { place_of taker.old ≡ 0 }
    ensures went { Went S.still S.read_faults taker.old taker.new }
    ensures parts { GetsParts S.left S.read_faults checked.now taker.old taker.new result }
{
    let schema = checked.schema();
    // The contract of `count` says that the names of a schema are different, and its basics of their kinds.
    let _declarations = schema.count();
    let mut store = Store::new(alloc);
    let header = match read_header(alloc, schema, checked.header(), taker, &mut store) {
        Ok(header) => header,
        Err(fault) => return Err(fault),
    };
    let lists = match read_lists(alloc, schema, &store, header.tree, &header.places) {
        Ok(lists) => lists,
        Err(NoMemory) => return Err(FileFault::NoMemory),
    };
    let at = Preamble {
        checked,
        header: &header,
        lists: &lists,
    };
    let mut bounds = header.bounds;
    let (blocks, footer) = match read_rest(alloc, &at, taker, &mut store, &mut bounds) {
        Ok(rest) => rest,
        Err(fault) => return Err(fault),
    };
    let indexed = lists.is_indexed();
    Ok(GraphParts {
        store,
        header: header.tree,
        places: header.places,
        context: header.context,
        strings: header.bounds.strings,
        indexed,
        types: lists.into_names(),
        blocks,
        footer,
        nodes: bounds.nodes,
        bytes: taker.place() as u32,
    })
}

/// The graph of the parts that were read.
fn graph_of(alloc: Global, checked: &Checked, parts: GraphParts) -> Result<Graph, FileFault>
    requires { (F : File) × AreRead checked.now parts F }
    ensures ok { IfOk result (λ graph. (F : File) → AreRead checked.now parts F
        → IsGraphOf checked.now F graph × (numbered graph.places graph.graph ≡ F)) }
    ensures err { IfErr result (λ fault. fault ≡ FileFault.NoMemory) }
{
    let schema = checked.schema();
    // The contract of `count` says that the names of a schema are different, and its basics of their kinds.
    let _declarations = schema.count();
    graph_of_file();
    match Graph::from_parts(alloc, parts) {
        Ok(graph) => Ok(graph),
        Err(NoMemory) => Err(FileFault::NoMemory),
    }
}

/// Reads the graph of a file from its first byte on.
fn read_graph<S: Source>(
    alloc: Global,
    checked: &Checked,
    taker: &mut Taker<'_, S>,
) -> Result<Graph, FileFault>
    requires sound { IsSound taker.old }
    requires first { place_of taker.old ≡ 0 }
    ensures went { Went S.still S.read_faults taker.old taker.new }
    ensures file { GetsFile S.left S.read_faults checked.now taker.old taker.new result }
{
    match read_parts(alloc, checked, taker) {
        Ok(parts) => graph_of(alloc, checked, parts),
        Err(fault) => Err(fault),
    }
}

/// Reads a file by a schema, in whatever pieces its bytes come. F1 to F23 come exactly where the bytes have that first
/// fault (`docs/FILES.md` says each), and then at most 4,096 bytes beyond those that show it are gone; `ReadFault` only
/// where a read failed in this call; `NoMemory` where memory ran out. The name of each block of the graph is its place.
#[tactic(auto, using(nif_stream::specs::TakerLaws::takes))]
pub fn decode_file<S: Source>(
    alloc: Global,
    checked: &Checked,
    source: &mut S,
) -> Result<Graph, FileFault>
    ensures still { S.still source.old source.new }
    ensures file { ReadsFile S.left S.read_faults checked.now source.old source.new result }
{
    let mut taker = Taker::new(source);
    read_graph(alloc, checked, &mut taker)
}
