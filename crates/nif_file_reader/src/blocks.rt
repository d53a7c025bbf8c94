//! The blocks behind the header, one after another.
ghost use Rattle.std.specs.Prelude.{◌≡◌, ◌≤◌, ℕ, true, None, IfOk, IfErr, OnOk};
ghost use Rattle.nif_base.specs.Node.{Members};
ghost use Rattle.nif_region.specs.Contents.{AreApart};
ghost use Rattle.nif_schema.specs.Schema.{Schema};
ghost use Rattle.nif_base.specs.Limits.{most_nodes, most_depth};
ghost use Rattle.nif_layout.specs.Fails.{Fails, Lifted};
ghost use Rattle.nif_stream.specs.Taking.{Takes};
ghost use Rattle.nif_decode.specs.Answers.{IsReadyTaker};
ghost use Rattle.nif_file.specs.Head.{block_context, order_in};
ghost use Rattle.nif_file.specs.Stops.{of_value};
ghost use Rattle.nif_file.specs.Files.{IsBlockType, block_kind, has_zero_word, head_of, zero_where};
ghost use Rattle.nif_file.specs.FileFails.{BlockFails, BlocksFail, ZeroFailsBy};
ghost use Rattle.nif_file_reader.specs.Halting.{Halts};
ghost use Rattle.nif_lists.specs.Lists.{entry_of};
ghost use Rattle.nif_file_reader.specs.Known.{HasBlock, HasBlocks, Knows, ReadsValue, size_fault};

use crate::types::{Preamble, read_type};
use nif_base::{NoMemory, Order, Source};
use nif_decode::{Bounds, decode_value, take_number};
use nif_file::{FileFault, has_zero_word, of_value};
use nif_graph::{BlockPart, Blocks};
use nif_lists::Lists;
use nif_schema::Context;
use nif_stream::Taker;
use nif_value::{Store, TreeId};
use std::alloc::Global;

/// Takes the zero word before the value of a block.
fn take_zero_word<S: Source>(
    order: Order,
    block: u32,
    taker: &mut Taker<'_, S>,
) -> Result<(), FileFault>
    requires { IsReadyTaker taker.old }
    ensures ok { OnOk result (Takes S.left S.still S.read_faults taker.old (zero_where true) taker.new) }
    ensures err { IfErr result (λ fault. (schema : Schema) (members : Members) (nodes : ℕ)
        → order_in (head_of schema members) ≡ order
        → Halts S.left S.still S.read_faults (λ total. ZeroFailsBy true total
        (head_of schema members) block) nodes taker.old taker.new fault) }
{
    match take_number(order == Order::Little, 4, taker) {
        Ok(0) => Ok(()),
        Ok(value) => Err(FileFault::CheckWord {
            block,
            value: value as u32,
        }),
        Err(fault) => Err(of_value(fault)),
    }
}

/// Reads the zero word before the value of a block, where the version has it.
fn read_zero_word<S: Source>(
    context: Context,
    block: u32,
    taker: &mut Taker<'_, S>,
) -> Result<(), FileFault>
    requires { IsReadyTaker taker.old }
    ensures ok { OnOk result (Takes S.left S.still S.read_faults taker.old
        (zero_where (has_zero_word context.version.number)) taker.new) }
    ensures err { IfErr result (λ fault. (schema : Schema) (members : Members) (nodes : ℕ)
        → order_in (head_of schema members) ≡ context.order
        → Halts S.left S.still S.read_faults (λ total. ZeroFailsBy (has_zero_word context.version.number) total
        (head_of schema members) block) nodes taker.old taker.new fault) }
{
    if has_zero_word(context.version) {
        return take_zero_word(context.order, block, taker);
    }
    Ok(())
}

/// Reads the value of a block.
fn read_value<S: Source>(
    alloc: Global,
    at: &Preamble<'_>,
    kind: u32,
    taker: &mut Taker<'_, S>,
    store: &mut Store,
    bounds: &mut Bounds,
) -> Result<TreeId, FileFault>
    requires kind { IsBlockType at.now.checked.now kind }
    requires ready { IsReadyTaker taker.old }
    requires counted { bounds.old.nodes ≤ most_nodes }
    requires building { store.old.building ≡ None }
    requires bounds { (bounds.old.blocks ≡ at.now.header.now.bounds.blocks)
        × (bounds.old.strings ≡ at.now.header.now.bounds.strings) }
    ensures blocks { bounds.new.blocks ≡ bounds.old.blocks }
    ensures strings { bounds.new.strings ≡ bounds.old.strings }
    ensures building { store.new.building ≡ None }
    ensures ok { IfOk result (λ tree. (members : Members)
        → Knows at.now.checked.now members at.now.header.now at.now.lists.now store.old.trees
        → ReadsValue S.left S.still S.read_faults at.now.checked.now members kind taker.old taker.new bounds.old.nodes bounds.new.nodes store.old store.new tree) }
    ensures err { IfErr result (λ fault. (members : Members)
        → Knows at.now.checked.now members at.now.header.now at.now.lists.now store.old.trees
        → Halts S.left S.still S.read_faults (λ total. Lifted (of_value total)
        (Fails at.now.checked.now (block_context at.now.checked.now
        (head_of at.now.checked.now members) kind) most_depth
        (block_kind at.now.checked.now
        (head_of at.now.checked.now members) kind))) bounds.old.nodes taker.old taker.new fault) }
{
    let schema = at.checked.schema();
    match decode_value(alloc, schema, at.header.context, kind, taker, store, bounds) {
        Ok(tree) => Ok(tree),
        Err(fault) => Err(of_value(fault)),
    }
}

/// Why the length of a value is refused, if it is.
fn size_refusal(lists: &Lists, block: u32, used: u32) -> Option<FileFault>
    ensures { result ≡ size_fault block used (entry_of lists.now.sizes block) }
{
    let stated = lists.stated_size(block)?;
    if stated == used {
        return None;
    }
    Some(FileFault::BlockSize {
        block,
        stated,
        used,
    })
}

/// Reads a block: what names its type, the zero word, and its value.
fn read_block<S: Source>(
    alloc: Global,
    at: &Preamble<'_>,
    block: u32,
    taker: &mut Taker<'_, S>,
    store: &mut Store,
    bounds: &mut Bounds,
) -> Result<BlockPart, FileFault>
    requires ready { IsReadyTaker taker.old }
    requires counted { bounds.old.nodes ≤ most_nodes }
    requires building { store.old.building ≡ None }
    requires bounds { (bounds.old.blocks ≡ at.now.header.now.bounds.blocks)
        × (bounds.old.strings ≡ at.now.header.now.bounds.strings) }
    requires knows { (members : Members)
        × Knows at.now.checked.now members at.now.header.now at.now.lists.now store.old.trees }
    ensures blocks { bounds.new.blocks ≡ bounds.old.blocks }
    ensures strings { bounds.new.strings ≡ bounds.old.strings }
    ensures building { store.new.building ≡ None }
    ensures ok { IfOk result (λ part. (members : Members)
        → Knows at.now.checked.now members at.now.header.now at.now.lists.now store.old.trees
        → HasBlock S.left S.still S.read_faults at.now.checked.now members block taker.old taker.new bounds.old.nodes bounds.new.nodes store.old store.new part) }
    ensures err { IfErr result (λ fault. (members : Members)
        → Knows at.now.checked.now members at.now.header.now at.now.lists.now store.old.trees
        → Halts S.left S.still S.read_faults (λ total. BlockFails at.now.checked.now total
        (head_of at.now.checked.now members) block) bounds.old.nodes taker.old taker.new fault) }
{
    let kind = match read_type(alloc, at, store, block, taker) {
        Ok(kind) => kind,
        Err(fault) => return Err(fault),
    };
    match read_zero_word(at.header.context, block, taker) {
        Ok(()) => {}
        Err(fault) => return Err(fault),
    }
    let start = taker.place();
    let tree = match read_value(alloc, at, kind, taker, store, bounds) {
        Ok(tree) => tree,
        Err(fault) => return Err(fault),
    };
    let used = (taker.place() - start) as u32;
    match size_refusal(at.lists, block, used) {
        Some(fault) => Err(fault),
        None => Ok(BlockPart {
            kind,
            index_word: at.lists.index_word(block),
            tree,
        }),
    }
}

/// Reads all blocks of the file.
pub(crate) fn read_blocks<S: Source>(
    alloc: Global,
    at: &Preamble<'_>,
    taker: &mut Taker<'_, S>,
    store: &mut Store,
    bounds: &mut Bounds,
) -> Result<Blocks, FileFault>
    requires ready { IsReadyTaker taker.old }
    requires counted { bounds.old.nodes ≤ most_nodes }
    requires building { store.old.building ≡ None }
    requires apart { AreApart store.old.trees }
    requires bounds { (bounds.old.blocks ≡ at.now.header.now.bounds.blocks)
        × (bounds.old.strings ≡ at.now.header.now.bounds.strings) }
    requires knows { (members : Members)
        × Knows at.now.checked.now members at.now.header.now at.now.lists.now store.old.trees }
    ensures blocks { bounds.new.blocks ≡ bounds.old.blocks }
    ensures strings { bounds.new.strings ≡ bounds.old.strings }
    ensures building { store.new.building ≡ None }
    ensures ok { IfOk result (λ parts. (members : Members)
        → Knows at.now.checked.now members at.now.header.now at.now.lists.now store.old.trees
        → HasBlocks S.left S.still S.read_faults at.now.checked.now members at.now.header.now.bounds.blocks taker.old taker.new bounds.old.nodes bounds.new.nodes store.old store.new parts) }
    ensures err { IfErr result (λ fault. (members : Members)
        → Knows at.now.checked.now members at.now.header.now at.now.lists.now store.old.trees
        → Halts S.left S.still S.read_faults (λ total. BlocksFail at.now.checked.now total (head_of at.now.checked.now members) 0 at.now.header.now.bounds.blocks) bounds.old.nodes taker.old taker.new fault) }
{
    let mut blocks = Blocks::new(alloc);
    for block in 0..at.header.bounds.blocks {
        let part = match read_block(alloc, at, block, taker, store, bounds) {
            Ok(part) => part,
            Err(fault) => return Err(fault),
        };
        match blocks.push(part) {
            Ok(()) => {}
            Err(NoMemory) => return Err(FileFault::NoMemory),
        }
    }
    Ok(blocks)
}
