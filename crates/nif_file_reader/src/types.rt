//! The type of a block: by its entry in the index of types, or by the name that stands before it.
ghost use Rattle.std.specs.Prelude.{◌≡◌, ◌<◌, ◌≤◌, ℕ, List, [], Some, None, IfOk, IfErr, length};
ghost use Rattle.nif_base.specs.Node.{Members};
ghost use Rattle.nif_schema.specs.Schema.{find_block};
ghost use Rattle.nif_stream.specs.Taking.{Takes};
ghost use Rattle.nif_base.specs.Limits.{most_nodes};
ghost use Rattle.nif_decode.specs.Answers.{IsReadyTaker};
ghost use Rattle.nif_file.specs.Head.{index_word, order_in};
ghost use Rattle.nif_file.specs.Files.{IsBlockType, IsIndexed, head_of, is_abstract, name_of, name_where};
ghost use Rattle.nif_file.specs.FileFails.{EntryRefused, NameFails, TypeFails};
ghost use Rattle.nif_file_reader.specs.Halting.{Halts};
ghost use Rattle.nif_file_reader.specs.Types.{NamesNone, Refuses, RefusesKind, RefusesName};
ghost use Rattle.nif_file_reader.specs.Known.{Knows, ReadsType};

use crate::names::take_sized;
use nif_base::{NoMemory, Source, Word};
use nif_check::Checked;
use nif_file::{FileFault, Header};
use nif_lists::{Lists, type_name};
use nif_schema::{Schema, What};
use nif_stream::Taker;
use nif_value::Store;
use std::alloc::Global;

/// What decides how the blocks are read: the schema, the header that was read, and its lists.
#[derive(Drop, Clone, Copy)]
pub(crate) struct Preamble<'a> {
    pub(crate) checked: &'a Checked,
    pub(crate) header: &'a Header,
    pub(crate) lists: &'a Lists,
}

/// Whether a block type is abstract.
fn is_abstract(schema: &Schema, kind: u32) -> bool
    requires { kind < length schema.now }
    ensures { result ≡ is_abstract schema.now kind }
{
    match &schema.decl(kind).what {
        What::Block { is_abstract, .. } => *is_abstract,
        _ => false,
    }
}

/// A block type that a name finds, where it may be that of a block; else why it is refused.
fn concrete(checked: &Checked, block: u32, kind: u32) -> Result<u32, FileFault>
    requires { (name : List ℕ) × (find_block checked.now name ≡ Some kind) }
    ensures same { IfOk result (λ same. same ≡ kind) }
    ensures ok { IfOk result (IsBlockType checked.now) }
    ensures err { IfErr result (RefusesKind checked.now block kind) }
{
    if is_abstract(checked.schema(), kind) {
        return Err(FileFault::AbstractType { block });
    }
    match checked.reason(kind) {
        Some(reason) => Err(FileFault::ClosedType { block, reason }),
        None => Ok(kind),
    }
}

/// The block type of a name, where it may be that of a block.
fn kind_of_name(alloc: Global, checked: &Checked, block: u32, name: &[u8]) -> Result<u32, FileFault>
    ensures found { IfOk result (λ kind. find_block checked.now name.now ≡ Some kind) }
    ensures ok { IfOk result (IsBlockType checked.now) }
    ensures err { IfErr result (RefusesName checked.now block name.now) }
{
    if let Some(kind) = checked.schema().find_block(name) {
        return concrete(checked, block, kind);
    }
    match Word::from_bytes(alloc, name) {
        Ok(name) => Err(FileFault::UnknownType { block, name }),
        Err(NoMemory) => Err(FileFault::NoMemory),
    }
}

/// The fault of a block whose entry of the types names no block type.
fn unknown_entry(
    alloc: Global,
    at: &Preamble<'_>,
    store: &Store,
    block: u32,
    entry: u32,
) -> FileFault
    requires { (members : Members)
        × Knows at.now.checked.now members at.now.header.now at.now.lists.now store.now.trees }
    ensures { (members : Members) → Knows at.now.checked.now members at.now.header.now at.now.lists.now store.now.trees
        → NamesNone at.now.checked.now members block entry result }
{
    match type_name(alloc, store, at.header.tree, &at.header.places, entry) {
        Ok(name) => FileFault::UnknownType { block, name },
        Err(NoMemory) => FileFault::NoMemory,
    }
}

/// The block type that the index word of a block names, where it may be that of a block.
fn kind_of_entry(
    alloc: Global,
    at: &Preamble<'_>,
    store: &Store,
    block: u32,
    word: u16,
) -> Result<u32, FileFault>
    requires { (members : Members)
        × Knows at.now.checked.now members at.now.header.now at.now.lists.now store.now.trees }
    ensures ok { IfOk result (λ kind. IsBlockType at.now.checked.now kind
        × ((members : Members) → Knows at.now.checked.now members at.now.header.now at.now.lists.now store.now.trees
        → index_word (head_of at.now.checked.now members) block ≡ Some word
        → IsIndexed at.now.checked.now (head_of at.now.checked.now members) block kind)) }
    ensures err { IfErr result (λ fault. (members : Members)
        → Knows at.now.checked.now members at.now.header.now at.now.lists.now store.now.trees
        → Refuses (λ known stop. EntryRefused at.now.checked.now (head_of at.now.checked.now members) block word
        (record { nodes = 0; place = known; left = [] }) stop) fault) }
{
    let entry = word % 0x8000;
    match at.lists.type_at(word) {
        None => Err(FileFault::TypeIndex {
            block,
            index: entry,
        }),
        Some(None) => Err(unknown_entry(alloc, at, store, block, entry as u32)),
        Some(Some(kind)) => concrete(at.checked, block, kind),
    }
}

/// Reads the name that stands before a block, and answers the block type of that name.
fn read_name<S: Source>(
    alloc: Global,
    at: &Preamble<'_>,
    block: u32,
    taker: &mut Taker<'_, S>,
) -> Result<u32, FileFault>
    requires { IsReadyTaker taker.old }
    ensures ok { IfOk result (λ kind. IsBlockType at.now.checked.now kind
        × Takes S.left S.still S.read_faults taker.old
        (name_where None at.now.header.now.context.order (name_of at.now.checked.now kind)) taker.new) }
    ensures err { IfErr result (λ fault. (members : Members) (nodes : ℕ) → nodes ≤ most_nodes
        → order_in (head_of at.now.checked.now members) ≡ at.now.header.now.context.order
        → Halts S.left S.still S.read_faults (λ total. NameFails at.now.checked.now total
        (head_of at.now.checked.now members) block) nodes taker.old taker.new fault) }
{
    let name = match take_sized(alloc, at.header.context.order, taker) {
        Ok(name) => name,
        Err(fault) => return Err(fault),
    };
    kind_of_name(alloc, at.checked, block, name.as_slice())
}

/// Reads what names the type of a block, and answers that type.
pub(crate) fn read_type<S: Source>(
    alloc: Global,
    at: &Preamble<'_>,
    store: &Store,
    block: u32,
    taker: &mut Taker<'_, S>,
) -> Result<u32, FileFault>
    requires ready { IsReadyTaker taker.old }
    requires knows { (members : Members)
        × Knows at.now.checked.now members at.now.header.now at.now.lists.now store.now.trees }
    ensures ok { IfOk result (λ kind. (members : Members)
        → Knows at.now.checked.now members at.now.header.now at.now.lists.now store.now.trees
        → ReadsType S.left S.still S.read_faults at.now.checked.now members block taker.old taker.new kind) }
    ensures err { IfErr result (λ fault. (members : Members) (nodes : ℕ) → nodes ≤ most_nodes
        → Knows at.now.checked.now members at.now.header.now at.now.lists.now store.now.trees
        → Halts S.left S.still S.read_faults (λ total. TypeFails at.now.checked.now total
        (head_of at.now.checked.now members) block) nodes taker.old taker.new fault) }
{
    match at.lists.index_word(block) {
        None => read_name(alloc, at, block, taker),
        Some(word) => kind_of_entry(alloc, at, store, block, word),
    }
}
