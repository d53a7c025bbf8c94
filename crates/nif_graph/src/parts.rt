//! The parts of a file that was read.
ghost use Rattle.std.specs.Prelude.{◌≡◌, ◌-◌, ◌^◌, ◌<◌, [], ◌∷◌, ◌++◌, length, OnOk, OnErr, slice_get, Some};

use crate::places::RolePlaces;
use nif_base::{NoMemory, Word};
use nif_schema::Context;
use nif_value::{Store, TreeId};
use std::alloc::Global;
use std::marker::Model;

/// A block of a file.
#[derive(Debug, Clone, Copy, PartialEq, Eq)]
pub struct BlockPart {
    /// The number of the declaration of its type.
    pub kind: u32,
    /// Its entry in `Block Type Index`, where the header has that member.
    pub index_word: Option<u16>,
    /// Its value.
    pub tree: TreeId,
}

/// A list of at most 2^32 - 1 blocks.
#[derive(Drop)]
pub struct Blocks {
    items: Vec<BlockPart>,
}

impl Model for Blocks {
    ghost use Rattle.std.specs.Prelude.{◌^◌, ◌<◌, List, vec_len};
    ghost use Rattle.std.specs.Coded.{coded_list};
    ghost use Rattle.nif_graph.specs.declared.parts.BlockPart.{BlockPart};
    ghost use Rattle.nif_graph.specs.contracts.parts.BlockPart as part;

    ghost Value = { List BlockPart };

    ghost coded = { coded_list part.the_row.coded };

    ghost view = { λ a. a.items.items };

    ghost invariant = { λ a. vec_len a.items < 2 ^ 32 };
}

impl Blocks {
    /// A list of no blocks. It takes no memory.
    pub fn new(alloc: Global) -> Blocks
        ensures { result ≡ [] }
    {
        Blocks {
            items: Vec::new(alloc),
        }
    }

    /// How many blocks it has.
    pub fn len(&self) -> u32
        ensures { result ≡ length self.now }
    {
        self.items.len() as u32
    }

    /// The block at a place, counted from 0.
    pub fn get(&self, place: u32) -> &BlockPart
        requires { place < length self.now }
        ensures { slice_get self.now place ≡ Some result.now }
    {
        &self.items[place as usize]
    }

    /// Puts a block behind the others; after want of memory the list is as before.
    pub fn push(&mut self, item: BlockPart) -> Result<(), NoMemory>
        requires { length self.old < 2 ^ 32 - 1 }
        ensures ok { OnOk result (self.new ≡ self.old ++ item ∷ []) }
        ensures err { OnErr result (self.new ≡ self.old) }
    {
        match self.items.push(item) {
            Ok(()) => Ok(()),
            Err(_) => Err(NoMemory),
        }
    }
}

/// A file that was read: its header, its blocks in order, and its footer, each a tree of one store. A target is the
/// place of its block, counted from 0.
#[derive(Drop)]
pub struct GraphParts {
    pub store: Store,
    /// The value of the header, a group.
    pub header: TreeId,
    /// Where its members of known names stand.
    pub places: RolePlaces,
    /// The versions and the byte order of the file.
    pub context: Context,
    /// How many strings the header has.
    pub strings: u32,
    /// Whether the header has an index of types.
    pub indexed: bool,
    /// Where it has, the names of its types, in order.
    pub types: Vec<Word>,
    pub blocks: Blocks,
    pub footer: TreeId,
    /// How many nodes they have in all, absent members too.
    pub nodes: u32,
    /// How many bytes the file has.
    pub bytes: u32,
}
