//! Edits, and lists of them.
ghost use Rattle.std.specs.Prelude.{◌≡◌, ◌-◌, ◌^◌, ◌<◌, [], ◌∷◌, ◌++◌, length, OnOk, OnErr, slice_get, Some};

use nif_base::{NoMemory, Numbers, Word};
use std::alloc::Global;
use std::marker::Model;

/// An edit of a graph. Blocks are named by their names, which stay when places change. Places are counted from 0, and
/// so are the references of a block, or of the footer, in the order of their bytes.
#[derive(Drop)]
pub enum Edit {
    /// The block is taken out, and each reference to it becomes empty.
    Remove {
        block: u32,
    },
    /// A new block of the type and the value of this one is put in, so that it stands at the place.
    Copy {
        block: u32,
        place: u32,
    },
    /// A new block of the type of this name is put in, so that it stands at the place.
    Insert {
        kind: Word,
        place: u32,
    },
    /// The block gets the type and the value of another, and keeps its own name.
    Replace {
        block: u32,
        by: u32,
    },
    /// The block is taken out and put in again, so that it stands at the place.
    Move {
        block: u32,
        place: u32,
    },
    /// The blocks stand in the order of these names.
    Reorder {
        blocks: Numbers,
    },
    /// The reference `slot` of a block, or of the footer where `from` is None, names a block, or is empty where `to`
    /// is None.
    Point {
        from: Option<u32>,
        slot: u32,
        to: Option<u32>,
    },
}

/// A list of at most 2^32 - 1 edits, in the order in which they are made.
#[derive(Drop)]
pub struct Edits {
    items: Vec<Edit>,
}

impl Model for Edits {
    ghost use Rattle.std.specs.Prelude.{◌^◌, ◌<◌, List, vec_len};
    ghost use Rattle.std.specs.Coded.{coded_list};
    ghost use Rattle.nif_edit.specs.declared.edits.Edit.{Edit};
    ghost use Rattle.nif_edit.specs.contracts.edits.Edit as edit;

    ghost Value = { List Edit };

    ghost coded = { coded_list edit.the_row.coded };

    ghost view = { λ a. a.items.items };

    ghost invariant = { λ a. vec_len a.items < 2 ^ 32 };
}

impl Edits {
    /// A list of no edits. It takes no memory.
    pub fn new(alloc: Global) -> Edits
        ensures { result ≡ [] }
    {
        Edits {
            items: Vec::new(alloc),
        }
    }

    /// How many edits it has.
    pub fn len(&self) -> u32
        ensures { result ≡ length self.now }
    {
        self.items.len() as u32
    }

    /// The edit at a place, counted from 0.
    pub fn get(&self, place: u32) -> &Edit
        requires { place < length self.now }
        ensures { slice_get self.now place ≡ Some result.now }
    {
        &self.items[place as usize]
    }

    /// Puts an edit behind the others; after want of memory the list is as before.
    pub fn push(&mut self, item: Edit) -> Result<(), NoMemory>
        requires { length self.old < 2 ^ 32 - 1 }
        ensures ok { OnOk result (self.new ≡ self.old ++ item ∷ []) }
        ensures err { OnErr result (self.new ≡ self.old) }
    {
        match self.items.push(item) {
            Ok(()) => Ok(()),
            Err(_) => Err(NoMemory),
        }
    }
}
