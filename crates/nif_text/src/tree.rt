//! Elements and their attributes.
ghost use Rattle.std.specs.Prelude.{◌≡◌, ℕ, ◌+◌, ◌-◌, ◌^◌, ◌<◌, List, [], ◌∷◌, ◌++◌, length, OnOk, OnErr, slice_index_or};

use nif_base::{NoMemory, Word};
use std::alloc::Global;
use std::marker::Model;
use thiserror::Error;

/// The attributes of an element, in their order: pairs of a name and a value, at most 2^32 - 1.
#[derive(Drop)]
pub struct Attrs {
    pairs: Vec<(Word, Word)>,
}

impl Model for Attrs {
    ghost use Rattle.std.specs.Prelude.{ℕ, ◌^◌, ◌<◌, List, vec_len};

    ghost Value = { List (List ℕ × List ℕ) };

    ghost view = { λ a. a.pairs.items };

    ghost invariant = { λ a. vec_len a.pairs < 2 ^ 32 };
}

impl Attrs {
    /// No attributes.
    pub fn new(alloc: Global) -> Attrs
        ensures { result ≡ [] }
    {
        Attrs {
            pairs: Vec::new(alloc),
        }
    }

    /// How many there are.
    pub fn len(&self) -> u32
        ensures { result ≡ length self.now }
    {
        self.pairs.len() as u32
    }

    /// The attribute at this place, from 0: its name and its value.
    pub fn get(&self, place: u32) -> &(Word, Word)
        requires { place < length self.now }
        ensures { result.now ≡ slice_index_or self.now place ([], []) }
    {
        &self.pairs[place as usize]
    }

    /// Puts an attribute behind the others. After NoMemory they are as before.
    pub fn push(&mut self, pair: (Word, Word)) -> Result<(), NoMemory>
        requires { length self.old < 2 ^ 32 - 1 }
        ensures ok { OnOk result (self.new ≡ self.old ++ pair ∷ []) }
        ensures err { OnErr result (self.new ≡ self.old) }
    {
        match self.pairs.push(pair) {
            Ok(()) => Ok(()),
            Err(_) => Err(NoMemory),
        }
    }
}

/// Why the bytes of a text are not read.
#[derive(Debug, Drop, Clone, Copy, PartialEq, Eq, Error)]
pub enum TextFault {
    /// No tree is written by the bytes. `after` is the greatest number of whole children of the root that a
    /// front of the bytes spells, 0 where no root begins.
    #[error("the text is not written in the subset of XML, after {after} whole children of the root")]
    NotWritten { after: u32 },
    /// Memory ran out.
    #[error("memory ran out")]
    NoMemory,
}

/// An element: its name, its attributes, and the elements that stand right in it, in their order.
#[derive(Drop)]
pub struct Element {
    pub name: Word,
    pub attrs: Attrs,
    pub children: Vec<Element>,
}

impl Model for Element {
    ghost use Rattle.std.specs.Prelude.{◌+◌, ◌≤◌};
    ghost use Rattle.std.proofs.Common.{arith};
    ghost use Rattle.nif_text.specs.Tree.{Tree, Node, trees, depth};
    ghost use Rattle.nif_text.specs.Coding.{coded_tree, most_le-depths};

    ghost Value = { Tree };

    ghost coded = { coded_tree };

    ghost view = { λ e. Node e.name e.attrs (trees e.children.items) };

    ghost size = { depth };

    ghost size_decreases = { λ e h. omega (arith, most_le-depths e.children.items) };
}
