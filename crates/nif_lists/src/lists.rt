//! The lists of a header that say something of the blocks.
ghost use Rattle.std.specs.Prelude.{◌≡◌, ℕ, ◌^◌, slice_get, ◌++◌, ◌∷◌, [], IfOk, OnOk, OnErr, is_some, if◌then◌else◌};
ghost use Rattle.std.specs.Option.{option_map};
ghost use Rattle.nif_schema.specs.Schema.{find_block};
ghost use Rattle.nif_file.specs.Head.{type_place};
ghost use Rattle.nif_lists.specs.Lists.{entry_of, no_lists, with_number};

use nif_base::{NoMemory, Word};
use nif_schema::Schema;
use nif_value::Step;
use std::alloc::Global;
use std::marker::Model;

/// The block types that the header names, and what it says of each block.
#[derive(Drop)]
pub struct Lists {
    alloc: Global,
    // the names of the types
    names: Vec<Word>,
    // the block type of each of them, or none where no block type has the name
    types: Vec<Option<u32>>,
    // the index of types, if there is one
    index: Option<Vec<u16>>,
    // the sizes of the blocks, if there are any
    sizes: Option<Vec<u32>>,
}

impl Model for Lists {
    ghost use Rattle.std.specs.Option.{option_map};
    ghost use Rattle.nif_lists.specs.Lists.{Listed};
    ghost use Rattle.nif_lists.specs.Codes.{coded_listed};

    ghost Value = { Listed };

    ghost coded = { coded_listed };

    ghost view = { λ l. record { names = l.names.items; types = l.types.items; index = option_map (λ words. words.items) l.index; sizes = option_map (λ sizes. sizes.items) l.sizes } };
}

/// Index words after a step: a row begins them, and the lowest 16 bits of a number are put behind the others.
fn with_word(
    alloc: Global,
    words: Option<Vec<u16>>,
    step: Step,
) -> Result<Option<Vec<u16>>, NoMemory>
    ensures { IfOk result (λ new. option_map (λ list. list.items) new
        ≡ with_number (2 ^ 16) step (option_map (λ list. list.items) words)) }
{
    match step {
        Step::Row { .. } => Ok(Some(Vec::new(alloc))),
        Step::Num { bits, .. } => {
            let Some(mut words) = words else {
                return Ok(None);
            };
            match words.push((bits % 0x10000) as u16) {
                Ok(()) => Ok(Some(words)),
                Err(_) => Err(NoMemory),
            }
        }
        _ => Ok(words),
    }
}

/// Sizes after a step: a row begins them, and the lowest 32 bits of a number are put behind the others.
fn with_size(
    alloc: Global,
    sizes: Option<Vec<u32>>,
    step: Step,
) -> Result<Option<Vec<u32>>, NoMemory>
    ensures { IfOk result (λ new. option_map (λ list. list.items) new
        ≡ with_number (2 ^ 32) step (option_map (λ list. list.items) sizes)) }
{
    match step {
        Step::Row { .. } => Ok(Some(Vec::new(alloc))),
        Step::Num { bits, .. } => {
            let Some(mut sizes) = sizes else {
                return Ok(None);
            };
            match sizes.push((bits % 0x1_0000_0000) as u32) {
                Ok(()) => Ok(Some(sizes)),
                Err(_) => Err(NoMemory),
            }
        }
        _ => Ok(sizes),
    }
}

impl Lists {
    /// No lists. It takes no memory.
    pub(crate) fn new(alloc: Global) -> Lists
        ensures { result ≡ no_lists }
    {
        Lists {
            alloc,
            names: Vec::new(alloc),
            types: Vec::new(alloc),
            index: None,
            sizes: None,
        }
    }

    /// Puts a name and its block type behind the others. After want of memory the lists are as before.
    pub(crate) fn keep_type(&mut self, schema: &Schema, name: &[u8]) -> Result<(), NoMemory>
        ensures ok { OnOk result (self.new ≡ record self.old {
          names = self.old.names ++ name.now ∷ [];
          types = self.old.types ++ find_block schema.now name.now ∷ [];
        }) }
        ensures err { OnErr result (self.new ≡ self.old) }
    {
        let word = match Word::from_bytes(self.alloc, name) {
            Ok(word) => word,
            Err(NoMemory) => return Err(NoMemory),
        };
        match self.names.reserve(1) {
            Ok(()) => {}
            Err(_) => return Err(NoMemory),
        }
        match self.types.reserve(1) {
            Ok(()) => {}
            Err(_) => return Err(NoMemory),
        }
        self.names.push_reserved(word);
        self.types.push_reserved(schema.find_block(name));
        Ok(())
    }

    /// Keeps what a step gives to the index. After want of memory there is no index.
    pub(crate) fn keep_word(&mut self, step: Step) -> Result<(), NoMemory>
        ensures { OnOk result (self.new ≡ record self.old { index = with_number (2 ^ 16) step self.old.index }) }
    {
        let words = self.index.take();
        match with_word(self.alloc, words, step) {
            Ok(words) => {
                self.index = words;
                Ok(())
            }
            Err(NoMemory) => Err(NoMemory),
        }
    }

    /// Keeps what a step gives to the sizes. After want of memory there are none.
    pub(crate) fn keep_size(&mut self, step: Step) -> Result<(), NoMemory>
        ensures { OnOk result (self.new ≡ record self.old { sizes = with_number (2 ^ 32) step self.old.sizes }) }
    {
        let sizes = self.sizes.take();
        match with_size(self.alloc, sizes, step) {
            Ok(sizes) => {
                self.sizes = sizes;
                Ok(())
            }
            Err(NoMemory) => Err(NoMemory),
        }
    }

    /// The index word of a block, where the file is indexed: 0 for a block behind the last of the index.
    pub fn index_word(&self, block: u32) -> Option<u16>
        ensures { result ≡ entry_of self.now.index block }
    {
        let words = self.index.as_ref()?;
        match words.get(block as usize) {
            Some(word) => Some(*word),
            None => Some(0),
        }
    }

    /// The length of the value of a block, where the file states it: 0 for a block behind the last that is stated.
    pub fn stated_size(&self, block: u32) -> Option<u32>
        ensures { result ≡ entry_of self.now.sizes block }
    {
        let sizes = self.sizes.as_ref()?;
        match sizes.get(block as usize) {
            Some(size) => Some(*size),
            None => Some(0),
        }
    }

    /// The block type that an index word names, by its low 15 bits; none within where no block type has that name, and
    /// none at all where there is no such name.
    pub fn type_at(&self, word: u16) -> Option<Option<u32>>
        ensures { result ≡ slice_get self.now.types (type_place word) }
    {
        match self.types.get(word as usize % 0x8000) {
            Some(kind) => Some(*kind),
            None => None,
        }
    }

    /// Whether there is an index of types.
    pub fn is_indexed(&self) -> bool
        ensures { result ≡ is_some self.now.index }
    {
        self.index.is_some()
    }

    /// The names of the types where there is an index of them, else none.
    pub fn into_names(self) -> Vec<Word>
        ensures { result.items ≡ (if is_some self.index then self.names else []) }
    {
        if self.index.is_some() {
            return self.names;
        }
        Vec::new(self.alloc)
    }
}
