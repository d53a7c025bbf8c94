ghost use Rattle.std.specs.Prelude.{◌≡◌, ◌-◌, ◌^◌, ◌<◌, [], ◌∷◌, ◌++◌, length, IsTrue, ◌↔◌, OnOk, OnErr, IfOk, slice_index_or};

use nif_base::{NoMemory, Word};
use std::alloc::Global;
use std::marker::Model;

/// The names of fields that lead to a value: one or more, the first in the line of the expression, each
/// next one in the group that the one before it names.
#[derive(Drop)]
pub struct Path {
    names: Vec<Word>,
}

impl Model for Path {
    ghost use Rattle.std.specs.Prelude.{ℕ, ◌^◌, ◌<◌, List, length, vec_len};

    ghost Value = { List (List ℕ) };

    ghost view = { λ a. a.names.items };

    ghost invariant = { λ a. (0 < vec_len a.names) × (vec_len a.names < 2 ^ 32) };
}

fn is_same(name: &Word, other: &Word) -> bool
    ensures { IsTrue result ↔ (name.now ≡ other.now) }
{
    name.bytes() == other.bytes()
}

impl Path {
    /// The path of one name.
    pub fn new(alloc: Global, first: Word) -> Result<Path, NoMemory>
        ensures { IfOk result (λ path. path ≡ first ∷ []) }
    {
        let mut names = Vec::new(alloc);
        match names.push(first) {
            Ok(()) => Ok(Path { names }),
            Err(_) => Err(NoMemory),
        }
    }

    /// How many names there are.
    pub fn len(&self) -> u32
        ensures value { result ≡ length self.now }
        ensures some { 0 < result }
    {
        self.names.len() as u32
    }

    /// The name at a place, counted from 0.
    pub fn get(&self, place: u32) -> &Word
        requires { place < length self.now }
        ensures { result.now ≡ slice_index_or self.now place [] }
    {
        &self.names[place as usize]
    }

    /// Adds a name at the end. Without memory the path stays as it was.
    pub fn push(&mut self, name: Word) -> Result<(), NoMemory>
        requires { length self.old < 2 ^ 32 - 1 }
        ensures ok { OnOk result (self.new ≡ self.old ++ name ∷ []) }
        ensures err { OnErr result (self.new ≡ self.old) }
    {
        match self.names.push(name) {
            Ok(()) => Ok(()),
            Err(_) => Err(NoMemory),
        }
    }

    /// Whether two paths have the same names, in the same order.
    pub fn same(&self, other: &Path) -> bool
        ensures { IsTrue result ↔ (self.now ≡ other.now) }
    {
        if self.names.len() != other.names.len() {
            return false;
        }
        for (i, name) in self.names.iter().enumerate() {
            if !is_same(name, &other.names[i]) {
                return false;
            }
        }
        true
    }
}
