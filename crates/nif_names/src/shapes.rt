//! Stacks of shapes.
ghost use Rattle.std.specs.Prelude.{◌≡◌, ◌≢◌, ℕ, ◌-◌, ◌≤◌, ◌⊎◌, List, [], ◌∷◌, ◌++◌, length, take, map, OnOk, OnErr, Contains, ◌↔◌, is_some, IfSome, IsTrue, Some};
ghost use Rattle.std.specs.List.{list_all};
ghost use Rattle.nif_names.specs.Shapes.{inners};
ghost use Rattle.nif_names.specs.Kept.{new_inner};
ghost use Rattle.nif_names.specs.Marks.{IsFound, none_marked};

use crate::marked::{Found, MarkedTypes};
use nif_base::NoMemory;
use std::alloc::Global;
use std::collections::BTreeMap;
use std::marker::Model;

/// What a name may stand for in one of its meanings.
#[derive(Debug, Clone, Copy, PartialEq, Eq)]
pub struct Shape {
    /// A number, which may end a path.
    pub number: bool,
    /// A row of numbers, which may be a width.
    pub row: bool,
    /// The number of the type whose names may follow in a path, if names may follow.
    pub inner: Option<u32>,
}

/// A shape, and whether no shape below it has its inner type.
#[derive(Debug, Clone, Copy, PartialEq, Eq)]
pub struct Entry {
    shape: Shape,
    is_new: bool,
}

impl Entry {
    /// How many inner types are kept for it.
    fn kept(&self) -> usize
        ensures { result ≡ length (new_inner self.now) }
    {
        usize::from(self.is_new && self.shape.inner.is_some())
    }
}

/// A stack of shapes, those of one name.
#[derive(Drop)]
pub struct Shapes {
    entries: Vec<Entry>,
    /// How many of them are no numbers.
    not_numbers: usize,
    /// How many of them are no rows.
    not_rows: usize,
    /// How many of them have no inner type.
    not_inner: usize,
    /// The inner types of the entries that are new.
    inners: MarkedTypes,
    /// Where an inner type was put in `inners`; it may have been taken off since.
    places: BTreeMap<u32, usize>,
}

impl Model for Shapes {
    ghost use Rattle.nif_names.specs.Shapes.{Stack};

    ghost Value = { Stack };

    ghost use Rattle.nif_names.specs.Kept.{IsStack, shapes_of};

    ghost view = { λ a. record { shapes = shapes_of a.entries.items; kinds = a.inners } };

    ghost invariant = { λ a. IsStack a.entries.items a.inners.types a.not_numbers a.not_rows a.not_inner };
}

impl Shapes {
    /// A stack of no shapes. It takes no memory.
    pub fn new(alloc: Global) -> Shapes
        ensures { result ≡ record { shapes = []; kinds = none_marked } }
    {
        Shapes {
            entries: Vec::new(alloc),
            not_numbers: 0,
            not_rows: 0,
            not_inner: 0,
            inners: MarkedTypes::new(alloc),
            places: BTreeMap::new(alloc),
        }
    }

    /// Whether there are none.
    pub fn is_empty(&self) -> bool
        ensures { IsTrue result ↔ (self.now.shapes ≡ []) }
    {
        self.entries.len() == 0
    }

    /// Whether all are numbers.
    pub fn all_numbers(&self) -> bool
        ensures { result ≡ list_all (λ s. s.number) self.now.shapes }
    {
        self.not_numbers == 0
    }

    /// Whether all are rows of numbers.
    pub fn all_rows(&self) -> bool
        ensures { result ≡ list_all (λ s. s.row) self.now.shapes }
    {
        self.not_rows == 0
    }

    /// Whether all have an inner type.
    pub fn all_inner(&self) -> bool
        ensures { result ≡ list_all (λ s. is_some s.inner) self.now.shapes }
    {
        self.not_inner == 0
    }

    /// Their inner types, each once.
    pub fn inners(&self) -> &[u32]
        ensures value { result.now ≡ self.now.kinds.types }
        ensures same { (inner : ℕ) → Contains result.now inner ↔ Contains (inners self.now.shapes) inner }
    {
        self.inners.types()
    }

    /// What was found under a key of the first inner types, where these are still there; it may be forgotten. It takes
    /// time as there are marks under the key that no longer hold, each once.
    pub fn found(&mut self, key: &[u16]) -> Option<Found>
        ensures same { self.new ≡ self.old }
        ensures within { IfSome result (λ found. found.count ≤ length self.old.kinds.types) }
        ensures found { IfSome result (λ found. IsFound self.old.kinds key.now
            (take found.count self.old.kinds.types) found.stop) }
    {
        self.inners.found(key)
    }

    /// Keeps under a key what was found of the first inner types; after want of memory the stack is as before.
    pub fn mark(&mut self, key: &[u16], found: Found) -> Result<(), NoMemory>
        ensures shapes { self.new.shapes ≡ self.old.shapes }
        ensures types { self.new.kinds.types ≡ self.old.kinds.types }
        ensures marks { OnOk result ((other types : List ℕ) (stop : ℕ) → IsFound self.new.kinds other types stop
            → IsFound self.old.kinds other types stop ⊎ ((other ≡ key.now)
            × (types ≡ take found.count self.old.kinds.types) × (stop ≡ found.stop))) }
        ensures err { OnErr result (self.new ≡ self.old) }
    {
        self.inners.mark(key, found)
    }

    /// Whether `inner` is known to be among the inner types.
    fn knows(&self, inner: u32) -> bool
        ensures { IsTrue result → Contains (inners self.now.shapes) inner }
    {
        let Some(place) = self.places.get(&inner) else {
            return false;
        };
        match self.inners.types().get(*place) {
            Some(found) => *found == inner,
            None => false,
        }
    }

    /// Puts a shape on top; after want of memory the stack is as before.
    pub fn push(&mut self, shape: Shape) -> Result<(), NoMemory>
        ensures ok { OnOk result (self.new.shapes ≡ self.old.shapes ++ shape ∷ []) }
        ensures marks { OnOk result ((key types : List ℕ) (stop : ℕ) → IsFound self.new.kinds key types stop
            → IsFound self.old.kinds key types stop) }
        ensures err { OnErr result (self.new ≡ self.old) }
    {
        match shape.inner {
            Some(inner) => {
                if self.knows(inner) {
                    self.push_known(shape)
                } else {
                    self.push_new(shape, inner)
                }
            }
            None => self.push_known(shape),
        }
    }

    /// Puts a shape on top whose inner type, if it has one, is among the others.
    fn push_known(&mut self, shape: Shape) -> Result<(), NoMemory>
        requires { (inner : ℕ) → shape.inner ≡ Some inner → Contains (inners self.old.shapes) inner }
        ensures ok { OnOk result (self.new.shapes ≡ self.old.shapes ++ shape ∷ []) }
        ensures marks { OnOk result ((key types : List ℕ) (stop : ℕ) → IsFound self.new.kinds key types stop
            → IsFound self.old.kinds key types stop) }
        ensures err { OnErr result (self.new ≡ self.old) }
    {
        let Ok(()) = self.entries.push(Entry {
            shape,
            is_new: false,
        })
        else {
            return Err(NoMemory);
        };
        self.not_numbers += usize::from(!shape.number);
        self.not_rows += usize::from(!shape.row);
        self.not_inner += usize::from(shape.inner.is_none());
        Ok(())
    }

    /// Puts a shape of this inner type on top, and keeps the type.
    fn push_new(&mut self, shape: Shape, inner: u32) -> Result<(), NoMemory>
        requires { shape.inner ≡ Some inner }
        ensures ok { OnOk result (self.new.shapes ≡ self.old.shapes ++ shape ∷ []) }
        ensures marks { OnOk result ((key types : List ℕ) (stop : ℕ) → IsFound self.new.kinds key types stop
            → IsFound self.old.kinds key types stop) }
        ensures err { OnErr result (self.new ≡ self.old) }
    {
        let Ok(_) = self.places.insert(inner, self.inners.types().len()) else {
            return Err(NoMemory);
        };
        let Ok(()) = self.entries.push(Entry {
            shape,
            is_new: true,
        })
        else {
            return Err(NoMemory);
        };
        let Ok(()) = self.inners.push(inner) else {
            self.entries.pop();
            return Err(NoMemory);
        };
        self.not_numbers += usize::from(!shape.number);
        self.not_rows += usize::from(!shape.row);
        Ok(())
    }

    /// Takes the top off, if there is one.
    pub fn pop(&mut self)
        ensures shapes { self.new.shapes ≡ take (length self.old.shapes - 1) self.old.shapes }
        ensures marks { (key types : List ℕ) (stop : ℕ) → IsFound self.new.kinds key types stop
            → IsFound self.old.kinds key types stop }
    {
        let Some(entry) = self.entries.pop() else {
            return;
        };
        self.inners.cut(self.inners.types().len() - entry.kept());
        self.not_numbers -= usize::from(!entry.shape.number);
        self.not_rows -= usize::from(!entry.shape.row);
        self.not_inner -= usize::from(entry.shape.inner.is_none());
    }
}
