//! Tables of names.
ghost use Rattle.std.specs.Prelude.{◌≡◌, ◌≢◌, ℕ, List, ◌-◌, ◌≤◌, ◌↔◌, ◌⊎◌, [], ◌∷◌, ◌++◌, length, take, bytes_eq, position, None, if◌then◌else◌, OnOk, OnErr, IfOk, IfSome, Contains};
ghost use Rattle.std.specs.Option.{option_map_or};
ghost use Rattle.nif_names.specs.Marks.{IsFound};
ghost use Rattle.nif_names.specs.Shapes.{inners};
ghost use Rattle.nif_names.specs.Tables.{held, kinds, no_stack};

use crate::marked::Found;
use crate::places::Places;
use crate::shapes::{Shape, Shapes};
use nif_base::NoMemory;
use std::alloc::Global;
use std::marker::Model;

/// A stack of shapes under each name. A name whose stack is empty stays.
#[derive(Drop)]
pub struct Names {
    alloc: Global,
    places: Places,
    stacks: Vec<Shapes>,
}

impl Model for Names {
    ghost use Rattle.std.specs.Prelude.{◌≡◌, length};
    ghost use Rattle.nif_names.specs.Tables.{Table};

    ghost Value = { Table };

    ghost view = { λ a. record { names = a.places; stacks = a.stacks.items } };

    ghost invariant = { λ a. length a.places ≡ length a.stacks.items };
}

impl Names {
    /// A table of no names. It takes no memory.
    pub fn new(alloc: Global) -> Names
        ensures shapes { (name : List ℕ) → held result name ≡ [] }
        ensures marks { (name key types : List ℕ) (stop : ℕ) → IsFound (kinds result name) key types stop → ⊥ }
    {
        Names {
            alloc,
            places: Places::new(alloc),
            stacks: Vec::new(alloc),
        }
    }

    /// The shapes under a name, if there are any.
    pub fn look(&self, name: &[u8]) -> Option<&Shapes>
        ensures value { option_map_or (λ shapes. shapes.now.shapes) result [] ≡ held self.now name.now }
        ensures some { IfSome result (λ shapes. shapes.now.shapes ≢ []) }
    {
        let place = self.places.find(name)?;
        let shapes = &self.stacks[place];
        if shapes.is_empty() {
            None
        } else {
            Some(shapes)
        }
    }

    /// Puts a shape on the stack of a name; after want of memory all is as before.
    pub fn push(&mut self, name: &[u8], shape: Shape) -> Result<(), NoMemory>
        ensures shapes { OnOk result ((other : List ℕ)
            → held self.new other ≡ (if bytes_eq other name.now then held self.old other ++ shape ∷ []
            else held self.old other)) }
        ensures marks { OnOk result ((other key types : List ℕ) (stop : ℕ)
            → IsFound (kinds self.new other) key types stop → IsFound (kinds self.old other) key types stop) }
        ensures err { OnErr result (self.new ≡ self.old) }
    {
        let place = match self.places.find(name) {
            Some(place) => place,
            None => return self.push_first(name, shape),
        };
        let stack = &mut self.stacks[place];
        stack.push(shape)
    }

    /// Puts a shape on the stack of a name that isn't there yet.
    fn push_first(&mut self, name: &[u8], shape: Shape) -> Result<(), NoMemory>
        requires { position (bytes_eq name.now) self.old.names ≡ None }
        ensures shapes { OnOk result ((other : List ℕ)
            → held self.new other ≡ (if bytes_eq other name.now then held self.old other ++ shape ∷ []
            else held self.old other)) }
        ensures marks { OnOk result ((other key types : List ℕ) (stop : ℕ)
            → IsFound (kinds self.new other) key types stop → IsFound (kinds self.old other) key types stop) }
        ensures err { OnErr result (self.new ≡ self.old) }
    {
        match first_stack(self.alloc, shape) {
            Ok(stack) => self.put(name, stack),
            Err(fault) => Err(fault),
        }
    }

    /// Puts a stack under a name that isn't there yet.
    fn put(&mut self, name: &[u8], stack: Shapes) -> Result<(), NoMemory>
        requires { position (bytes_eq name.now) self.old.names ≡ None }
        ensures ok { OnOk result (self.new ≡ record {
          names = self.old.names ++ name.now ∷ [];
          stacks = self.old.stacks
              ++ stack ∷ [];
        }) }
        ensures err { OnErr result (self.new ≡ self.old) }
    {
        if self.stacks.reserve(1).is_err() {
            return Err(NoMemory);
        }
        match self.places.push(name) {
            Ok(()) => {
                self.stacks.push_reserved(stack);
                Ok(())
            }
            Err(fault) => Err(fault),
        }
    }

    /// Takes the top off the stack of a name, if there is one.
    pub fn pop(&mut self, name: &[u8])
        ensures shapes { (other : List ℕ) → held self.new other
            ≡ (if bytes_eq other name.now then take (length (held self.old other) - 1) (held self.old other)
            else held self.old other) }
        ensures marks { (other key types : List ℕ) (stop : ℕ) → IsFound (kinds self.new other) key types stop
            → IsFound (kinds self.old other) key types stop }
    {
        let Some(place) = self.places.find(name) else {
            return;
        };
        let stack = &mut self.stacks[place];
        stack.pop();
    }

    /// The inner types of the shapes under a name, each once; none where there are no shapes.
    pub fn inners(&self, name: &[u8]) -> &[u32]
        ensures value { result.now ≡ (kinds self.now name.now).types }
        ensures same { (inner : ℕ) → Contains result.now inner ↔ Contains (inners (held self.now name.now)) inner }
    {
        match self.places.find(name) {
            Some(place) => self.stacks[place].inners(),
            None => &[],
        }
    }

    /// What was found under a key of the first inner types of a name, where these are still there; it may be forgotten.
    pub fn found(&mut self, name: &[u8], key: &[u16]) -> Option<Found>
        ensures same { self.new ≡ self.old }
        ensures within { IfSome result (λ found. found.count ≤ length (kinds self.old name.now).types) }
        ensures found { IfSome result (λ found. IsFound (kinds self.old name.now) key.now
            (take found.count (kinds self.old name.now).types) found.stop) }
    {
        let place = self.places.find(name)?;
        let stack = &mut self.stacks[place];
        stack.found(key)
    }

    /// Keeps under a key what was found of the first inner types of a name; after want of memory all is as before.
    pub fn mark(&mut self, name: &[u8], key: &[u16], found: Found) -> Result<(), NoMemory>
        ensures shapes { (other : List ℕ) → held self.new other ≡ held self.old other }
        ensures types { (other : List ℕ) → (kinds self.new other).types ≡ (kinds self.old other).types }
        ensures marks { OnOk result ((other under types : List ℕ) (stop : ℕ)
            → IsFound (kinds self.new other) under types stop
            → IsFound (kinds self.old other) under types stop
            ⊎ ((other ≡ name.now) × (under ≡ key.now) × (types ≡ take found.count (kinds self.old other).types)
            × (stop ≡ found.stop))) }
        ensures err { OnErr result (self.new ≡ self.old) }
    {
        let Some(place) = self.places.find(name) else {
            return Ok(());
        };
        let stack = &mut self.stacks[place];
        stack.mark(key, found)
    }
}

/// A stack of one shape.
fn first_stack(alloc: Global, shape: Shape) -> Result<Shapes, NoMemory>
    ensures shapes { IfOk result (λ s. s.shapes ≡ shape ∷ []) }
    ensures marks { IfOk result (λ s. (key types : List ℕ) (stop : ℕ) → IsFound s.kinds key types stop → ⊥) }
{
    let mut stack = Shapes::new(alloc);
    match stack.push(shape) {
        Ok(()) => Ok(stack),
        Err(_) => Err(NoMemory),
    }
}
