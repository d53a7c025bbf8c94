//! Blocks in order, each under its name, and a table of the places of names.
ghost use Rattle.std.specs.Prelude.{◌≡◌, ◌+◌, ◌-◌, ◌≤◌, ◌<◌, ◌^◌, ℕ, [], ◌∷◌, ◌++◌, length, min, None, Some, OnOk, OnErr, IsSome, IfSome, slice_get, slice_set, insert, unwrap_or, vec_capacity};
ghost use Rattle.std.specs.List.{remove};
ghost use Rattle.nif_graph.specs.declared.slots.Slot.{Slot};
ghost use Rattle.nif_graph.specs.Slots.{place_in, DifferentSlots, tabled};

use nif_base::NoMemory;
use nif_value::TreeId;
use std::alloc::Global;
use std::marker::Model;

/// A block that is kept.
#[derive(Debug, Clone, Copy, PartialEq, Eq)]
pub(crate) struct Slot {
    pub(crate) name: u32,
    /// The number of the declaration of its type.
    pub(crate) kind: u32,
    /// Its entry in `Block Type Index`, where the header has that member.
    pub(crate) index_word: Option<u16>,
    pub(crate) tree: TreeId,
}

/// Blocks in order, and the place of each name that was given.
#[derive(Drop)]
pub(crate) struct Slots {
    slots: Vec<Slot>,
    // by name; none where the block was taken out
    places: Vec<Option<u32>>,
}

impl Model for Slots {
    ghost use Rattle.std.specs.Prelude.{length, min, ◌-◌, ◌<◌, ◌^◌, vec_capacity};
    ghost use Rattle.nif_graph.specs.Slots.{Listed, coded_listed, IsTable};

    ghost Value = { Listed };

    ghost coded = { coded_listed };

    ghost view = { λ a. record {
      slots = a.slots.items;
      next = length a.places.items;
      room = min (vec_capacity a.slots - length a.slots.items) (vec_capacity a.places - length a.places.items);
    } };

    ghost invariant = { λ a. IsTable a.places.items a.slots.items };
}

impl Slots {
    /// No blocks, and no name was given. It takes no memory.
    pub(crate) fn new(alloc: Global) -> Slots
        ensures slots { result.slots ≡ [] }
        ensures next { result.next ≡ 0 }
    {
        Slots {
            slots: Vec::new(alloc),
            places: Vec::new(alloc),
        }
    }

    /// How many blocks there are.
    pub(crate) fn len(&self) -> u32
        ensures { result ≡ length self.now.slots }
    {
        self.slots.len() as u32
    }

    /// How many names were given.
    pub(crate) fn next(&self) -> u32
        ensures { result ≡ self.now.next }
    {
        self.places.len() as u32
    }

    /// The block at a place.
    pub(crate) fn at(&self, place: u32) -> Slot
        requires { place < length self.now.slots }
        ensures { slice_get self.now.slots place ≡ Some result }
    {
        self.slots[place as usize]
    }

    /// The place of a block, or none where no block has the name.
    pub(crate) fn place_of(&self, name: u32) -> Option<u32>
        ensures { result ≡ place_in name self.now.slots }
    {
        if (name as usize) < self.places.len() {
            return self.places[name as usize];
        }
        None
    }

    /// The place of the block of a name.
    pub(crate) fn place_there(&self, name: u32) -> u32
        requires { IsSome (place_in name self.now.slots) }
        ensures { place_in name self.now.slots ≡ Some result }
    {
        match self.place_of(name) {
            Some(place) => place,
            None => unreachable!(),
        }
    }

    /// The block of a name.
    pub(crate) fn find(&self, name: u32) -> Slot
        requires { IsSome (place_in name self.now.slots) }
        ensures at { IfSome (place_in name self.now.slots) (λ place. slice_get self.now.slots place ≡ Some result) }
        ensures name { result.name ≡ name }
    {
        match self.place_of(name) {
            Some(place) => self.at(place),
            None => unreachable!(),
        }
    }

    /// The place of each name that was given.
    pub(crate) fn places(&self) -> &[Option<u32>]
        ensures { (name : ℕ) → unwrap_or (slice_get result.now name) None ≡ place_in name self.now.slots }
    {
        self.places.as_slice()
    }

    /// Makes room for so many blocks of new names.
    pub(crate) fn reserve(&mut self, blocks: u32) -> Result<(), NoMemory>
        ensures slots { self.new.slots ≡ self.old.slots }
        ensures next { self.new.next ≡ self.old.next }
        ensures stays { self.old.room ≤ self.new.room }
        ensures ok { OnOk result (blocks ≤ self.new.room) }
    {
        match self.slots.reserve(blocks as usize) {
            Ok(()) => {}
            Err(_) => return Err(NoMemory),
        }
        match self.places.reserve(blocks as usize) {
            Ok(()) => Ok(()),
            Err(_) => Err(NoMemory),
        }
    }

    /// Puts a block behind the others, under the next name, where there is room.
    pub(crate) fn push(&mut self, kind: u32, index_word: Option<u16>, tree: TreeId)
        requires room { 1 ≤ self.old.room }
        requires few { self.old.next < 2 ^ 32 - 1 }
        ensures slots { self.new.slots ≡ self.old.slots ++ record {
          name = self.old.next;
          kind = kind;
          index_word = index_word;
          tree = tree;
        } ∷ [] }
        ensures next { self.new.next ≡ self.old.next + 1 }
        ensures room { self.new.room + 1 ≡ self.old.room }
    {
        let name = self.places.len() as u32;
        let place = self.slots.len() as u32;
        self.slots.push_reserved(Slot {
            name,
            kind,
            index_word,
            tree,
        });
        self.places.push_reserved(Some(place));
    }

    /// Takes the block at a place out. No block has its name then.
    pub(crate) fn take(&mut self, place: u32) -> Slot
        requires { place < length self.old.slots }
        ensures slot { slice_get self.old.slots place ≡ Some result }
        ensures slots { self.new.slots ≡ remove self.old.slots place }
        ensures next { self.new.next ≡ self.old.next }
        ensures room { self.old.room ≤ self.new.room }
    {
        let slot = self.slots.remove(place as usize);
        self.places[slot.name as usize] = None;
        enter(&mut self.places, &self.slots);
        slot
    }

    /// Puts the block at a place at another place, counted without it.
    pub(crate) fn put(&mut self, from: u32, to: u32) -> Slot
        requires from { from < length self.old.slots }
        requires to { to < length self.old.slots }
        ensures slot { slice_get self.old.slots from ≡ Some result }
        ensures slots { self.new.slots ≡ insert (remove self.old.slots from) to result }
        ensures next { self.new.next ≡ self.old.next }
        ensures room { self.new.room ≡ self.old.room }
    {
        let slot = self.slots.remove(from as usize);
        insert_reserved(&mut self.slots, to as usize, slot);
        enter(&mut self.places, &self.slots);
        slot
    }

    /// Puts a block at a place, under the next name, where there is room.
    pub(crate) fn insert(&mut self, at: u32, kind: u32, index_word: Option<u16>, tree: TreeId)
        requires at { at ≤ length self.old.slots }
        requires room { 1 ≤ self.old.room }
        requires few { self.old.next < 2 ^ 32 - 1 }
        ensures slots { self.new.slots ≡ insert self.old.slots at (record {
          name = self.old.next;
          kind = kind;
          index_word = index_word;
          tree = tree;
        }) }
        ensures next { self.new.next ≡ self.old.next + 1 }
        ensures room { self.new.room + 1 ≡ self.old.room }
    {
        let name = self.places.len() as u32;
        self.places.push_reserved(None);
        let slot = Slot {
            name,
            kind,
            index_word,
            tree,
        };
        insert_reserved(&mut self.slots, at as usize, slot);
        enter(&mut self.places, &self.slots);
    }

    /// Puts another block of the same name in place of the one at a place.
    pub(crate) fn set(&mut self, place: u32, slot: Slot)
        requires name { IfSome (slice_get self.old.slots place) (λ old. slot.name ≡ old.name) }
        requires within { place < length self.old.slots }
        ensures slots { self.new.slots ≡ slice_set self.old.slots place slot }
        ensures next { self.new.next ≡ self.old.next }
        ensures room { self.new.room ≡ self.old.room }
    {
        self.slots[place as usize] = slot;
    }
}

/// Enters the blocks in a table, each under its name.
fn enter(places: &mut Vec<Option<u32>>, slots: &Vec<Slot>)
    requires names { (k : ℕ) (s : Slot) → slice_get slots.now.items k ≡ Some s → s.name < length places.old.items }
    requires different { DifferentSlots slots.now.items }
    requires few { length slots.now.items < 2 ^ 32 }
    ensures length { length places.new.items ≡ length places.old.items }
    ensures capacity { vec_capacity places.new ≡ vec_capacity places.old }
    ensures table { (n : ℕ) → n < length places.old.items
        → slice_get places.new.items n ≡ tabled n slots.now.items places.old.items }
{
    for place in 0..slots.len() {
        let slot = slots[place];
        places[slot.name as usize] = Some(place as u32);
    }
}

/// Puts a block at a place of a list that has room.
fn insert_reserved(slots: &mut Vec<Slot>, at: usize, slot: Slot)
    requires at { at ≤ length slots.old.items }
    requires room { length slots.old.items < vec_capacity slots.old }
    ensures items { slots.new.items ≡ insert slots.old.items at slot }
    ensures capacity { vec_capacity slots.new ≡ vec_capacity slots.old }
{
    match slots.insert(at, slot) {
        Ok(()) => {}
        Err(_) => unreachable!(),
    }
}
