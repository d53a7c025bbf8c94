//! Members of bitfields.
ghost use Rattle.std.specs.Prelude.{◌≡◌, ◌-◌, ◌^◌, ◌<◌, [], ◌∷◌, ◌++◌, length, OnOk, OnErr, slice_get, Some};

use nif_base::{NoMemory, Word};
use std::alloc::Global;
use std::marker::Model;

/// A member of a bitfield: `width` bits from bit `pos` on, the lowest bit of the stored number being bit 0. A
/// member whose `pos` or `width` is no such number is bad, and has both 0.
#[derive(Drop)]
pub struct BitMember {
    pub name: Word,
    pub pos: u8,
    pub width: u8,
    pub bad: bool,
}

/// A list of at most 2^32 - 1 members of a bitfield.
#[derive(Drop)]
pub struct BitMembers {
    items: Vec<BitMember>,
}

impl Model for BitMembers {
    ghost use Rattle.std.specs.Prelude.{◌^◌, ◌<◌, List, vec_len};
    ghost use Rattle.nif_schema.specs.declared.members.BitMember.{BitMember};

    ghost Value = { List BitMember };

    ghost view = { λ a. a.items.items };

    ghost invariant = { λ a. vec_len a.items < 2 ^ 32 };
}

impl BitMembers {
    /// A list of no members. It takes no memory.
    pub fn new(alloc: Global) -> BitMembers
        ensures { result ≡ [] }
    {
        BitMembers {
            items: Vec::new(alloc),
        }
    }

    /// How many members it has.
    pub fn len(&self) -> u32
        ensures { result ≡ length self.now }
    {
        self.items.len() as u32
    }

    /// The member at a place, counted from 0.
    pub fn get(&self, place: u32) -> &BitMember
        requires { place < length self.now }
        ensures { slice_get self.now place ≡ Some result.now }
    {
        &self.items[place as usize]
    }

    /// Puts a member behind the others; after want of memory the list is as before.
    pub fn push(&mut self, item: BitMember) -> Result<(), NoMemory>
        requires { length self.old < 2 ^ 32 - 1 }
        ensures ok { OnOk result (self.new ≡ self.old ++ item ∷ []) }
        ensures err { OnErr result (self.new ≡ self.old) }
    {
        match self.items.push(item) {
            Ok(()) => Ok(()),
            Err(_) => Err(NoMemory),
        }
    }
}
