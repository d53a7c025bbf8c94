//! Parts of a tree that is being built: what is open, and its cells.
ghost use Rattle.std.specs.Prelude.{◌≡◌, ◌+◌, ◌/◌, ◌^◌, ◌<◌, ◌≤◌, ◌-◌, ◌∷◌, [], length, vec_capacity, All, None, IsSomeAnd};
ghost use Rattle.nif_region.specs.Contents.{find};
ghost use Rattle.nif_cells.specs.Encoding.{packed_from, words, index_from};
ghost use Rattle.nif_value.specs.Packing.{started};
ghost use Rattle.nif_value.specs.Built.{head_said, end_said, counted, Puts, MayPut};

use crate::packing::Packing;
use nif_cells::Content;
use nif_region::{Region, RunId};

/// What a level of a tree is that is being built.
#[derive(Drop, Clone, Copy)]
pub(crate) enum Kind {
    Bytes,
    Group,
    Row,
}

/// A level that is open: the place of the cell at its head, and how many bytes, members or items it holds.
#[derive(Drop, Clone, Copy)]
pub(crate) struct Open {
    pub(crate) kind: Kind,
    pub(crate) head: u32,
    pub(crate) count: u32,
}

impl Kind {
    /// What the head says of a level that holds so many.
    pub(crate) fn head(self, count: u32) -> Content
        ensures { result ≡ head_said self count }
    {
        match self {
            Kind::Bytes => Content::Bytes { len: count },
            Kind::Group => Content::Group { members: count },
            Kind::Row => Content::Row { items: count },
        }
    }

    /// What the last cell of a level says.
    pub(crate) fn end(self, packing: Packing) -> Content
        ensures { result ≡ end_said self packing.left packing.bits }
    {
        match self {
            Kind::Bytes => Content::Tail {
                left: packing.left,
                bits: packing.bits,
            },
            Kind::Group | Kind::Row => Content::End,
        }
    }
}

/// So many more bytes, members or items in the level that is innermost, if any is open.
pub(crate) fn count(open: &mut Vec<Open>, more: u32)
    requires { All (λ o. o.count + more < 4294967296) open.old.items }
    ensures items { open.new.items ≡ counted more open.old.items }
    ensures capacity { vec_capacity open.new ≡ vec_capacity open.old }
{
    if let Some(level) = open.pop() {
        open.push_reserved(Open {
            count: level.count + more,
            ..level
        });
    }
}

/// Puts a cell behind the others of the run that is being built.
pub(crate) fn put(region: &mut Region, content: Content)
    requires { MayPut region.old 1 }
    ensures { Puts region.old region.new (content ∷ []) }
{
    let Ok(()) = region.push(content.cell()) else {
        unreachable!()
    };
}

/// Puts bytes behind those that are being packed, and each eight that are full in a cell.
pub(crate) fn put_bytes(region: &mut Region, packing: &mut Packing, bytes: &[u8])
    requires room { MayPut region.old ((packing.old.left + length bytes.now) / 8) }
    requires left { packing.old.left < 8 }
    requires bits { packing.old.bits < 256 ^ packing.old.left }
    ensures puts { Puts region.old region.new (words
        (packed_from (started packing.old.left packing.old.bits) bytes.now).words) }
    ensures left { packing.new.left ≡ (packed_from (started packing.old.left packing.old.bits) bytes.now).left }
    ensures bits { packing.new.bits ≡ (packed_from (started packing.old.left packing.old.bits) bytes.now).bits }
{
    for byte in bytes {
        if let Some(bits) = packing.add(*byte) {
            put(region, Content::Word { bits });
        }
    }
}

/// Puts the places of references behind all.
pub(crate) fn put_index(region: &mut Region, references: &[u32])
    requires { MayPut region.old (length references.now) }
    ensures { Puts region.old region.new (index_from 0 references.now) }
{
    let mut number = 0;
    for place in references {
        number += 1;
        put(
            region,
            Content::Place {
                number,
                place: *place,
            },
        );
    }
}

/// Begins a run and puts the cells of another in it.
pub(crate) fn copy_run(region: &mut Region, run: RunId, len: u32)
    requires free { region.old.building ≡ None }
    requires live { IsSomeAnd (find region.old.runs run.key) (λ cells. length cells ≡ len) }
    requires few { len < 2 ^ 32 - 2 }
    requires cells { len + 1 ≤ region.old.spare_cells }
    requires runs { 1 ≤ region.old.spare_runs }
    ensures runs { region.new.runs ≡ region.old.runs }
    ensures building { region.new.building ≡ find region.old.runs run.key }
    ensures spare_cells { region.old.spare_cells ≤ region.new.spare_cells + len + 1 }
    ensures spare_runs { region.old.spare_runs ≤ region.new.spare_runs + 1 }
{
    let Ok(()) = region.open_run() else {
        unreachable!()
    };
    for place in 0..len {
        let cell = region.get(run, place);
        let Ok(()) = region.push(cell) else {
            unreachable!()
        };
    }
}
