//! Changes of a graph.
ghost use Rattle.std.specs.Prelude.{◌≡◌, ◌+◌, ◌-◌, ◌^◌, ◌≤◌, ◌<◌, ℕ, true, length, None, Some, IfSome, IsSome, IfOk, IsOk, OnOk, OnErr};
ghost use Rattle.nif_base.specs.File.{nodes_of};
ghost use Rattle.nif_value.specs.Trees.{SpareStays};
ghost use Rattle.nif_graph.specs.Graph.{is_live, reference};
ghost use Rattle.nif_graph.specs.Changes.{copied, copy_cells, moved, replaced_by, taken_out, targeted};
ghost use Rattle.nif_graph.specs.Written.{numbered, told_rows};

use crate::emptying::{empty_all, empty_tree};
use crate::graphs::Graph;
use crate::slots::Slot;
use nif_base::NoMemory;

impl Graph {
    /// Gives reference k of a block, or of the footer for no name, a target, or none. It takes no memory. The file that
    /// is written has as many nodes and bytes as before.
    pub fn put_target(&mut self, from: Option<u32>, k: u32, to: Option<u32>)
        requires reference { IsSome (reference self.old.graph from k) }
        requires live { IfSome to (λ to. is_live to self.old.graph.blocks ≡ true) }
        ensures graph { self.new.graph ≡ targeted self.old.graph from k to }
        ensures places { self.new.places ≡ self.old.places }
        ensures bytes { self.new.bytes ≡ self.old.bytes }
        ensures room { self.new.room ≡ self.old.room }
        ensures name { self.new.room_for_name ≡ self.old.room_for_name }
        ensures spare { SpareStays self.old.trees self.new.trees }
    {
        match from {
            Some(name) => self.put_block_target(name, k, to),
            None => self.put_root(k, to),
        }
    }

    /// Gives reference k of a block a target, or none.
    fn put_block_target(&mut self, name: u32, k: u32, to: Option<u32>)
        requires reference { IsSome (reference self.old.graph (Some name) k) }
        requires live { IfSome to (λ to. is_live to self.old.graph.blocks ≡ true) }
        ensures graph { self.new.graph ≡ targeted self.old.graph (Some name) k to }
        ensures places { self.new.places ≡ self.old.places }
        ensures bytes { self.new.bytes ≡ self.old.bytes }
        ensures room { self.new.room ≡ self.old.room }
        ensures name { self.new.room_for_name ≡ self.old.room_for_name }
        ensures spare { SpareStays self.old.trees self.new.trees }
    {
        let tree = self.slots.find(name).tree;
        self.store.set_ref(tree, k, to);
    }

    /// Gives a root, counted from 0, a target, or none.
    fn put_root(&mut self, k: u32, to: Option<u32>)
        requires reference { IsSome (reference self.old.graph None k) }
        requires live { IfSome to (λ to. is_live to self.old.graph.blocks ≡ true) }
        ensures graph { self.new.graph ≡ targeted self.old.graph None k to }
        ensures places { self.new.places ≡ self.old.places }
        ensures bytes { self.new.bytes ≡ self.old.bytes }
        ensures room { self.new.room ≡ self.old.room }
        ensures name { self.new.room_for_name ≡ self.old.room_for_name }
        ensures spare { SpareStays self.old.trees self.new.trees }
    {
        self.store.set_ref(self.footer, k, to);
    }

    /// Puts a block at a place, counted without it; the others keep their order. It takes no memory, and time at most as
    /// there are blocks. The file that is written has as many nodes and bytes as before.
    pub fn put_place(&mut self, name: u32, place: u32)
        requires live { is_live name self.old.graph.blocks ≡ true }
        requires place { place < length self.old.graph.blocks }
        ensures graph { self.new.graph ≡ moved self.old.graph name place }
        ensures places { self.new.places ≡ self.old.places }
        ensures trees { self.new.trees ≡ self.old.trees }
        ensures bytes { self.new.bytes ≡ self.old.bytes }
        ensures room { self.new.room ≡ self.old.room }
        ensures name { self.new.room_for_name ≡ self.old.room_for_name }
    {
        let from = self.slots.place_there(name);
        self.slots.put(from, place);
    }

    /// Takes a block out and empties all references to it, in blocks and footer. Its name never comes again. `rows` is how
    /// many rows of the header have an item for each block; `bytes`, how many bytes the file then has that is written. It
    /// takes no memory, and time at most as there are blocks and references, and as the block has nodes.
    pub fn take_out(&mut self, name: u32, rows: u32, bytes: u32)
        requires live { is_live name self.old.graph.blocks ≡ true }
        requires rows { rows ≡ told_rows self.old.places self.old.graph.header }
        ensures graph { self.new.graph ≡ taken_out self.old.graph name }
        ensures places { self.new.places ≡ self.old.places }
        ensures bytes { self.new.bytes ≡ bytes }
        ensures room { self.new.room ≡ self.old.room }
        ensures name { self.new.room_for_name ≡ self.old.room_for_name }
        ensures spare { SpareStays self.old.trees self.new.trees }
    {
        let place = self.slots.place_there(name);
        let tree = self.slots.take(place).tree;
        let gone = self.store.nodes(tree);
        self.store.drop_tree(tree);
        empty_all(&mut self.store, &self.slots, name);
        empty_tree(&mut self.store, self.footer, name);
        self.nodes = self.nodes - rows - gone;
        self.bytes = bytes;
    }

    /// Puts a copy of a block at a place, under the next name, and answers that. `rows` and `bytes` are as in `take_out`.
    /// It takes no memory where there is room; after want of memory all is as before but the room.
    pub fn put_copy(
        &mut self,
        name: u32,
        place: u32,
        rows: u32,
        bytes: u32,
    ) -> Result<u32, NoMemory>
        requires live { is_live name self.old.graph.blocks ≡ true }
        requires place { place ≤ length self.old.graph.blocks }
        requires few { self.old.graph.next < 2 ^ 32 - 1 }
        requires rows { rows ≡ told_rows self.old.places self.old.graph.header }
        requires nodes { nodes_of (numbered self.old.places (copied self.old.graph name place)) < 2 ^ 32 }
        ensures new_name { IfOk result (λ new. new ≡ self.old.graph.next) }
        ensures graph { OnOk result (self.new.graph ≡ copied self.old.graph name place) }
        ensures bytes { OnOk result (self.new.bytes ≡ bytes) }
        ensures err { OnErr result (self.new.graph ≡ self.old.graph) }
        ensures err_bytes { OnErr result (self.new.bytes ≡ self.old.bytes) }
        ensures places { self.new.places ≡ self.old.places }
        ensures name { self.new.room_for_name ≡ self.old.room_for_name }
        ensures room { self.old.room ≤ self.new.room + 1 }
        ensures cells { self.old.trees.spare_cells ≤ self.new.trees.spare_cells + copy_cells self.old.graph name }
        ensures more_trees { self.old.trees.spare_trees ≤ self.new.trees.spare_trees + 1 }
        ensures succeeds { 1 ≤ self.old.room → copy_cells self.old.graph name ≤ self.old.trees.spare_cells
            → 1 ≤ self.old.trees.spare_trees → IsOk result }
    {
        match self.reserve_blocks(1) {
            Ok(()) => {}
            Err(NoMemory) => return Err(NoMemory),
        }
        self.copy_block(name, place, rows, bytes)
    }

    /// Puts a copy of a block at a place, under the next name, where there is room for its name.
    fn copy_block(&mut self, name: u32, place: u32, rows: u32, bytes: u32) -> Result<u32, NoMemory>
        requires live { is_live name self.old.graph.blocks ≡ true }
        requires place { place ≤ length self.old.graph.blocks }
        requires few { self.old.graph.next < 2 ^ 32 - 1 }
        requires rows { rows ≡ told_rows self.old.places self.old.graph.header }
        requires nodes { nodes_of (numbered self.old.places (copied self.old.graph name place)) < 2 ^ 32 }
        requires room { 1 ≤ self.old.room }
        ensures new_name { IfOk result (λ new. new ≡ self.old.graph.next) }
        ensures graph { OnOk result (self.new.graph ≡ copied self.old.graph name place) }
        ensures bytes { OnOk result (self.new.bytes ≡ bytes) }
        ensures err { OnErr result (self.new.graph ≡ self.old.graph) }
        ensures err_bytes { OnErr result (self.new.bytes ≡ self.old.bytes) }
        ensures places { self.new.places ≡ self.old.places }
        ensures name { self.new.room_for_name ≡ self.old.room_for_name }
        ensures room { self.old.room ≤ self.new.room + 1 }
        ensures cells { self.old.trees.spare_cells ≤ self.new.trees.spare_cells + copy_cells self.old.graph name }
        ensures more_trees { self.old.trees.spare_trees ≤ self.new.trees.spare_trees + 1 }
        ensures succeeds { copy_cells self.old.graph name ≤ self.old.trees.spare_cells
            → 1 ≤ self.old.trees.spare_trees → IsOk result }
    {
        let slot = self.slots.find(name);
        let copy = match self.store.copy(slot.tree) {
            Ok(copy) => copy,
            Err(NoMemory) => return Err(NoMemory),
        };
        let more = self.store.nodes(copy);
        let new = self.slots.next();
        self.slots.insert(place, slot.kind, slot.index_word, copy);
        self.marks.grow();
        self.room -= 1;
        self.nodes = self.nodes + rows + more;
        self.bytes = bytes;
        Ok(new)
    }

    /// Puts a copy of a block in place of another, whose name stays. `bytes` is how many bytes the file then has that is
    /// written. Where both are one block, nothing is done. It takes no memory where there is room; after want of memory
    /// all is as before but the room.
    pub fn put_over(&mut self, name: u32, other: u32, bytes: u32) -> Result<(), NoMemory>
        requires live { is_live name self.old.graph.blocks ≡ true }
        requires other { is_live other self.old.graph.blocks ≡ true }
        requires nodes { nodes_of (numbered self.old.places (replaced_by self.old.graph name other)) < 2 ^ 32 }
        ensures graph { OnOk result (self.new.graph ≡ replaced_by self.old.graph name other) }
        ensures bytes { OnOk result (self.new.bytes ≡ bytes) }
        ensures err { OnErr result (self.new.graph ≡ self.old.graph) }
        ensures err_bytes { OnErr result (self.new.bytes ≡ self.old.bytes) }
        ensures places { self.new.places ≡ self.old.places }
        ensures room { self.new.room ≡ self.old.room }
        ensures name { self.new.room_for_name ≡ self.old.room_for_name }
        ensures cells { self.old.trees.spare_cells ≤ self.new.trees.spare_cells + copy_cells self.old.graph other }
        ensures more_trees { self.old.trees.spare_trees ≤ self.new.trees.spare_trees }
        ensures succeeds { copy_cells self.old.graph other ≤ self.old.trees.spare_cells
            → 1 ≤ self.old.trees.spare_trees → IsOk result }
    {
        if name == other {
            self.bytes = bytes;
            return Ok(());
        }
        self.replace_block(name, other, bytes)
    }

    /// Puts a copy of a block in place of another, whose name stays.
    fn replace_block(&mut self, name: u32, other: u32, bytes: u32) -> Result<(), NoMemory>
        requires live { is_live name self.old.graph.blocks ≡ true }
        requires other { is_live other self.old.graph.blocks ≡ true }
        requires nodes { nodes_of (numbered self.old.places (replaced_by self.old.graph name other)) < 2 ^ 32 }
        ensures graph { OnOk result (self.new.graph ≡ replaced_by self.old.graph name other) }
        ensures bytes { OnOk result (self.new.bytes ≡ bytes) }
        ensures err { OnErr result (self.new.graph ≡ self.old.graph) }
        ensures err_bytes { OnErr result (self.new.bytes ≡ self.old.bytes) }
        ensures places { self.new.places ≡ self.old.places }
        ensures room { self.new.room ≡ self.old.room }
        ensures name { self.new.room_for_name ≡ self.old.room_for_name }
        ensures cells { self.old.trees.spare_cells ≤ self.new.trees.spare_cells + copy_cells self.old.graph other }
        ensures more_trees { self.old.trees.spare_trees ≤ self.new.trees.spare_trees }
        ensures succeeds { copy_cells self.old.graph other ≤ self.old.trees.spare_cells
            → 1 ≤ self.old.trees.spare_trees → IsOk result }
    {
        let place = self.slots.place_there(name);
        let gone = self.slots.at(place);
        let slot = self.slots.find(other);
        let copy = match self.store.copy(slot.tree) {
            Ok(copy) => copy,
            Err(NoMemory) => return Err(NoMemory),
        };
        let less = self.store.nodes(gone.tree);
        let more = self.store.nodes(copy);
        self.store.drop_tree(gone.tree);
        self.slots.set(
            place,
            Slot {
                name: gone.name,
                kind: slot.kind,
                index_word: slot.index_word,
                tree: copy,
            },
        );
        self.nodes = self.nodes - less + more;
        self.bytes = bytes;
        Ok(())
    }
}
