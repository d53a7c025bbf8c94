//! The graph of a file.
ghost use Rattle.std.specs.Prelude.{◌≡◌, ◌+◌, ◌≤◌, ◌<◌, ◌^◌, ℕ, true, length, map, None, Some, IfSome, IfOk, IsOk, OnOk, OnErr, IsSome, IsSomeAnd, slice_get, unwrap_or, option_and_then, refl, min, max};
ghost use Rattle.std.specs.Option.{option_map};
ghost use Rattle.nif_base.specs.Node.{refs};
ghost use Rattle.nif_base.specs.File.{nodes_of};
ghost use Rattle.nif_base.specs.Graph.{Graph};
ghost use Rattle.nif_region.specs.Contents as region;
ghost use Rattle.nif_value.specs.Trees.{IsLive, SpareStays, reference_of};
ghost use Rattle.nif_graph.specs.Graph.{find, place, kind_of, is_live, reference};
ghost use Rattle.nif_graph.specs.Reach.{Reaches, is_wanted, well_typed};
ghost use Rattle.nif_graph.specs.State.{AreParts, graph_in, origin_of, node_at};
ghost use Rattle.nif_graph.specs.Written.{rest_of, numbered, is_indexed};
ghost use Rattle.nif_graph.specs.Slots.{slots_from};

use crate::marks::Marks;
use crate::parts::{Blocks, GraphParts};
use crate::places::RolePlaces;
use crate::slots::Slots;
use nif_base::{NoMemory, Word};
use nif_schema::{Context, Schema};
use nif_value::{RefView, Store, TreeId};
use std::alloc::Global;
use std::marker::Model;

/// The blocks of a file, each under a name that stays with it, and its header and footer. The targets of all references
/// are names. In a graph that was just read the name of a block is its place.
#[derive(Drop)]
pub struct Graph {
    pub(crate) store: Store,
    pub(crate) header: TreeId,
    pub(crate) footer: TreeId,
    pub(crate) places: RolePlaces,
    pub(crate) context: Context,
    pub(crate) strings: u32,
    pub(crate) indexed: bool,
    pub(crate) types: Vec<Word>,
    pub(crate) slots: Slots,
    pub(crate) nodes: u32,
    pub(crate) bytes: u32,
    pub(crate) marks: Marks,
    // for so many blocks of new names there is room
    pub(crate) room: u32,
    // a copy of a name that is yet to become an entry
    pub(crate) room_for_name: Option<Word>,
}

impl Model for Graph {
    ghost use Rattle.nif_graph.specs.State.{GraphState, origin_of};
    ghost use Rattle.nif_graph.specs.Codes.{coded_state};

    ghost Value = { GraphState };

    ghost coded = { coded_state };

    ghost use Rattle.nif_graph.specs.Kept.{kept_graph, IsKept};

    ghost view = { λ g. record {
      graph = kept_graph g.store g.header g.footer g.places (origin_of g.context g.strings) g.types.items g.slots;
      places = g.places;
      trees = g.store;
      bytes = g.bytes;
      room = g.room;
      room_for_name = g.room_for_name;
    } };

    ghost invariant = { λ g. IsKept g.store g.header g.footer g.places (origin_of g.context g.strings) g.indexed
        g.types.items g.slots g.nodes g.marks g.room };
}

/// Names for so many blocks, each the place of its block.
fn named(alloc: Global, blocks: &Blocks) -> Result<Slots, NoMemory>
    ensures slots { IfOk result (λ slots. slots.slots ≡ slots_from 0 blocks.now) }
    ensures next { IfOk result (λ slots. slots.next ≡ length blocks.now) }
{
    let mut slots = Slots::new(alloc);
    match slots.reserve(blocks.len()) {
        Ok(()) => {}
        Err(NoMemory) => return Err(NoMemory),
    }
    for place in 0..blocks.len() {
        let part = *blocks.get(place);
        slots.push(part.kind, part.index_word, part.tree);
    }
    Ok(slots)
}

impl Graph {
    /// The graph of a file that was read. The name of each block is its place.
    pub fn from_parts(alloc: Global, parts: GraphParts) -> Result<Graph, NoMemory>
        requires { AreParts parts }
        ensures graph { IfOk result (λ g. g.graph ≡ graph_in parts) }
        ensures places { IfOk result (λ g. g.places ≡ parts.places) }
        ensures trees { IfOk result (λ g. g.trees ≡ parts.store) }
        ensures bytes { IfOk result (λ g. g.bytes ≡ parts.bytes) }
    {
        // More names than a number of 32 bits counts fit in no memory.
        if parts.types.len() > u32::MAX as usize {
            return Err(NoMemory);
        }
        let slots = match named(alloc, &parts.blocks) {
            Ok(slots) => slots,
            Err(NoMemory) => return Err(NoMemory),
        };
        let marks = match Marks::new(alloc, slots.next()) {
            Ok(marks) => marks,
            Err(NoMemory) => return Err(NoMemory),
        };
        Ok(Graph {
            store: parts.store,
            header: parts.header,
            footer: parts.footer,
            places: parts.places,
            context: parts.context,
            strings: parts.strings,
            indexed: parts.indexed,
            types: parts.types,
            slots,
            nodes: parts.nodes,
            bytes: parts.bytes,
            marks,
            room: 0,
            room_for_name: None,
        })
    }

    /// The versions and the byte order of the file.
    pub fn context(&self) -> &Context
        ensures { origin_of result.now self.now.graph.origin.strings ≡ self.now.graph.origin }
    {
        &self.context
    }

    /// How many blocks there are.
    pub fn count(&self) -> u32
        ensures { result ≡ length self.now.graph.blocks }
    {
        self.slots.len()
    }

    /// The name of the block at a place, counted from 0.
    pub fn name_at(&self, place: u32) -> u32
        requires { place < length self.now.graph.blocks }
        ensures name { option_map (λ b. b.name) (slice_get self.now.graph.blocks place) ≡ Some result }
        ensures live { is_live result self.now.graph.blocks ≡ true }
        ensures block { find result self.now.graph.blocks
            ≡ option_map (λ b. b.block) (slice_get self.now.graph.blocks place) }
    {
        self.slots.at(place).name
    }

    /// The place of the block of a name, or none where no block has it. It takes constant time.
    pub fn place_of(&self, name: u32) -> Option<u32>
        ensures { result ≡ place name self.now.graph.blocks }
    {
        self.slots.place_of(name)
    }

    /// The place of each name that was given, by its number; none where no block has it any more.
    pub fn places_of_names(&self) -> &[Option<u32>]
        ensures { (name : ℕ) → unwrap_or (slice_get result.now name) None ≡ place name self.now.graph.blocks }
    {
        self.slots.places()
    }

    /// The number of the declaration of a block's type.
    pub fn type_of(&self, name: u32) -> u32
        requires { is_live name self.now.graph.blocks ≡ true }
        ensures { kind_of self.now.graph name ≡ Some result }
    {
        self.slots.find(name).kind
    }

    /// The entry of a block in `Block Type Index`, where the header has that member.
    pub fn index_word(&self, name: u32) -> Option<u16>
        requires { is_live name self.now.graph.blocks ≡ true }
        ensures { option_map (λ b. b.index) (find name self.now.graph.blocks) ≡ Some result }
    {
        self.slots.find(name).index_word
    }

    /// Where the members of the header stand that say something of the blocks.
    pub fn places(&self) -> &RolePlaces
        ensures { result.now ≡ self.now.places }
    {
        &self.places
    }

    /// Whether the file has an index of types.
    pub fn is_indexed(&self) -> bool
        ensures { result ≡ is_indexed self.now.places self.now.graph.header }
    {
        self.indexed
    }

    /// How many names of types the header lists, where the file is indexed; else 0.
    pub fn entries(&self) -> u32
        ensures { result ≡ length self.now.graph.types }
    {
        self.types.len() as u32
    }

    /// The name of a type that the header lists, counted from 0.
    pub fn entry(&self, k: u32) -> &Word
        requires { k < length self.now.graph.types }
        ensures { slice_get self.now.graph.types k ≡ Some result.now }
    {
        &self.types[k as usize]
    }

    /// How many references a block has.
    pub fn ref_count(&self, name: u32) -> u32
        requires { is_live name self.now.graph.blocks ≡ true }
        ensures { IfSome (find name self.now.graph.blocks) (λ b. result ≡ length (refs b.node)) }
    {
        self.store.ref_count(self.slots.find(name).tree)
    }

    /// A reference of a block, counted from 0 in the order of its bytes. Its target is a name. It takes constant time.
    pub fn ref_at(&self, name: u32, k: u32) -> RefView
        requires { IsSome (reference self.now.graph (Some name) k) }
        ensures reference { reference self.now.graph (Some name) k ≡ Some (reference_of result) }
        ensures target { IfSome result.target (λ target. is_live target self.now.graph.blocks ≡ true) }
    {
        self.store.ref_at(self.slots.find(name).tree, k)
    }

    /// How many roots there are, which are the references of the footer.
    pub fn root_count(&self) -> u32
        ensures { result ≡ length (refs self.now.graph.footer) }
    {
        self.store.ref_count(self.footer)
    }

    /// A root, counted from 0. Its target is a name. It takes constant time.
    pub fn root_at(&self, k: u32) -> RefView
        requires { IsSome (reference self.now.graph None k) }
        ensures reference { reference self.now.graph None k ≡ Some (reference_of result) }
        ensures target { IfSome result.target (λ target. is_live target self.now.graph.blocks ≡ true) }
    {
        self.store.ref_at(self.footer, k)
    }

    /// Whether a reference is empty, wants any type, or its target is of the type that it wants.
    pub fn suits(&self, schema: &Schema, view: RefView) -> bool
        requires wanted { IfSome view.wanted (λ wanted. wanted < length schema.now) }
        requires found { IfSome (option_and_then (kind_of self.now.graph) view.target) (λ kind. kind < length schema.now) }
        requires live { IfSome view.target (λ target. is_live target self.now.graph.blocks ≡ true) }
        ensures { result ≡ well_typed schema.now self.now.graph (reference_of view) }
    {
        let Some(wanted) = view.wanted else {
            return true;
        };
        let Some(target) = view.target else {
            return true;
        };
        schema.is_a(self.type_of(target), wanted)
    }

    /// Whether reference k of a block is well typed.
    pub fn well_typed(&self, schema: &Schema, name: u32, k: u32) -> bool
        requires reference { IsSome (reference self.now.graph (Some name) k) }
        requires wanted { IfSome (option_and_then (λ r. r.wanted) (reference self.now.graph (Some name) k))
            (λ wanted. wanted < length schema.now) }
        requires kinds { (name kind : ℕ) → kind_of self.now.graph name ≡ Some kind → kind < length schema.now }
        ensures { IfSome (reference self.now.graph (Some name) k)
            (λ r. result ≡ well_typed schema.now self.now.graph r) }
    {
        self.suits(schema, self.ref_at(name, k))
    }

    /// Whether a walk of one or more strong references leads from a block to a block. It takes no memory, and looks at
    /// each block and reference at most once.
    pub fn reaches(&mut self, from: u32, to: u32) -> bool
        requires from { is_live from self.old.graph.blocks ≡ true }
        requires to { is_live to self.old.graph.blocks ≡ true }
        ensures yes { result ≡ true → Reaches self.old.graph.blocks from to }
        ensures no { Reaches self.old.graph.blocks from to → result ≡ true }
        ensures stays { self.new ≡ self.old }
    {
        self.marks.mark_reached(&self.store, &self.slots, from);
        self.marks.marks[to as usize]
    }

    /// How many nodes the file has that is written of the graph, absent members too.
    pub fn nodes(&self) -> u32
        ensures { result ≡ nodes_of (numbered self.now.places self.now.graph) }
    {
        self.nodes
    }

    /// How many bytes it has.
    pub fn file_len(&self) -> u32
        ensures { result ≡ self.now.bytes }
    {
        self.bytes
    }

    /// The tree of a block.
    pub fn tree_of(&self, name: u32) -> TreeId
        requires { is_live name self.now.graph.blocks ≡ true }
        ensures { region.find self.now.trees.trees result.run.key
            ≡ option_map (λ b. b.node) (find name self.now.graph.blocks) }
    {
        self.slots.find(name).tree
    }

    /// The tree of the header as it was read. What the graph itself tells there (counts, names of types, the index of
    /// types, sizes) may be old.
    pub fn header_tree(&self) -> TreeId
        ensures live { IsLive self.now.trees result.run.key }
        ensures rest { rest_of self.now.places (node_at self.now.trees result) ≡ self.now.graph.header }
    {
        self.header
    }

    /// The tree of the footer.
    pub fn footer_tree(&self) -> TreeId
        ensures { region.find self.now.trees.trees result.run.key ≡ Some self.now.graph.footer }
    {
        self.footer
    }

    /// The store of all trees.
    pub fn store(&self) -> &Store
        ensures { result.now ≡ self.now.trees }
    {
        &self.store
    }

    /// Makes room for so many blocks of new names and so many cells, each tree counted as in `Store::reserve`, and keeps
    /// a copy of a name that is to become an entry. After want of memory some of it may be there.
    pub fn reserve(
        &mut self,
        blocks: u32,
        cells: u32,
        type_name: Option<&Word>,
    ) -> Result<(), NoMemory>
        ensures graph { self.new.graph ≡ self.old.graph }
        ensures places { self.new.places ≡ self.old.places }
        ensures trees { self.new.trees.trees ≡ self.old.trees.trees }
        ensures bytes { self.new.bytes ≡ self.old.bytes }
        ensures stays { self.old.room ≤ self.new.room }
        ensures cells_stay { SpareStays self.old.trees self.new.trees }
        ensures room { OnOk result (blocks ≤ self.new.room) }
        ensures cells { OnOk result (cells ≤ self.new.trees.spare_cells) }
        ensures more_trees { OnOk result (blocks ≤ self.new.trees.spare_trees) }
        ensures name { OnOk result (IfSome type_name.entry (λ name. self.new.room_for_name ≡ Some name.now)) }
    {
        match self.reserve_blocks(blocks) {
            Ok(()) => {}
            Err(NoMemory) => return Err(NoMemory),
        }
        match self.store.reserve(cells, blocks) {
            Ok(()) => {}
            Err(NoMemory) => return Err(NoMemory),
        }
        self.reserve_name(type_name)
    }

    /// Makes room for so many blocks of new names.
    pub(crate) fn reserve_blocks(&mut self, blocks: u32) -> Result<(), NoMemory>
        ensures graph { self.new.graph ≡ self.old.graph }
        ensures places { self.new.places ≡ self.old.places }
        ensures trees { self.new.trees ≡ self.old.trees }
        ensures bytes { self.new.bytes ≡ self.old.bytes }
        ensures name { self.new.room_for_name ≡ self.old.room_for_name }
        ensures stays { self.old.room ≤ self.new.room }
        ensures room { OnOk result (blocks ≤ self.new.room) }
        ensures succeeds { blocks ≤ self.old.room → IsOk result }
    {
        if blocks <= self.room {
            return Ok(());
        }
        match self.slots.reserve(blocks) {
            Ok(()) => {}
            Err(NoMemory) => return Err(NoMemory),
        }
        match self
            .marks
            .reserve(self.slots.next() as usize + blocks as usize)
        {
            Ok(()) => {}
            Err(NoMemory) => return Err(NoMemory),
        }
        self.room = blocks;
        Ok(())
    }

    /// Keeps a copy of a name, where there is one.
    fn reserve_name(&mut self, type_name: Option<&Word>) -> Result<(), NoMemory>
        ensures graph { self.new.graph ≡ self.old.graph }
        ensures places { self.new.places ≡ self.old.places }
        ensures trees { self.new.trees ≡ self.old.trees }
        ensures bytes { self.new.bytes ≡ self.old.bytes }
        ensures room { self.new.room ≡ self.old.room }
        ensures name { OnOk result (IfSome type_name.entry (λ name. self.new.room_for_name ≡ Some name.now)) }
    {
        let Some(name) = type_name else {
            return Ok(());
        };
        match self.types.reserve(1) {
            Ok(()) => {}
            Err(_) => return Err(NoMemory),
        }
        match name.copy() {
            Ok(copy) => {
                self.room_for_name = Some(copy);
                Ok(())
            }
            Err(NoMemory) => Err(NoMemory),
        }
    }
}
