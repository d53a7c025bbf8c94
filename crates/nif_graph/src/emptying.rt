//! Emptying all references to a block.
ghost use Rattle.std.specs.Prelude.{◌≡◌, ◌≢◌, ◌==◌, ℕ, false, Some, slice_get};
ghost use Rattle.std.specs.Option.{option_map, option_map_or};
ghost use Rattle.nif_region.specs.Contents.{find};
ghost use Rattle.nif_value.specs.Trees.{IsLive, SpareStays};
ghost use Rattle.nif_graph.specs.declared.slots.Slot.{Slot};
ghost use Rattle.nif_graph.specs.Kept.{SlotsLive};
ghost use Rattle.nif_graph.specs.Changes.{emptied};

use crate::slots::Slots;
use nif_value::{RefView, Store, TreeId};

/// Whether the target of a reference is a block.
fn aims_at(view: RefView, name: u32) -> bool
    ensures { result ≡ option_map_or (λ target. target == name) view.target false }
{
    match view.target {
        Some(target) => target == name,
        None => false,
    }
}

/// Empties each reference of a tree to a block.
pub(crate) fn empty_tree(store: &mut Store, tree: TreeId, name: u32)
    requires { IsLive store.old tree.run.key }
    ensures tree { find store.new.trees tree.run.key ≡ option_map (emptied name) (find store.old.trees tree.run.key) }
    ensures others { (key : ℕ) → key ≢ tree.run.key → find store.new.trees key ≡ find store.old.trees key }
    ensures building { store.new.building ≡ store.old.building }
    ensures spare { SpareStays store.old store.new }
{
    for k in 0..store.ref_count(tree) {
        if aims_at(store.ref_at(tree, k), name) {
            store.set_ref(tree, k, None);
        }
    }
}

/// Empties each reference of the trees of blocks to a block.
pub(crate) fn empty_all(store: &mut Store, slots: &Slots, name: u32)
    requires { SlotsLive store.old slots.now.slots }
    ensures trees { (k : ℕ) (s : Slot) → slice_get slots.now.slots k ≡ Some s
        → find store.new.trees s.tree.run.key ≡ option_map (emptied name) (find store.old.trees s.tree.run.key) }
    ensures others { (key : ℕ) → ((k : ℕ) (s : Slot) → slice_get slots.now.slots k ≡ Some s → key ≢ s.tree.run.key)
        → find store.new.trees key ≡ find store.old.trees key }
    ensures building { store.new.building ≡ store.old.building }
    ensures spare { SpareStays store.old store.new }
{
    for place in 0..slots.len() {
        empty_tree(store, slots.at(place).tree, name);
    }
}
