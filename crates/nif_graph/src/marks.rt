//! Marks of blocks, and what strong references lead to.
ghost use Rattle.std.specs.Prelude.{◌≡◌, ◌+◌, ◌≤◌, ◌<◌, ℕ, Bool, true, length, map, Some, IsTrue, IfOk, OnOk, [], if◌then◌else◌, None, slice_get, vec_capacity};
ghost use Rattle.nif_base.specs.Node.{Reference, refs};
ghost use Rattle.nif_value.specs.Trees.{IsLive};
ghost use Rattle.nif_graph.specs.Graph.{is_live};
ghost use Rattle.nif_graph.specs.Reach.{Leads, Reaches};
ghost use Rattle.nif_graph.specs.State.{node_at};
ghost use Rattle.nif_graph.specs.Kept.{named_in, SlotsLive};
ghost use Rattle.nif_graph.specs.Marks.{unmarked, IsMarkedOnce, IsExpanded, TellsReached};

use crate::slots::Slots;
use nif_base::NoMemory;
use nif_value::{RefView, Store, TreeId};
use std::alloc::Global;

/// A mark for each name, and the names that were marked, in order.
#[derive(Drop)]
pub(crate) struct Marks {
    pub(crate) marks: Vec<bool>,
    pub(crate) queue: Vec<u32>,
}

/// The target of a reference, where it is strong and has one.
fn strong_target(view: RefView) -> Option<u32>
    ensures { result ≡ (if view.strong then view.target else None) }
{
    if view.strong { view.target } else { None }
}

impl Marks {
    /// So many marks, none of them set, and room to queue all.
    pub(crate) fn new(alloc: Global, count: u32) -> Result<Marks, NoMemory>
        ensures length { IfOk result (λ m. length m.marks.items ≡ count) }
        ensures room { IfOk result (λ m. count ≤ vec_capacity m.queue) }
    {
        let mut marks = Vec::new(alloc);
        match marks.resize(count as usize, false) {
            Ok(()) => {}
            Err(_) => return Err(NoMemory),
        }
        match Vec::with_capacity(alloc, count as usize) {
            Ok(queue) => Ok(Marks { marks, queue }),
            Err(_) => Err(NoMemory),
        }
    }

    /// Makes room for so many marks in all.
    pub(crate) fn reserve(&mut self, count: usize) -> Result<(), NoMemory>
        ensures marks { self.new.marks.items ≡ self.old.marks.items }
        ensures marks_stay { vec_capacity self.old.marks ≤ vec_capacity self.new.marks }
        ensures queue_stays { vec_capacity self.old.queue ≤ vec_capacity self.new.queue }
        ensures marks_room { OnOk result (count ≤ vec_capacity self.new.marks) }
        ensures queue_room { OnOk result (count ≤ vec_capacity self.new.queue) }
    {
        match self.marks.reserve(count) {
            Ok(()) => {}
            Err(_) => return Err(NoMemory),
        }
        match self.queue.reserve(count) {
            Ok(()) => Ok(()),
            Err(_) => Err(NoMemory),
        }
    }

    /// Puts a mark behind the others, where there is room; it is not set.
    pub(crate) fn grow(&mut self)
        requires { length self.old.marks.items < vec_capacity self.old.marks }
        ensures length { length self.new.marks.items ≡ length self.old.marks.items + 1 }
        ensures marks_room { vec_capacity self.new.marks ≡ vec_capacity self.old.marks }
        ensures queue_room { vec_capacity self.new.queue ≡ vec_capacity self.old.queue }
    {
        self.marks.push_reserved(false);
    }

    /// Takes all marks away.
    fn clear(&mut self)
        ensures clear { unmarked self.new.marks.items ≡ length self.new.marks.items }
        ensures length { length self.new.marks.items ≡ length self.old.marks.items }
        ensures queue { self.new.queue.items ≡ [] }
        ensures marks_room { vec_capacity self.new.marks ≡ vec_capacity self.old.marks }
        ensures queue_room { vec_capacity self.new.queue ≡ vec_capacity self.old.queue }
    {
        for place in 0..self.marks.len() {
            self.marks[place] = false;
        }
        self.queue.clear();
    }

    /// Marks and queues a name that is not marked.
    fn mark(&mut self, name: u32)
        requires within { name < length self.old.marks.items }
        requires room { length self.old.queue.items + unmarked self.old.marks.items ≤ vec_capacity self.old.queue }
        ensures marked { IsMarkedOnce name self.old.marks.items self.old.queue.items self.new.marks.items
            self.new.queue.items }
        ensures marks_room { vec_capacity self.new.marks ≡ vec_capacity self.old.marks }
        ensures queue_room { vec_capacity self.new.queue ≡ vec_capacity self.old.queue }
    {
        if self.marks[name as usize] {
            return;
        }
        self.queue.push_reserved(name);
        self.marks[name as usize] = true;
    }

    /// Marks the targets of all strong references of a tree, and queues those that were not marked.
    fn expand(&mut self, store: &Store, tree: TreeId)
        requires live { IsLive store.now tree.run.key }
        requires within { (k : ℕ) (r : Reference) (t : ℕ) → slice_get (refs (node_at store.now tree)) k ≡ Some r
            → r.strong ≡ true → r.target ≡ Some t → t < length self.old.marks.items }
        requires room { length self.old.queue.items + unmarked self.old.marks.items ≤ vec_capacity self.old.queue }
        ensures expanded { IsExpanded (refs (node_at store.now tree)) self.old.marks.items self.old.queue.items
            self.new.marks.items self.new.queue.items }
        ensures marks_room { vec_capacity self.new.marks ≡ vec_capacity self.old.marks }
        ensures queue_room { vec_capacity self.new.queue ≡ vec_capacity self.old.queue }
    {
        for k in 0..store.ref_count(tree) {
            if let Some(target) = strong_target(store.ref_at(tree, k)) {
                self.mark(target);
            }
        }
    }

    /// Marks the blocks that a walk of one or more strong references leads to from a block, and no others. It takes no
    /// memory, and looks at each block and reference once.
    pub(crate) fn mark_reached(&mut self, store: &Store, slots: &Slots, from: u32)
        requires trees { SlotsLive store.now slots.now.slots }
        requires aimed { (a b : ℕ) → Leads (map (named_in store.now) slots.now.slots) a b
            → is_live b (map (named_in store.now) slots.now.slots) ≡ true }
        requires below { (a : ℕ) → is_live a (map (named_in store.now) slots.now.slots) ≡ true → a < slots.now.next }
        requires from { is_live from (map (named_in store.now) slots.now.slots) ≡ true }
        requires marks { length self.old.marks.items ≡ slots.now.next }
        requires room { slots.now.next ≤ vec_capacity self.old.queue }
        ensures reached { TellsReached (map (named_in store.now) slots.now.slots) from self.new.marks.items }
        ensures length { length self.new.marks.items ≡ length self.old.marks.items }
        ensures marks_room { vec_capacity self.new.marks ≡ vec_capacity self.old.marks }
        ensures queue_room { vec_capacity self.new.queue ≡ vec_capacity self.old.queue }
    {
        self.clear();
        self.expand(store, slots.find(from).tree);
        let mut next = 0;
        while next < self.queue.len() {
            let name = self.queue[next];
            self.expand(store, slots.find(name).tree);
            next += 1;
        }
    }
}
