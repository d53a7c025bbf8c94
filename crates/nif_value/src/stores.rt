//! The store of trees.
ghost use Rattle.std.specs.Prelude.{false, ◌≡◌, ◌≢◌, ℕ, ◌+◌, ◌-◌, ◌*◌, ◌^◌, ◌<◌, ◌≤◌, List, [], ◌∷◌, length, None, Some, IsOk, IsSome, IsSomeAnd, IfSome, IfOk, OnOk, OnErr, All, slice_get};
ghost use Rattle.nif_base.specs.Node.{refs, nodes};
ghost use Rattle.nif_base.specs.Node as node;
ghost use Rattle.nif_region.specs.Contents.{find, without, put};
ghost use Rattle.nif_cells.specs.Building.{begun, placed, opened, closed, left_out, lengthened, InBytes, InGroup, InRow, TakesNode, TakesAbsent, TakesBytes, bytes_of, with_target};
ghost use Rattle.nif_cells.specs.Encoding.{is_reference, contents, places_from};
ghost use Rattle.nif_cells.specs.Sizes.{own_cells};
ghost use Rattle.nif_cells.specs.Walks.{walk};
ghost use Rattle.nif_value.specs.Built.{added, empty, TakesContent};
ghost use Rattle.nif_value.specs.Trees.{Takes, IsOpen, IsWhole, IsLive, IsWidth, SpareStays, after, most_cells, most_cells_built, with_tree, reference_of};

use crate::builders::{Kind, Open, copy_run, count, put, put_bytes, put_index};
use crate::counts::{count_bytes, count_nodes};
use crate::packing::Packing;
use crate::walks::Walk;
use nif_base::NoMemory;
use nif_cells::{Content, RefView};
use nif_region::{Region, RunId};
use std::alloc::Global;
use std::marker::Model;

/// The most levels that may be open in a tree at once.
const MOST_OPEN: usize = 256;

/// The name of a tree. It may be given again once its tree was dropped.
#[derive(Debug, Drop, Clone, Copy, PartialEq, Eq)]
pub struct TreeId {
    pub run: RunId,
}

/// Trees of nodes, each in cells of its own. One tree at a time can be being built.
#[derive(Drop)]
pub struct Store {
    region: Region,
    // what is open in the tree that is being built, the innermost last
    open: Vec<Open>,
    // the places of its references
    references: Vec<u32>,
    // how many cells it has
    pushed: u32,
    packing: Packing,
}

impl Model for Store {
    ghost use Rattle.std.specs.Prelude.{vec_capacity};
    ghost use Rattle.nif_value.specs.Trees.{Trees};
    ghost use Rattle.nif_value.specs.Codes.{coded_trees};

    ghost Value = { Trees };

    ghost coded = { coded_trees };

    ghost use Rattle.nif_value.specs.Kept.{trees_of, IsKept};

    ghost view = { λ s. trees_of s.region s.packing.left s.packing.bits (vec_capacity s.open) (vec_capacity s.references) };

    ghost invariant = { λ s. IsKept s.region s.open.items s.references.items s.pushed s.packing.left s.packing.bits (vec_capacity s.open) };
}

impl Store {
    /// A store of no trees. It takes no memory.
    pub fn new(alloc: Global) -> Store
        ensures { result ≡ record { trees = []; building = None; spare_cells = 0; spare_trees = 0 } }
    {
        Store {
            region: Region::new(alloc),
            open: Vec::new(alloc),
            references: Vec::new(alloc),
            pushed: 0,
            packing: Packing::new(),
        }
    }

    /// Makes room for so many cells and trees. The trees that come next take no memory as long as they are at most so
    /// many, and twice the nodes of each, an eighth of its bytes, and 1, are together at most so many cells. A tree that
    /// is being built counts, from its begin on, among those that come next.
    pub fn reserve(&mut self, cells: u32, trees: u32) -> Result<(), NoMemory>
        ensures trees { self.new.trees ≡ self.old.trees }
        ensures building { self.new.building ≡ self.old.building }
        ensures spare { SpareStays self.old self.new }
        ensures cells { OnOk result (cells ≤ self.new.spare_cells) }
        ensures more_trees { OnOk result (trees ≤ self.new.spare_trees) }
    {
        self.region.reserve(cells, trees)?;
        match self.open.reserve(MOST_OPEN) {
            Ok(()) => {}
            Err(_) => return Err(NoMemory),
        }
        match self.references.reserve(cells as usize / 2) {
            Ok(()) => Ok(()),
            Err(_) => Err(NoMemory),
        }
    }

    /// Begins a tree.
    pub fn begin(&mut self) -> Result<(), NoMemory>
        requires { self.old.building ≡ None }
        ensures trees { self.new.trees ≡ self.old.trees }
        ensures ok { OnOk result (self.new.building ≡ Some begun) }
        ensures err { OnErr result (self.new.building ≡ None) }
        ensures cells_stay { self.old.spare_cells ≤ self.new.spare_cells }
        ensures trees_fall { self.old.spare_trees ≤ self.new.spare_trees + 1 }
        ensures trees_stay { OnErr result (self.old.spare_trees ≤ self.new.spare_trees) }
        ensures succeeds { 1 ≤ self.old.spare_cells → 1 ≤ self.old.spare_trees → IsOk result }
    {
        match self.open.reserve(MOST_OPEN) {
            Ok(()) => {}
            Err(_) => return Err(NoMemory),
        }
        self.region.open_run()
    }

    /// Adds a number of 1, 2, 4 or 8 bytes; `little` where its bytes are so in every file.
    pub fn num(&mut self, width: u8, little: bool, bits: u64) -> Result<(), NoMemory>
        requires takes { Takes self.old.building TakesNode (placed (node.Num width little bits)) }
        requires width { IsWidth width }
        requires bits { bits < 256 ^ width }
        ensures trees { self.new.trees ≡ self.old.trees }
        ensures ok { OnOk result (self.new.building ≡ after self.old.building (placed (node.Num width little bits))) }
        ensures err { OnErr result (self.new.building ≡ self.old.building) }
        ensures spare { SpareStays self.old self.new }
        ensures succeeds { most_cells_built (after self.old.building (placed (node.Num width little bits)))
            ≤ self.old.spare_cells → IsOk result }
    {
        self.add(Content::Number {
            width,
            little,
            bits,
        })
    }

    /// Adds a line, given without the 0x0A at its end.
    pub fn line(&mut self, bytes: &[u8]) -> Result<(), NoMemory>
        requires takes { Takes self.old.building TakesNode (placed (node.Line bytes.now)) }
        requires length { length bytes.now ≤ 255 }
        requires one_line { All (λ byte. byte ≢ 0x0A) bytes.now }
        ensures trees { self.new.trees ≡ self.old.trees }
        ensures ok { OnOk result (self.new.building ≡ after self.old.building (placed (node.Line bytes.now))) }
        ensures err { OnErr result (self.new.building ≡ self.old.building) }
        ensures spare { SpareStays self.old self.new }
        ensures succeeds { most_cells_built (after self.old.building (placed (node.Line bytes.now)))
            ≤ self.old.spare_cells → IsOk result }
    {
        let full = bytes.len() as u32 / 8;
        let pending = self.open.len() + self.references.len();
        self.region.reserve(full + 2 + pending as u32, 0)?;
        put(
            &mut self.region,
            Content::Line {
                len: bytes.len() as u32,
            },
        );
        let mut packing = Packing::new();
        put_bytes(&mut self.region, &mut packing, bytes);
        put(
            &mut self.region,
            Content::Tail {
                left: packing.left,
                bits: packing.bits,
            },
        );
        self.pushed += full + 2;
        count(&mut self.open, 1);
        Ok(())
    }

    /// Adds a reference.
    pub fn refer(&mut self, view: RefView) -> Result<(), NoMemory>
        requires takes { Takes self.old.building TakesNode (placed (node.Ref view.strong view.wanted view.target)) }
        requires target { IfSome view.target (λ target. target < 2 ^ 32 - 1) }
        ensures trees { self.new.trees ≡ self.old.trees }
        ensures ok { OnOk result (self.new.building ≡ after self.old.building
            (placed (node.Ref view.strong view.wanted view.target))) }
        ensures err { OnErr result (self.new.building ≡ self.old.building) }
        ensures spare { SpareStays self.old self.new }
        ensures succeeds { most_cells_built (after self.old.building
            (placed (node.Ref view.strong view.wanted view.target))) ≤ self.old.spare_cells → IsOk result }
    {
        let pending = self.open.len() + self.references.len();
        self.region.reserve(2 + pending as u32, 0)?;
        match self.references.push(self.pushed) {
            Ok(()) => {}
            Err(_) => return Err(NoMemory),
        }
        put(&mut self.region, Content::Reference { view });
        self.pushed += 1;
        count(&mut self.open, 1);
        Ok(())
    }

    /// Adds the index of a text, or none.
    pub fn text(&mut self, index: Option<u32>) -> Result<(), NoMemory>
        requires takes { Takes self.old.building TakesNode (placed (node.Text index)) }
        requires index { IfSome index (λ index. index < 2 ^ 32 - 1) }
        ensures trees { self.new.trees ≡ self.old.trees }
        ensures ok { OnOk result (self.new.building ≡ after self.old.building (placed (node.Text index))) }
        ensures err { OnErr result (self.new.building ≡ self.old.building) }
        ensures spare { SpareStays self.old self.new }
        ensures succeeds { most_cells_built (after self.old.building (placed (node.Text index))) ≤ self.old.spare_cells
            → IsOk result }
    {
        self.add(Content::Text { index })
    }

    /// Begins a run of bytes, of none yet.
    pub fn open_bytes(&mut self) -> Result<(), NoMemory>
        requires takes { Takes self.old.building TakesNode (opened (InBytes [])) }
        ensures trees { self.new.trees ≡ self.old.trees }
        ensures ok { OnOk result (self.new.building ≡ after self.old.building (opened (InBytes []))) }
        ensures err { OnErr result (self.new.building ≡ self.old.building) }
        ensures spare { SpareStays self.old self.new }
        ensures succeeds { most_cells_built (after self.old.building (opened (InBytes []))) ≤ self.old.spare_cells
            → IsOk result }
    {
        self.open(Kind::Bytes)
    }

    /// Puts bytes behind those of the run of bytes that is open.
    pub fn more_bytes(&mut self, bytes: &[u8]) -> Result<(), NoMemory>
        requires takes { Takes self.old.building (λ b. TakesBytes b.levels) (lengthened bytes.now) }
        ensures trees { self.new.trees ≡ self.old.trees }
        ensures ok { OnOk result (self.new.building ≡ after self.old.building (lengthened bytes.now)) }
        ensures err { OnErr result (self.new.building ≡ self.old.building) }
        ensures spare { SpareStays self.old self.new }
        ensures succeeds { most_cells_built (after self.old.building (lengthened bytes.now)) ≤ self.old.spare_cells
            → IsOk result }
    {
        let full = (self.packing.left + bytes.len() as u32) / 8;
        let pending = self.open.len() + self.references.len();
        self.region.reserve(full + pending as u32, 0)?;
        put_bytes(&mut self.region, &mut self.packing, bytes);
        self.pushed += full;
        count(&mut self.open, bytes.len() as u32);
        Ok(())
    }

    /// Begins a group.
    pub fn open_group(&mut self) -> Result<(), NoMemory>
        requires takes { Takes self.old.building TakesNode (opened (InGroup node.End)) }
        ensures trees { self.new.trees ≡ self.old.trees }
        ensures ok { OnOk result (self.new.building ≡ after self.old.building (opened (InGroup node.End))) }
        ensures err { OnErr result (self.new.building ≡ self.old.building) }
        ensures spare { SpareStays self.old self.new }
        ensures succeeds { most_cells_built (after self.old.building (opened (InGroup node.End))) ≤ self.old.spare_cells
            → IsOk result }
    {
        self.open(Kind::Group)
    }

    /// Leaves a member of the group out that is open.
    pub fn absent(&mut self) -> Result<(), NoMemory>
        requires takes { Takes self.old.building (λ b. TakesAbsent b.levels) left_out }
        ensures trees { self.new.trees ≡ self.old.trees }
        ensures ok { OnOk result (self.new.building ≡ after self.old.building left_out) }
        ensures err { OnErr result (self.new.building ≡ self.old.building) }
        ensures spare { SpareStays self.old self.new }
        ensures succeeds { most_cells_built (after self.old.building left_out) ≤ self.old.spare_cells → IsOk result }
    {
        self.add(Content::Absent)
    }

    /// Begins a row.
    pub fn open_row(&mut self) -> Result<(), NoMemory>
        requires takes { Takes self.old.building TakesNode (opened (InRow node.End)) }
        ensures trees { self.new.trees ≡ self.old.trees }
        ensures ok { OnOk result (self.new.building ≡ after self.old.building (opened (InRow node.End))) }
        ensures err { OnErr result (self.new.building ≡ self.old.building) }
        ensures spare { SpareStays self.old self.new }
        ensures succeeds { most_cells_built (after self.old.building (opened (InRow node.End))) ≤ self.old.spare_cells
            → IsOk result }
    {
        self.open(Kind::Row)
    }

    /// Ends the run of bytes, the group or the row that was begun last. It takes no memory.
    pub fn close(&mut self)
        requires { IsSomeAnd self.old.building IsOpen }
        ensures trees { self.new.trees ≡ self.old.trees }
        ensures building { self.new.building ≡ after self.old.building closed }
        ensures spare { SpareStays self.old self.new }
    {
        let Some(level) = self.open.pop() else {
            unreachable!()
        };
        put(&mut self.region, level.kind.end(self.packing));
        self.region
            .patch(level.head, level.kind.head(level.count).cell());
        self.packing = Packing::new();
        self.pushed += 1;
        count(&mut self.open, 1);
    }

    /// Ends the tree. It takes no memory.
    pub fn finish(&mut self) -> TreeId
        requires { IsWhole self.old.building }
        ensures fresh { find self.old.trees result.run.key ≡ None }
        ensures trees { IfSome self.old.building (λ b. self.new.trees ≡ with_tree self.old.trees result.run.key b.top) }
        ensures tree { IfSome self.old.building (λ b. find self.new.trees result.run.key ≡ b.top) }
        ensures others { (key : ℕ) → key ≢ result.run.key → find self.new.trees key ≡ find self.old.trees key }
        ensures building { self.new.building ≡ None }
        ensures spare { self.old.spare_cells ≤ self.new.spare_cells + most_cells_built self.old.building }
        ensures spare_trees { self.old.spare_trees ≤ self.new.spare_trees }
    {
        put_index(&mut self.region, &self.references);
        self.references.clear();
        self.pushed = 0;
        TreeId {
            run: self.region.close_run(),
        }
    }

    /// Lets the tree go that is being built. It takes no memory.
    pub fn abandon(&mut self)
        requires { IsSome self.old.building }
        ensures trees { self.new.trees ≡ self.old.trees }
        ensures building { self.new.building ≡ None }
        ensures spare { self.old.spare_cells ≤ self.new.spare_cells }
        ensures spare_trees { self.old.spare_trees + 1 ≤ self.new.spare_trees }
    {
        self.open.clear();
        self.references.clear();
        self.pushed = 0;
        self.packing = Packing::new();
        self.region.abandon();
    }

    /// A walk through a tree, from its top.
    pub fn walk(&self, tree: TreeId) -> Walk<'_>
        requires { IsLive self.now tree.run.key }
        ensures ahead { IfSome (find self.now.trees tree.run.key) (λ node. result.ahead ≡ walk node) }
        ensures bytes { result.bytes ≡ None }
    {
        Walk::new(&self.region, tree.run)
    }

    /// How many references a tree has.
    pub fn ref_count(&self, tree: TreeId) -> u32
        requires { IsLive self.now tree.run.key }
        ensures { IfSome (find self.now.trees tree.run.key) (λ node. result ≡ length (refs node)) }
    {
        let last = self.region.len(tree.run) - 1;
        match Content::of(self.region.get(tree.run, last)) {
            Content::Place { number, .. } => number,
            _ => 0,
        }
    }

    /// The place of the cell of a reference.
    fn place_of(&self, tree: TreeId, k: u32) -> u32
        requires { IsSomeAnd (find self.now.trees tree.run.key) (λ node. k < length (refs node)) }
        ensures { IfSome (find self.now.trees tree.run.key)
            (λ node. slice_get (places_from 0 (contents node)) k ≡ Some result) }
    {
        let place = self.region.len(tree.run) - self.ref_count(tree) + k;
        match Content::of(self.region.get(tree.run, place)) {
            Content::Place { place, .. } => place,
            _ => unreachable!(),
        }
    }

    /// A reference of a tree, counted from 0 in the order of its bytes.
    pub fn ref_at(&self, tree: TreeId, k: u32) -> RefView
        requires { IsSomeAnd (find self.now.trees tree.run.key) (λ node. k < length (refs node)) }
        ensures { IfSome (find self.now.trees tree.run.key)
            (λ node. slice_get (refs node) k ≡ Some (reference_of result)) }
    {
        match Content::of(self.region.get(tree.run, self.place_of(tree, k))) {
            Content::Reference { view } => view,
            _ => unreachable!(),
        }
    }

    /// Gives a reference of a tree another target.
    pub fn set_ref(&mut self, tree: TreeId, k: u32, target: Option<u32>)
        requires place { IsSomeAnd (find self.old.trees tree.run.key) (λ node. k < length (refs node)) }
        requires target { IfSome target (λ target. target < 2 ^ 32 - 1) }
        ensures trees { IfSome (find self.old.trees tree.run.key)
            (λ node. self.new.trees ≡ put tree.run.key (with_target k target node) self.old.trees) }
        ensures tree { IfSome (find self.old.trees tree.run.key)
            (λ node. find self.new.trees tree.run.key ≡ Some (with_target k target node)) }
        ensures others { (key : ℕ) → key ≢ tree.run.key → find self.new.trees key ≡ find self.old.trees key }
        ensures building { self.new.building ≡ self.old.building }
        ensures spare { SpareStays self.old self.new }
    {
        let view = self.ref_at(tree, k);
        let place = self.place_of(tree, k);
        let content = Content::Reference {
            view: RefView { target, ..view },
        };
        self.region.set(tree.run, place, content.cell());
    }

    /// A tree that is equal to another, in cells of its own.
    pub fn copy(&mut self, tree: TreeId) -> Result<TreeId, NoMemory>
        requires building { self.old.building ≡ None }
        requires live { IsLive self.old tree.run.key }
        ensures building { self.new.building ≡ None }
        ensures fresh { IfOk result (λ copy. find self.old.trees copy.run.key ≡ None) }
        ensures trees { IfOk result (λ copy. self.new.trees
            ≡ with_tree self.old.trees copy.run.key (find self.old.trees tree.run.key)) }
        ensures tree { IfOk result (λ copy. find self.new.trees copy.run.key ≡ find self.old.trees tree.run.key) }
        ensures others { IfOk result (λ copy. (key : ℕ) → key ≢ copy.run.key
            → find self.new.trees key ≡ find self.old.trees key) }
        ensures err { OnErr result (self.new.trees ≡ self.old.trees) }
        ensures stays { OnErr result (SpareStays self.old self.new) }
        ensures spare { IfSome (find self.old.trees tree.run.key)
            (λ node. self.old.spare_cells ≤ self.new.spare_cells + most_cells node) }
        ensures spare_trees { self.old.spare_trees ≤ self.new.spare_trees + 1 }
        ensures succeeds { IfSome (find self.old.trees tree.run.key) (λ node. most_cells node ≤ self.old.spare_cells)
            → 1 ≤ self.old.spare_trees → IsOk result }
    {
        let len = self.region.len(tree.run);
        self.region.reserve(len + 1, 1)?;
        copy_run(&mut self.region, tree.run, len);
        Ok(TreeId {
            run: self.region.close_run(),
        })
    }

    /// Lets a tree go.
    pub fn drop_tree(&mut self, tree: TreeId)
        requires { IsLive self.old tree.run.key }
        ensures trees { self.new.trees ≡ without tree.run.key self.old.trees }
        ensures gone { find self.new.trees tree.run.key ≡ None }
        ensures others { (key : ℕ) → key ≢ tree.run.key → find self.new.trees key ≡ find self.old.trees key }
        ensures building { self.new.building ≡ self.old.building }
        ensures spare { self.old.spare_cells ≤ self.new.spare_cells }
        ensures spare_trees { self.old.spare_trees + 1 ≤ self.new.spare_trees }
    {
        self.region.give_back(tree.run);
    }

    /// How many nodes a tree has, each absent member among them.
    pub fn nodes(&self, tree: TreeId) -> u32
        requires { IsLive self.now tree.run.key }
        ensures { IfSome (find self.now.trees tree.run.key) (λ node. result ≡ nodes node) }
    {
        count_nodes(&self.region, tree.run)
    }

    /// How many bytes spell a tree.
    pub fn bytes_of(&self, tree: TreeId) -> u32
        requires { IsLive self.now tree.run.key }
        ensures { IfSome (find self.now.trees tree.run.key) (λ node. result ≡ bytes_of node) }
    {
        count_bytes(&self.region, tree.run)
    }

    /// How many cells a tree takes, the one at the head of its run among them.
    pub fn cells_of(&self, tree: TreeId) -> u32
        requires { IsLive self.now tree.run.key }
        ensures value { IfSome (find self.now.trees tree.run.key) (λ node. result ≡ own_cells node + 1) }
        ensures bound { IfSome (find self.now.trees tree.run.key) (λ node. result ≤ most_cells node) }
    {
        self.region.len(tree.run) + 1
    }

    /// Adds what takes one cell.
    fn add(&mut self, content: Content) -> Result<(), NoMemory>
        requires takes { Takes self.old.building (TakesContent content) (added content) }
        requires no_reference { is_reference content ≡ false }
        ensures trees { self.new.trees ≡ self.old.trees }
        ensures ok { OnOk result (self.new.building ≡ after self.old.building (added content)) }
        ensures err { OnErr result (self.new.building ≡ self.old.building) }
        ensures spare { SpareStays self.old self.new }
        ensures succeeds { most_cells_built (after self.old.building (added content)) ≤ self.old.spare_cells
            → IsOk result }
    {
        let pending = self.open.len() + self.references.len();
        self.region.reserve(1 + pending as u32, 0)?;
        put(&mut self.region, content);
        self.pushed += 1;
        count(&mut self.open, 1);
        Ok(())
    }

    /// Opens a level.
    fn open(&mut self, kind: Kind) -> Result<(), NoMemory>
        requires { Takes self.old.building TakesNode (opened (empty kind)) }
        ensures trees { self.new.trees ≡ self.old.trees }
        ensures ok { OnOk result (self.new.building ≡ after self.old.building (opened (empty kind))) }
        ensures err { OnErr result (self.new.building ≡ self.old.building) }
        ensures spare { SpareStays self.old self.new }
        ensures succeeds { most_cells_built (after self.old.building (opened (empty kind))) ≤ self.old.spare_cells
            → IsOk result }
    {
        let pending = self.open.len() + self.references.len();
        self.region.reserve(2 + pending as u32, 0)?;
        put(&mut self.region, kind.head(0));
        self.open.push_reserved(Open {
            kind,
            head: self.pushed,
            count: 0,
        });
        self.pushed += 1;
        Ok(())
    }
}
