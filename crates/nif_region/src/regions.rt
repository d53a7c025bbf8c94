//! The region.
ghost use Rattle.std.specs.Prelude.{◌≡◌, ◌≢◌, ℕ, ◌+◌, ◌*◌, ◌-◌, ◌^◌, ◌<◌, ◌≤◌, ◌↔◌, List, [], ◌∷◌, ◌++◌, length, None, Some, IsTrue, IsOk, IsSome, IsSomeAnd, IfSome, OnOk, OnErr, slice_get, slice_set};
ghost use Rattle.nif_region.specs.Contents.{find, without, put, IsLive, cells_of, cells_built, pushed, patched, ended, IsBounded, IsCompact, SpareFalls, SpareRises};

use crate::cells::{Cell, RunId};
use crate::slides::{DEAD, LIVE, slide};
use nif_base::NoMemory;
use slab::Slab;
use std::alloc::Global;
use std::marker::Model;

/// Runs of cells in one vector. A run of n cells takes n + 1 cells with the one at its head. One run at a time can
/// be being built; it becomes a live run when it is ended, under a key of its own.
#[derive(Drop)]
pub struct Region {
    cells: Vec<Cell>,
    // where the head of each live run stands
    places: Slab<usize>,
    // how many cells the live runs have, with their heads
    live: usize,
    // how many cells at the end are of the run that is being built, with its head; 0 where there is none
    building: usize,
}

impl Model for Region {
    ghost use Rattle.std.specs.Prelude.{vec_capacity};
    ghost use Rattle.nif_region.specs.Contents.{Contents};
    ghost use Rattle.nif_region.specs.Codes.{coded_contents};

    ghost Value = { Contents };

    ghost coded = { coded_contents };

    ghost use Rattle.nif_region.specs.Layout.{contents, IsKept};

    ghost view = { λ r. contents r.cells.items (vec_capacity r.cells) r.places r.building };

    ghost invariant = { λ r. IsKept r.cells.items r.places r.live r.building };
}

impl Region {
    /// A region of no runs. It takes no memory.
    pub fn new(alloc: Global) -> Region
        ensures { result ≡ record { runs = []; building = None; used = 0; spare_cells = 0; spare_runs = 0 } }
    {
        Region {
            cells: Vec::new(alloc),
            places: Slab::new(alloc),
            live: 0,
            building: 0,
        }
    }

    /// Makes room for so many more cells, those at the heads of runs among them, in so many more runs: until they
    /// are used up, no call answers want of memory. Room that was there stays.
    pub fn reserve(&mut self, cells: u32, runs: u32) -> Result<(), NoMemory>
        ensures runs { self.new.runs ≡ self.old.runs }
        ensures building { self.new.building ≡ self.old.building }
        ensures used { self.new.used ≡ self.old.used }
        ensures spare { SpareFalls self.old self.new 0 0 }
        ensures cells { OnOk result (cells ≤ self.new.spare_cells) }
        ensures more_runs { OnOk result (runs ≤ self.new.spare_runs) }
        ensures succeeds { cells ≤ self.old.spare_cells → runs ≤ self.old.spare_runs → IsOk result }
        ensures bounded { IsBounded self.new }
    {
        let ahead = self.building.min(1) + runs as usize;
        match self.cells.reserve(cells as usize) {
            Ok(()) => {}
            Err(_) => return Err(NoMemory),
        }
        match self.places.reserve(ahead) {
            Ok(()) => Ok(()),
            Err(_) => Err(NoMemory),
        }
    }

    /// Begins a run, of no cells yet. Room for its head and its key is taken here.
    pub fn open_run(&mut self) -> Result<(), NoMemory>
        requires { self.old.building ≡ None }
        ensures runs { self.new.runs ≡ self.old.runs }
        ensures ok { OnOk result ((self.new.building ≡ Some []) × (self.new.used ≡ self.old.used + 1)) }
        ensures err { OnErr result ((self.new.building ≡ None) × (self.new.used ≡ self.old.used)) }
        ensures spare { SpareFalls self.old self.new 1 1 }
        ensures kept { OnErr result (SpareFalls self.old self.new 0 0) }
        ensures succeeds { 1 ≤ self.old.spare_cells → 1 ≤ self.old.spare_runs → IsOk result }
        ensures bounded { IsBounded self.new }
    {
        match self.places.reserve(1) {
            Ok(()) => {}
            Err(_) => return Err(NoMemory),
        }
        let head = Cell {
            kind: DEAD,
            size: 0,
            bits: 0,
        };
        match self.cells.push(head) {
            Ok(()) => {
                self.building = 1;
                Ok(())
            }
            Err(_) => Err(NoMemory),
        }
    }

    /// Puts a cell behind the others of the run that is being built; without memory all stays as it was.
    pub fn push(&mut self, cell: Cell) -> Result<(), NoMemory>
        requires { IsSomeAnd self.old.building (λ cells. length cells < 2 ^ 32 - 2) }
        ensures runs { self.new.runs ≡ self.old.runs }
        ensures ok { OnOk result ((self.new.building ≡ pushed self.old.building cell)
            × (self.new.used ≡ self.old.used + 1)) }
        ensures err { OnErr result ((self.new.building ≡ self.old.building) × (self.new.used ≡ self.old.used)) }
        ensures spare { SpareFalls self.old self.new 1 0 }
        ensures kept { OnErr result (SpareFalls self.old self.new 0 0) }
        ensures succeeds { 1 ≤ self.old.spare_cells → IsOk result }
        ensures bounded { IsBounded self.new }
    {
        match self.cells.push(cell) {
            Ok(()) => {
                self.building += 1;
                Ok(())
            }
            Err(_) => Err(NoMemory),
        }
    }

    /// Writes over a cell of the run that is being built.
    pub fn patch(&mut self, place: u32, cell: Cell)
        requires { IsSomeAnd self.old.building (λ cells. place < length cells) }
        ensures runs { self.new.runs ≡ self.old.runs }
        ensures building { self.new.building ≡ patched self.old.building place cell }
        ensures used { self.new.used ≡ self.old.used }
        ensures spare { SpareFalls self.old self.new 0 0 }
        ensures bounded { IsBounded self.new }
    {
        let first = self.cells.len() - self.building + 1;
        self.cells[first + place as usize] = cell;
    }

    /// Ends the run that is being built. It is then a live run, under a key that no other has. It takes no memory.
    pub fn close_run(&mut self) -> RunId
        requires { IsSome self.old.building }
        ensures fresh { find self.old.runs result.key ≡ None }
        ensures runs { self.new.runs ≡ ended self.old.runs result.key self.old.building }
        ensures run { find self.new.runs result.key ≡ self.old.building }
        ensures others { (key : ℕ) → key ≢ result.key → find self.new.runs key ≡ find self.old.runs key }
        ensures building { self.new.building ≡ None }
        ensures used { self.new.used ≡ self.old.used }
        ensures spare { SpareFalls self.old self.new 0 0 }
        ensures bounded { IsBounded self.new }
    {
        let place = self.cells.len() - self.building;
        let key = self.places.insert_reserved(place);
        self.cells[place] = Cell {
            kind: LIVE,
            size: (self.building - 1) as u32,
            bits: key as u64,
        };
        self.live += self.building;
        self.building = 0;
        RunId { key }
    }

    /// Lets the run that is being built go, with its cells.
    pub fn abandon(&mut self)
        requires { IsSome self.old.building }
        ensures runs { self.new.runs ≡ self.old.runs }
        ensures building { self.new.building ≡ None }
        ensures used { self.new.used + cells_built self.old.building ≡ self.old.used }
        ensures spare { SpareRises self.old self.new (cells_built self.old.building) 1 }
        ensures bounded { IsBounded self.new }
    {
        let end = self.cells.len() - self.building;
        self.cells.truncate(end);
        self.building = 0;
    }

    /// Whether a live run has this key.
    pub fn is_live(&self, run: RunId) -> bool
        ensures { IsTrue result ↔ IsLive self.now run.key }
    {
        self.places.contains(run.key)
    }

    /// How many cells a live run has, without the one at its head.
    pub fn len(&self, run: RunId) -> u32
        requires { IsLive self.now run.key }
        ensures { IfSome (find self.now.runs run.key) (λ cells. result ≡ length cells) }
    {
        let place = self.places[run.key];
        self.cells[place].size
    }

    /// A cell of a live run, counted from 0.
    pub fn get(&self, run: RunId, place: u32) -> Cell
        requires { IsSomeAnd (find self.now.runs run.key) (λ cells. place < length cells) }
        ensures { IfSome (find self.now.runs run.key) (λ cells. slice_get cells place ≡ Some result) }
    {
        let head = self.places[run.key];
        self.cells[head + 1 + place as usize]
    }

    /// Writes over a cell of a live run.
    pub fn set(&mut self, run: RunId, place: u32, cell: Cell)
        requires { IsSomeAnd (find self.old.runs run.key) (λ cells. place < length cells) }
        ensures runs { IfSome (find self.old.runs run.key)
            (λ cells. self.new.runs ≡ put run.key (slice_set cells place cell) self.old.runs) }
        ensures run { IfSome (find self.old.runs run.key)
            (λ cells. find self.new.runs run.key ≡ Some (slice_set cells place cell)) }
        ensures others { (key : ℕ) → key ≢ run.key → find self.new.runs key ≡ find self.old.runs key }
        ensures building { self.new.building ≡ self.old.building }
        ensures used { self.new.used ≡ self.old.used }
        ensures spare { SpareFalls self.old self.new 0 0 }
        ensures bounded { IsBounded self.new }
    {
        let first = self.places[run.key];
        self.cells[first + 1 + place as usize] = cell;
    }

    /// Gives a live run back. Where more cells are then dead than live, the live runs slide together.
    pub fn give_back(&mut self, run: RunId)
        requires { IsLive self.old run.key }
        ensures runs { self.new.runs ≡ without run.key self.old.runs }
        ensures gone { find self.new.runs run.key ≡ None }
        ensures others { (key : ℕ) → key ≢ run.key → find self.new.runs key ≡ find self.old.runs key }
        ensures building { self.new.building ≡ self.old.building }
        ensures stays { self.old.used ≤ 2 * cells_of self.new.runs + cells_built self.new.building
            → self.new.used ≡ self.old.used }
        ensures slides { 2 * cells_of self.new.runs + cells_built self.new.building < self.old.used
            → IsCompact self.new }
        ensures spare { SpareRises self.old self.new 0 1 }
        ensures bounded { IsBounded self.new }
    {
        let place = self.places.remove(run.key);
        let size = self.cells[place].size;
        self.cells[place] = Cell {
            kind: DEAD,
            size,
            bits: 0,
        };
        self.live -= size as usize + 1;
        if self.cells.len() - self.building - self.live > self.live {
            slide(&mut self.cells, &mut self.places, self.building);
        }
    }

    /// Slides the live runs together, and the run that is being built behind them, so that no cell is dead.
    pub fn compact(&mut self)
        ensures runs { self.new.runs ≡ self.old.runs }
        ensures building { self.new.building ≡ self.old.building }
        ensures compact { IsCompact self.new }
        ensures spare { SpareFalls self.old self.new 0 0 }
        ensures bounded { IsBounded self.new }
    {
        slide(&mut self.cells, &mut self.places, self.building);
    }

    /// How many cells are in use: those of live runs and of the run that is being built, with their heads, and
    /// dead ones.
    pub fn used(&self) -> u64
        ensures value { result ≡ self.now.used }
        ensures bounded { IsBounded self.now }
    {
        self.cells.len() as u64
    }

    /// How many cells live runs have, with their heads.
    pub fn live(&self) -> u64
        ensures { result ≡ cells_of self.now.runs }
    {
        self.live as u64
    }
}
