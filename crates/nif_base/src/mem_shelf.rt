//! A shelf in memory.
ghost use Rattle.std.specs.Prelude.{◌≡◌, ◌↔◌, ℕ, ◌<◌, ◌≤◌, List, [], ◌∷◌, ◌++◌, length, OnOk, OnErr, IfSome, IfOk, IsErr, IsSome, IsTrue, IsFalse, Option, Some, None, refl};
ghost use Rattle.std.specs.Option.{option_map, option_copied};
ghost use Rattle.std.specs.FinMap.{get, empty};
ghost use Rattle.nif_base.specs.Outside.{HasCause, prepended, moved, IsAtEnd};
ghost use Rattle.nif_base.specs.declared.shelves.Kind.{Kind};
ghost use Rattle.nif_base.specs.MemCalls.{fails, counted};

use crate::faults::{Failed, NoMemory};
use crate::mem_calls::MemCalls;
use crate::mem_files::MemFiles;
use crate::mem_parts::{MemInput, MemRefusals, copy_file};
use crate::outside::{Sink, Source};
use crate::shelves::{Kind, Shelf};
use std::alloc::Global;

/// Files in memory. It tells everything, but no refusal once memory ran out for the name of one; where it finds no
/// memory for a write, for its copy of an input or for a new name, the call fails.
#[derive(Drop)]
pub struct MemShelf {
    alloc: Global,
    piece: usize,
    files: MemFiles,
    input: Option<Vec<u8>>,
    given: MemInput,
    refusals: MemRefusals,
    calls: MemCalls,
    read_faults: u64,
    write_faults: u64,
    ghost some: { 0 < piece },
}

impl MemShelf {
    ghost use Rattle.nif_base.specs.MemShelf.{view_of, tells_refusals, calls_of, piece_of};

    /// A shelf without files; one call gives or takes at most `piece` bytes.
    pub fn new(alloc: Global, piece: usize) -> MemShelf
        requires { 0 < piece }
        ensures view { view_of result ≡ record {
          left = Some [];
          desk = Some (record { files = empty; input = None; output = None });
          taken = Some [];
          refused = None;
          reads = 0;
          writes = 0;
          opens = 0;
        } }
        ensures left { ⟦<MemShelf as Source>⟧.left result ≡ Some [] }
        ensures tells { IsTrue (tells_refusals result) }
        ensures piece { piece_of result ≡ piece }
        ensures calls { calls_of result ≡ record { next = 0; failing = [] } }
    {
        MemShelf {
            alloc,
            piece,
            files: MemFiles::new(alloc),
            input: None,
            given: MemInput {
                bytes: Vec::new(alloc),
                at: 0,
            },
            refusals: MemRefusals {
                last: None,
                tells: true,
                faults: 0,
            },
            calls: MemCalls::new(alloc),
            read_faults: 0,
            write_faults: 0,
        }
    }
}

impl Source for MemShelf {
    ghost use Rattle.nif_base.specs.ShelfView.{Stayed, stayed_same, stayed_joined};
    ghost use Rattle.nif_base.specs.MemShelf.{view_of, left_of, tells_refusals, calls_of, piece_of};

    ghost left = { λ s. left_of s };

    ghost read_faults = { λ s. s.read_faults };

    ghost still = { λ a b. Stayed (view_of a) (view_of b) };

    ghost still_same = { λ a. stayed_same _ };

    ghost still_joined = { λ a b c p q. stayed_joined _ _ _ p q };

    ghost still_counts = { λ a b p. p.reads };

    fn read(&mut self, buf: &mut [u8]) -> Result<usize, Failed>
        ensures bound { IfOk result (λ n. n ≤ length buf.new) }
        ensures end { IfOk result (λ n. n ≡ 0 → 0 < length buf.new → IsAtEnd (left_of self.new)) }
        ensures bytes { left_of self.old ≡ prepended (moved result buf.new) (left_of self.new) }
        ensures cause { HasCause self.old.read_faults self.new.read_faults result }
        ensures still { Stayed (view_of self.old) (view_of self.new) }
        ensures tells { tells_refusals self.new ≡ tells_refusals self.old }
        ensures fails { IsErr result ↔ IsTrue (fails (calls_of self.old)) }
        ensures piece { IfOk result (λ n. n ≤ piece_of self.old) }
        ensures same_piece { piece_of self.new ≡ piece_of self.old }
        ensures calls { calls_of self.new ≡ counted (calls_of self.old) }
    {
        if self.calls.is_failing() {
            self.read_faults = self.read_faults.saturating_add(1);
            return Err(Failed);
        }
        match &self.input {
            None => Ok(0),
            Some(_) => Ok(self.given.give(buf, self.piece)),
        }
    }
}

impl Sink for MemShelf {
    ghost use Rattle.nif_base.specs.ShelfView.{Grew, grew_same, grew_joined};
    ghost use Rattle.nif_base.specs.MemShelf.{view_of, tells_refusals, calls_of, piece_of};

    ghost taken = { λ s. (view_of s).taken };

    ghost write_faults = { λ s. s.write_faults };

    ghost grew = { λ a x b. Grew (view_of a) x (view_of b) };

    ghost grew_same = { λ a. grew_same _ };

    ghost grew_joined = { λ a b c x y z p q e. grew_joined _ _ _ x y z p q e };

    ghost grew_counts = { λ a b x p. p.writes };

    ghost grew_taken = { λ a b x p. p.taken };

    #[tactic(auto, using(crate::specs::ShelfView::grew_none))]
    fn write(&mut self, piece: &[u8]) -> Result<usize, Failed>
        ensures bound { IfOk result (λ n. n ≤ length piece.now) }
        ensures some { IfOk result (λ n. 0 < length piece.now → 0 < n) }
        ensures cause { HasCause self.old.write_faults self.new.write_faults result }
        ensures grew { Grew (view_of self.old) (moved result piece.now) (view_of self.new) }
        ensures tells { tells_refusals self.new ≡ tells_refusals self.old }
        ensures fails { IsTrue (fails (calls_of self.old)) → IsErr result }
        ensures piece { IfOk result (λ n. n ≤ piece_of self.old) }
        ensures same_piece { piece_of self.new ≡ piece_of self.old }
        ensures calls { calls_of self.new ≡ counted (calls_of self.old) }
    {
        if self.calls.is_failing() {
            self.write_faults = self.write_faults.saturating_add(1);
            return Err(Failed);
        }
        let count = piece.len().min(self.piece);
        match self.files.append(&piece[..count]) {
            Ok(()) => Ok(count),
            Err(NoMemory) => {
                self.write_faults = self.write_faults.saturating_add(1);
                Err(Failed)
            }
        }
    }
}

impl Shelf for MemShelf {
    ghost use Rattle.nif_base.specs.Shelf.{written, opened, created, Opens, Refuses};
    ghost use Rattle.nif_base.specs.MemShelf.{view_of, left_of, tells_refusals, calls_of, piece_of, no_input_left};

    ghost desk = { λ s. (view_of s).desk };

    ghost refused = { λ s. (view_of s).refused };

    ghost open_faults = { λ s. (view_of s).opens };

    fn open_input(&mut self, name: &str) -> Result<(), Failed>
        ensures ok { OnOk result ((view_of self.new).desk ≡ option_map (opened name.now) (view_of self.old).desk) }
        ensures there { OnOk result (IfSome (view_of self.old).desk (Opens name.now (left_of self.new))) }
        ensures err { OnErr result ((view_of self.new).desk ≡ (view_of self.old).desk) }
        ensures err_left { OnErr result (left_of self.new ≡ left_of self.old) }
        ensures refused { Refuses Kind.Input name.now (view_of self.old).refused (view_of self.new).refused result }
        ensures told { OnErr result (IsTrue (tells_refusals self.new) → IsSome (view_of self.new).refused) }
        ensures tells { OnOk result (tells_refusals self.new ≡ tells_refusals self.old) }
        ensures lost { IsTrue (tells_refusals self.new) → IsTrue (tells_refusals self.old) }
        ensures taken { (view_of self.new).taken ≡ (view_of self.old).taken }
        ensures cause { HasCause (view_of self.old).opens (view_of self.new).opens result }
        ensures reads { self.old.read_faults ≤ self.new.read_faults }
        ensures writes { self.old.write_faults ≤ self.new.write_faults }
        ensures fails { IsTrue (fails (calls_of self.old)) → IsErr result }
        ensures same_piece { piece_of self.new ≡ piece_of self.old }
        ensures calls { calls_of self.new ≡ counted (calls_of self.old) }
    {
        let bytes = name.as_bytes();
        if self.calls.is_failing() {
            self.refusals.refuse(self.alloc, Kind::Input, bytes);
            return Err(Failed);
        }
        match copy_file(self.alloc, &self.files, bytes) {
            Some((name, bytes)) => {
                self.input = Some(name);
                self.given = MemInput { bytes, at: 0 };
                Ok(())
            }
            None => {
                self.refusals.refuse(self.alloc, Kind::Input, bytes);
                Err(Failed)
            }
        }
    }

    fn create_output(&mut self, name: &str) -> Result<(), Failed>
        ensures ok { OnOk result ((view_of self.new).desk ≡ option_map (created name.now) (view_of self.old).desk) }
        ensures err { OnErr result ((view_of self.new).desk ≡ (view_of self.old).desk) }
        ensures err_left { OnErr result (left_of self.new ≡ left_of self.old) }
        ensures refused { Refuses Kind.Output name.now (view_of self.old).refused (view_of self.new).refused result }
        ensures told { OnErr result (IsTrue (tells_refusals self.new) → IsSome (view_of self.new).refused) }
        ensures tells { OnOk result (tells_refusals self.new ≡ tells_refusals self.old) }
        ensures lost { IsTrue (tells_refusals self.new) → IsTrue (tells_refusals self.old) }
        ensures taken { (view_of self.new).taken ≡ (view_of self.old).taken }
        ensures cause { HasCause (view_of self.old).opens (view_of self.new).opens result }
        ensures reads { self.old.read_faults ≤ self.new.read_faults }
        ensures writes { self.old.write_faults ≤ self.new.write_faults }
        ensures fails { IsTrue (fails (calls_of self.old)) → IsErr result }
        ensures same_piece { piece_of self.new ≡ piece_of self.old }
        ensures calls { calls_of self.new ≡ counted (calls_of self.old) }
    {
        let bytes = name.as_bytes();
        if self.calls.is_failing() {
            self.refusals.refuse(self.alloc, Kind::Output, bytes);
            return Err(Failed);
        }
        match self.files.create(self.alloc, bytes) {
            Ok(()) => {
                self.input = None;
                self.given = MemInput {
                    bytes: Vec::new(self.alloc),
                    at: 0,
                };
                Ok(())
            }
            Err(NoMemory) => {
                self.refusals.refuse(self.alloc, Kind::Output, bytes);
                Err(Failed)
            }
        }
    }

    ghost left_told = { λ a h. refl };

    ghost no_input = { λ a d e f. no_input_left a.files a.input _ d e f };

    ghost still_desk = { λ a b p. p.desk };

    ghost still_refused = { λ a b p. p.refused };

    ghost still_taken = { λ a b p. p.taken };

    ghost still_writes = { λ a b p. p.writes };

    ghost still_opens = { λ a b p. p.opens };

    ghost grew_left = { λ a b x p. p.left };

    ghost grew_desk = { λ a b x p. p.desk };

    ghost grew_refused = { λ a b x p. p.refused };

    ghost grew_reads = { λ a b x p. p.reads };

    ghost grew_opens = { λ a b x p. p.opens };
}

impl MemShelf {
    ghost use Rattle.nif_base.specs.Shelf.{put};
    ghost use Rattle.nif_base.specs.MemShelf.{view_of, left_of, tells_refusals, calls_of, piece_of};

    /// Puts a file on the shelf, in place of one of that name; an input that was opened keeps its bytes.
    pub fn put(&mut self, name: &str, bytes: &[u8]) -> Result<(), NoMemory>
        ensures ok { OnOk result (view_of self.new ≡ record
            (view_of self.old) { desk = option_map (put name.now bytes.now) (view_of self.old).desk }) }
        ensures err { OnErr result (view_of self.new ≡ view_of self.old) }
        ensures tells { tells_refusals self.new ≡ tells_refusals self.old }
        ensures piece { piece_of self.new ≡ piece_of self.old }
        ensures calls { calls_of self.new ≡ calls_of self.old }
    {
        self.files.put(self.alloc, name.as_bytes(), bytes)
    }

    /// The bytes of a file, or None exactly where no file has the name.
    pub fn file(&self, name: &str) -> Option<&[u8]>
        ensures { IfSome (⟦<MemShelf as Shelf>⟧.desk self.now) (λ d. option_copied result ≡ get d.files name.now) }
    {
        self.files.find(name.as_bytes())
    }

    /// Whether each refusal is told: until memory runs out for the name of one.
    pub fn tells_refusals(&self) -> bool
        ensures value { result ≡ tells_refusals self.now }
        ensures told { IsTrue result → 0 < (view_of self.now).opens → IsSome (view_of self.now).refused }
        ensures untold { IsFalse result → (view_of self.now).refused ≡ None }
    {
        self.refusals.tells
    }

    /// The call of the traits of this number, counted from 0, is to fail.
    pub fn fail_call(&mut self, number: u64) -> Result<(), NoMemory>
        ensures ok { OnOk result (calls_of self.new ≡ record
            (calls_of self.old) { failing = (calls_of self.old).failing ++ number ∷ [] }) }
        ensures err { OnErr result (calls_of self.new ≡ calls_of self.old) }
        ensures view { view_of self.new ≡ view_of self.old }
        ensures tells { tells_refusals self.new ≡ tells_refusals self.old }
        ensures piece { piece_of self.new ≡ piece_of self.old }
    {
        self.calls.fail(number)
    }
}
