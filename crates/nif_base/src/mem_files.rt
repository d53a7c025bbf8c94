//! Files in memory, found by their names.
ghost use Rattle.std.specs.Prelude.{◌≡◌, ℕ, List, [], ◌++◌, length, OnOk, OnErr, IsTrue, IfOk, IfErr, ◌∷◌, Option, Some, None};
ghost use Rattle.std.specs.Option.{option_copied};
ghost use Rattle.std.specs.Ordering.{eq_by_cmp};
ghost use Rattle.std.specs.FinMap.{get, insert, empty};
ghost use Rattle.nif_base.specs.Shelf.{name_cmp, files_written};
ghost use Rattle.nif_base.specs.MemFiles.{files_of, all_files, output_of};

use crate::faults::NoMemory;
use std::alloc::Global;

/// A file in memory.
#[derive(Drop)]
pub struct MemFile {
    pub name: Vec<u8>,
    pub bytes: Vec<u8>,
}

/// Files in memory, with the one that is written, and all bytes that were ever written.
#[derive(Drop)]
pub struct MemFiles {
    pub others: Vec<MemFile>,
    pub output: Option<MemFile>,
    pub taken: Vec<u8>,
}

fn make_file(alloc: Global, name: &[u8], bytes: &[u8]) -> Result<MemFile, NoMemory>
    ensures name { IfOk result (λ f. f.name.items ≡ name.now) }
    ensures bytes { IfOk result (λ f. f.bytes.items ≡ bytes.now) }
{
    let Ok(name) = Vec::from_slice(alloc, name) else {
        return Err(NoMemory);
    };
    let Ok(bytes) = Vec::from_slice(alloc, bytes) else {
        return Err(NoMemory);
    };
    Ok(MemFile { name, bytes })
}

fn is_name(own: &[u8], name: &[u8]) -> bool
    ensures value { result ≡ eq_by_cmp name_cmp name.now own.now }
    ensures same { IsTrue result → own.now ≡ name.now }
{
    own == name
}

#[tactic(auto, using(crate::proofs::FilesLemmas::get_hit, crate::proofs::FilesLemmas::get_miss, crate::proofs::FilesLemmas::get_none))]
fn find_file<'a>(files: &'a [MemFile], name: &[u8]) -> Option<&'a [u8]>
    ensures { option_copied result ≡ get (files_of files.now) name.now }
{
    for file in files {
        if is_name(file.name.as_slice(), name) {
            return Some(file.bytes.as_slice());
        }
    }
    None
}

fn push_front(files: &mut Vec<MemFile>, file: MemFile) -> Result<(), MemFile>
    ensures ok { OnOk result (files.new.items ≡ file ∷ files.old.items) }
    ensures err { IfErr result (λ kept. (kept ≡ file) × (files.new.items ≡ files.old.items)) }
{
    match files.insert(0, file) {
        Ok(()) => Ok(()),
        Err(failed) => Err(failed.value),
    }
}

impl MemFiles {
    pub fn new(alloc: Global) -> MemFiles
        ensures files { all_files result ≡ empty }
        ensures output { output_of result ≡ None }
        ensures taken { result.taken.items ≡ [] }
    {
        MemFiles {
            others: Vec::new(alloc),
            output: None,
            taken: Vec::new(alloc),
        }
    }

    /// The bytes of the file of a name.
    #[tactic(auto, using(crate::proofs::FilesLemmas::get_first))]
    pub fn find(&self, name: &[u8]) -> Option<&[u8]>
        ensures { option_copied result ≡ get (all_files self.now) name.now }
    {
        let Some(file) = &self.output else {
            return find_file(self.others.as_slice(), name);
        };
        if is_name(file.name.as_slice(), name) {
            return Some(file.bytes.as_slice());
        }
        find_file(self.others.as_slice(), name)
    }

    /// Puts a file before all others.
    #[tactic(auto, using(crate::specs::Shelf::insert_twice, crate::specs::Shelf::insert_swap, crate::specs::Shelf::one_name))]
    pub fn put(&mut self, alloc: Global, name: &[u8], bytes: &[u8]) -> Result<(), NoMemory>
        ensures files { OnOk result (all_files self.new ≡ insert (all_files self.old) name.now bytes.now) }
        ensures output { output_of self.new ≡ output_of self.old }
        ensures err { OnErr result (all_files self.new ≡ all_files self.old) }
        ensures taken { self.new.taken.items ≡ self.old.taken.items }
    {
        let file = make_file(alloc, name, bytes)?;
        let Some(output) = self.output.take() else {
            return match push_front(&mut self.others, file) {
                Ok(()) => Ok(()),
                Err(_) => Err(NoMemory),
            };
        };
        if is_name(output.name.as_slice(), name) {
            self.output = Some(file);
            return Ok(());
        }
        self.output = Some(output);
        match push_front(&mut self.others, file) {
            Ok(()) => Ok(()),
            Err(_) => Err(NoMemory),
        }
    }

    /// Makes an empty file the output.
    pub fn create(&mut self, alloc: Global, name: &[u8]) -> Result<(), NoMemory>
        ensures files { OnOk result (all_files self.new ≡ insert (all_files self.old) name.now []) }
        ensures output { OnOk result (output_of self.new ≡ Some name.now) }
        ensures err { OnErr result (all_files self.new ≡ all_files self.old) }
        ensures err_output { OnErr result (output_of self.new ≡ output_of self.old) }
        ensures taken { self.new.taken.items ≡ self.old.taken.items }
    {
        let file = make_file(alloc, name, &[])?;
        let Some(old) = self.output.take() else {
            self.output = Some(file);
            return Ok(());
        };
        match push_front(&mut self.others, old) {
            Ok(()) => {
                self.output = Some(file);
                Ok(())
            }
            Err(old) => {
                self.output = Some(old);
                Err(NoMemory)
            }
        }
    }

    /// Adds bytes to the output, if there is one, and to those that were ever written.
    #[tactic(auto, using(crate::specs::Shelf::written_more, crate::specs::Shelf::written_nowhere))]
    pub fn append(&mut self, piece: &[u8]) -> Result<(), NoMemory>
        ensures files { OnOk result (all_files self.new
            ≡ files_written (all_files self.old) (output_of self.old) piece.now) }
        ensures output { output_of self.new ≡ output_of self.old }
        ensures taken { OnOk result (self.new.taken.items ≡ self.old.taken.items ++ piece.now) }
        ensures err { OnErr result (all_files self.new ≡ all_files self.old) }
        ensures err_taken { OnErr result (self.new.taken.items ≡ self.old.taken.items) }
    {
        let before = self.taken.len();
        if self.taken.extend_from_slice(piece).is_err() {
            return Err(NoMemory);
        }
        let Some(mut output) = self.output.take() else {
            return Ok(());
        };
        let done = output.bytes.extend_from_slice(piece).is_ok();
        self.output = Some(output);
        if done {
            return Ok(());
        }
        self.taken.truncate(before);
        Err(NoMemory)
    }
}
