//! The parts of a shelf in memory beside its files: the input that is read, and the refusals.
ghost use Rattle.std.specs.Prelude.{◌≡◌, ℕ, ◌<◌, ◌≤◌, List, [], ◌++◌, length, IfSome, IsSome, IsNone, IsTrue, IsFalse, Option, Some, None, take, vec_len};
ghost use Rattle.std.specs.FinMap.{get};
ghost use Rattle.nif_base.specs.Outside.{Rose};
ghost use Rattle.nif_base.specs.MemFiles.{all_files};

use crate::mem_files::MemFiles;
use crate::shelves::Kind;
use std::alloc::Global;

/// The bytes of an input, and the place from which on they are still to come.
#[derive(Drop)]
pub struct MemInput {
    pub bytes: Vec<u8>,
    pub at: usize,
    ghost within: { at ≤ vec_len bytes },
}

/// An open or create that failed.
#[derive(Drop)]
pub struct MemRefusal {
    pub kind: Kind,
    pub name: Vec<u8>,
}

/// The last refusal, told until memory runs out for one, and the count of all.
#[derive(Drop)]
pub struct MemRefusals {
    pub last: Option<MemRefusal>,
    pub tells: bool,
    pub faults: u64,
    ghost told: { 0 < faults → IsTrue tells → IsSome last },
    ghost untold: { IsFalse tells → IsNone last },
}

impl MemInput {
    ghost use Rattle.nif_base.specs.MemParts.{rest_of};

    /// Gives the next bytes, at most `most`.
    #[tactic(auto, using(crate::proofs::Bytes::given_part))]
    pub fn give(&mut self, buf: &mut [u8], most: usize) -> usize
        requires { 0 < most }
        ensures bound { result ≤ length buf.new }
        ensures piece { result ≤ most }
        ensures end { result ≡ 0 → 0 < length buf.new → rest_of self.new ≡ [] }
        ensures bytes { rest_of self.old ≡ take result buf.new ++ rest_of self.new }
    {
        let rest = &self.bytes.as_slice()[self.at..];
        let count = buf.len().min(most).min(rest.len());
        buf[..count].copy_from_slice(&rest[..count]);
        self.at += count;
        count
    }
}

impl MemRefusals {
    ghost use Rattle.nif_base.specs.MemParts.{refusal_of};

    /// Counts a refusal, and keeps it.
    pub fn refuse(&mut self, alloc: Global, kind: Kind, name: &[u8])
        ensures told { IfSome (refusal_of self.new) (λ r. (r.kind ≡ kind) × (r.name ≡ name.now)) }
        ensures later { self.old.faults ≤ self.new.faults }
        ensures rose { Rose self.old.faults self.new.faults }

        // once memory ran out for a name, none is told from then on
        ensures tells { IsTrue self.new.tells → IsTrue self.old.tells }
        ensures kept { IsTrue self.new.tells → IsSome (refusal_of self.new) }
    {
        self.faults = self.faults.saturating_add(1);
        match Vec::from_slice(alloc, name) {
            Ok(name) if self.tells => self.last = Some(MemRefusal { kind, name }),
            _ => {
                self.tells = false;
                self.last = None;
            }
        }
    }
}

/// A copy of a file's name and bytes, if it is there and memory suffices.
pub fn copy_file(alloc: Global, files: &MemFiles, name: &[u8]) -> Option<(Vec<u8>, Vec<u8>)>
    ensures name { IfSome result (λ r. r.0.items ≡ name.now) }
    ensures bytes { IfSome result (λ r. get (all_files files.now) name.now ≡ Some r.1.items) }
{
    let Some(found) = files.find(name) else {
        return None;
    };
    let Ok(bytes) = Vec::from_slice(alloc, found) else {
        return None;
    };
    let Ok(name) = Vec::from_slice(alloc, name) else {
        return None;
    };
    Some((name, bytes))
}
