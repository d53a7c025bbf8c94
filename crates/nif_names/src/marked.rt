//! Stacks of types, with what was found under keys of the first of them.
ghost use Rattle.std.specs.Prelude.{◌≡◌, ℕ, ◌<◌, ◌≤◌, ◌⊎◌, [], ◌∷◌, ◌++◌, List, length, take, OnOk, OnErr, IsTrue, IfSome, Some, slice_get};
ghost use Rattle.nif_names.specs.Marks.{AreBefore, Holds, IsFound};

use nif_base::NoMemory;
use std::alloc::Global;
use std::collections::BTreeMap;
use std::marker::Model;

/// What was found of the first types of a stack.
#[derive(Debug, Clone, Copy, PartialEq, Eq)]
pub struct Found {
    /// How many types these are.
    pub count: usize,
    /// What was found, as a number of the caller's.
    pub stop: u64,
}

/// What was found under a key.
#[derive(Drop)]
pub struct Mark {
    key: Vec<u16>,
    found: Found,
    /// The place of the mark under the key that was the last to hold before it.
    before: Option<usize>,
}

/// Whether there is a type at a place that was put there when there were no more than so many marks.
fn is_before(since: &[usize], place: usize, at: usize) -> bool
    ensures { IsTrue result → (number : ℕ) × (slice_get since.now place ≡ Some number) × (number ≤ at) }
{
    match since.get(place) {
        Some(number) => *number <= at,
        None => false,
    }
}

/// A stack of types. What was found of the first so many can be kept under a key; it holds until one of them is taken
/// off.
#[derive(Drop)]
pub struct MarkedTypes {
    alloc: Global,
    types: Vec<u32>,
    /// For each type, how many marks there were when it was put there; so a mark of a later place is its own, too.
    since: Vec<usize>,
    marks: Vec<Mark>,
    /// The place of the last mark under a key.
    latest: BTreeMap<Vec<u16>, usize>,
}

impl Model for MarkedTypes {
    ghost use Rattle.std.specs.Prelude.{length, map};
    ghost use Rattle.nif_names.specs.Marks.{Marked};

    ghost Value = { Marked };

    ghost use Rattle.nif_names.specs.Kept.{plain_mark, AreOrdered};

    ghost view = { λ a. record { types = a.types.items; since = a.since.items; marks = map plain_mark a.marks.items } };

    ghost invariant = { λ a. AreOrdered a.since.items (length a.types.items) (length a.marks.items) };
}

impl MarkedTypes {
    /// A stack of no types. It takes no memory.
    pub fn new(alloc: Global) -> MarkedTypes
        ensures { result ≡ record { types = []; since = []; marks = [] } }
    {
        MarkedTypes {
            alloc,
            types: Vec::new(alloc),
            since: Vec::new(alloc),
            marks: Vec::new(alloc),
            latest: BTreeMap::new(alloc),
        }
    }

    /// The types, in order.
    pub fn types(&self) -> &[u32]
        ensures { result.now ≡ self.now.types }
    {
        self.types.as_slice()
    }

    /// Puts a type on top; after want of memory the stack is as before.
    pub fn push(&mut self, kind: u32) -> Result<(), NoMemory>
        ensures types { OnOk result (self.new.types ≡ self.old.types ++ kind ∷ []) }
        ensures marks { OnOk result ((key types : List ℕ) (stop : ℕ) → IsFound self.new key types stop
            → IsFound self.old key types stop) }
        ensures err { OnErr result (self.new ≡ self.old) }
    {
        let Ok(()) = self.since.push(self.marks.len()) else {
            return Err(NoMemory);
        };
        let Ok(()) = self.types.push(kind) else {
            self.since.pop();
            return Err(NoMemory);
        };
        Ok(())
    }

    /// Takes types off until so many are left.
    pub fn cut(&mut self, count: usize)
        ensures types { self.new.types ≡ take count self.old.types }
        ensures marks { (key types : List ℕ) (stop : ℕ) → IsFound self.new key types stop
            → IsFound self.old key types stop }
    {
        self.types.truncate(count);
        self.since.truncate(count);
    }

    /// Keeps under a key what was found of the first types; after want of memory the stack is as before, though what was
    /// found earlier under the key may be forgotten.
    pub fn mark(&mut self, key: &[u16], found: Found) -> Result<(), NoMemory>
        ensures types { self.new.types ≡ self.old.types }
        ensures marks { OnOk result ((other types : List ℕ) (stop : ℕ) → IsFound self.new other types stop
            → IsFound self.old other types stop ⊎ ((other ≡ key.now) × (types ≡ take found.count self.old.types)
            × (stop ≡ found.stop))) }
        ensures err { OnErr result (self.new ≡ self.old) }
    {
        let before = self.last(key);
        let Ok(own) = Vec::from_slice(self.alloc, key) else {
            return Err(NoMemory);
        };
        let Ok(same) = Vec::from_slice(self.alloc, key) else {
            return Err(NoMemory);
        };
        let Ok(_) = self.latest.insert(same, self.marks.len()) else {
            return Err(NoMemory);
        };
        let Ok(()) = self.marks.push(Mark {
            key: own,
            found,
            before,
        })
        else {
            return Err(NoMemory);
        };
        Ok(())
    }

    /// What was found under a key and still holds; it may be forgotten. Marks that no longer hold are passed over, and not
    /// met again.
    pub fn found(&mut self, key: &[u16]) -> Option<Found>
        ensures same { self.new ≡ self.old }
        ensures within { IfSome result (λ found. found.count ≤ length self.old.types) }
        ensures found { IfSome result (λ found. IsFound self.old key.now (take found.count self.old.types) found.stop) }
    {
        let at = self.last(key)?;
        if let Some(latest) = self.latest.get_mut(key) {
            *latest = at;
        }
        let mark = self.marks.get(at)?;
        Some(mark.found)
    }

    /// The place of the last mark under a key that still holds. No mark is before itself, so that there are no more
    /// steps than marks.
    fn last(&self, key: &[u16]) -> Option<usize>
        ensures { IfSome result (λ at. (count : ℕ) × (stop : ℕ) × Holds self.now key.now at count stop) }
    {
        let mut at = *self.latest.get(key)?;
        for _ in 0..self.marks.len() {
            if self.holds(key, at) {
                return Some(at);
            }
            at = self.marks.get(at)?.before?;
        }
        None
    }

    /// Whether there is a mark of a key at a place, and the types that it is of have all been there since.
    fn holds(&self, key: &[u16], at: usize) -> bool
        ensures { IsTrue result → (count : ℕ) × (stop : ℕ) × Holds self.now key.now at count stop }
    {
        let Some(mark) = self.marks.get(at) else {
            return false;
        };
        mark.key.as_slice() == key && self.are_before(mark.found.count, at)
    }

    /// Whether the first so many types were all there when the mark of a place was set.
    fn are_before(&self, count: usize, at: usize) -> bool
        ensures { IsTrue result → AreBefore self.now count at }
    {
        count == 0 || is_before(self.since.as_slice(), count - 1, at)
    }
}
