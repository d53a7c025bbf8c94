//! Sets of types, with what is known of names in them.
ghost use Rattle.std.specs.Prelude.{◌≡◌, ◌≢◌, ◌↔◌, ◌<◌, ◌⊎◌, ℕ, List, [], ◌∷◌, ◌++◌, length, flat_map, IfOk, OnOk, OnErr, IfSome, IsTrue, Contains};
ghost use Rattle.std.specs.List.{All};
ghost use Rattle.std.specs.Option.{option_map_or};
ghost use Rattle.nif_names.specs.Tables.{Table};
ghost use Rattle.nif_sets.specs.Sets.{Known, IsSet, IsBelow, IsWithin, IsGrown, types_of, size};
ghost use Rattle.nif_sets.specs.Likes.{IsLike};
ghost use Rattle.nif_sets.specs.Kept.{plain_known};
ghost use Rattle.nif_sets.specs.declared.sets.TypeSet.TheVariants.{One, Joined};
ghost use Rattle.nif_sets.specs.Insides.{AreKnown, IsInside, held_at};

use crate::distinct;
use crate::meanings::shapes_at;
use indexmap::IndexSet;
use nif_base::NoMemory;
use nif_names::Names;
use std::alloc::Global;
use std::collections::BTreeMap;
use std::marker::Model;

/// How many types a set may have that is kept as its types, and not as its parts.
const FEW: usize = 64;

/// How much may be kept before sets are full: parts of sets, answers and bytes of their names.
const MOST: u64 = 1 << 22;

/// A set of types.
#[derive(Debug, Clone, Copy, PartialEq, Eq, Hash, PartialOrd, Ord)]
pub enum TypeSet {
    /// The set of one type.
    One { number: u32 },
    /// A set that was joined, by its number.
    Joined { number: u32 },
}

/// What a name means in all types of a set.
#[derive(Debug, Clone, Copy, PartialEq, Eq)]
pub struct Inside {
    /// Whether all that it means are numbers.
    pub numbers: bool,
    /// Whether names may follow all that it means.
    pub inner: bool,
    /// The set of the types whose names may follow.
    pub set: TypeSet,
}

/// A name in a set.
#[derive(PartialEq, Eq, PartialOrd, Ord, Drop)]
pub struct Key {
    set: TypeSet,
    name: Vec<u8>,
}

/// Joined sets of types, and what is known of names in sets. After want of memory in `join`, `of_types` or `inside` they
/// aren't to be used again.
#[derive(Drop)]
pub struct Sets {
    alloc: Global,
    /// The parts of each joined set: single types, or sets that were joined before it.
    parts: Vec<Vec<TypeSet>>,
    /// The number of the joined set that has some parts, by the order of these, so that no parts make it slow.
    numbers: BTreeMap<Vec<TypeSet>, usize>,
    /// What was answered of names in sets.
    known: Vec<(Key, Option<Inside>)>,
    /// The place of what was answered of a name in a set, by the order of both, so that no names make it slow.
    places: BTreeMap<Key, usize>,
    /// How much is kept of both.
    size: u64,
}

/// Whether these are types alone, and few.
fn are_few_types(sets: &[TypeSet]) -> bool {
    sets.len() <= FEW && sets.iter().all(|set| matches!(set, TypeSet::One { .. }))
}

impl Model for Sets {
    ghost use Rattle.std.specs.Prelude.{map};
    ghost use Rattle.nif_sets.specs.Sets as plain;

    ghost Value = { plain.Sets };

    ghost use Rattle.nif_sets.specs.Kept.{plain_known, IsKept};

    ghost view = { λ a. record { parts = map (λ own. own.items) a.parts.items; known = map plain_known a.known.items } };

    ghost invariant = { λ a. IsKept (map (λ own. own.items) a.parts.items) (map plain_known a.known.items) a.size };
}

impl Sets {
    /// No joined sets, of which nothing is known. It takes no memory.
    pub fn new(alloc: Global) -> Sets
        ensures none { result.parts ≡ [] }
        ensures known { (tables : List Table) → AreKnown tables result }
    {
        Sets {
            alloc,
            parts: Vec::new(alloc),
            numbers: BTreeMap::new(alloc),
            known: Vec::new(alloc),
            places: BTreeMap::new(alloc),
            size: 0,
        }
    }

    /// Whether so much is kept that it is better to begin anew.
    pub fn is_full(&self) -> bool
        ensures { IsTrue result ↔ (MOST < size self.now) }
    {
        self.size > MOST
    }

    /// The set of all types in these sets; where they are few, it is kept as these types.
    pub fn join(&mut self, sets: &[TypeSet]) -> Result<TypeSet, NoMemory>
        requires { All (IsSet self.old) sets.now }
        ensures within { IfOk result (IsSet self.new) }
        ensures types { IfOk result (λ set. (number : ℕ) → Contains (types_of self.new set) number
            ↔ Contains (flat_map (types_of self.old) sets.now) number) }
        ensures grown { OnOk result (IsGrown self.old self.new) }
        ensures known { OnOk result ((tables : List Table) → AreKnown tables self.old → AreKnown tables self.new) }
    {
        match self.flattened(sets) {
            Ok(Some(flat)) => self.keep(flat.as_slice()),
            Ok(None) => self.join_parts(sets),
            Err(fault) => Err(fault),
        }
    }

    /// The set of these types.
    pub fn of_types(&mut self, types: &[u32]) -> Result<TypeSet, NoMemory>
        ensures within { IfOk result (IsSet self.new) }
        ensures types { IfOk result (λ set. (number : ℕ) → Contains (types_of self.new set) number
            ↔ Contains types.now number) }
        ensures grown { OnOk result (IsGrown self.old self.new) }
        ensures known { OnOk result ((tables : List Table) → AreKnown tables self.old → AreKnown tables self.new) }
    {
        let mut sets = Vec::new(self.alloc);
        for number in types {
            let Ok(()) = sets.push(TypeSet::One { number: *number }) else {
                return Err(NoMemory);
            };
        }
        self.join(sets.as_slice())
    }

    /// The joined set of a number, if so many were joined.
    pub fn joined(&self, number: u64) -> Option<TypeSet>
        ensures { IfSome result (λ set. (set ≡ Joined number) × IsSet self.now set) }
    {
        let number = u32::try_from(number).ok()?;
        if number as usize >= self.parts.len() {
            return None;
        }
        Some(TypeSet::Joined { number })
    }

    /// What a name means in all types of a set, or nothing where one of them lacks it.
    #[cycle(inside)]
    pub fn inside(
        &mut self,
        tables: &[Names],
        set: TypeSet,
        name: &[u8],
    ) -> Result<Option<Inside>, NoMemory>
        requires { IsSet self.old set }
        ensures within { IfOk result (IsWithin self.new) }
        ensures inside { IfOk result (λ answer. AreKnown tables.now self.old
            → IsInside tables.now self.new set name.now answer) }
        ensures grown { OnOk result (IsGrown self.old self.new) }
        ensures known { OnOk result (AreKnown tables.now self.old → AreKnown tables.now self.new) }
    {
        let Ok(own) = Vec::from_slice(self.alloc, name) else {
            return Err(NoMemory);
        };
        let key = Key { set, name: own };
        if let Some(answer) = self.find(&key) {
            return Ok(answer);
        }
        match self.look_inside(tables, set, name) {
            Ok(answer) => self.note(key, answer),
            Err(fault) => Err(fault),
        }
    }

    /// The same, of which nothing is known.
    #[cycle(inside)]
    fn look_inside(
        &mut self,
        tables: &[Names],
        set: TypeSet,
        name: &[u8],
    ) -> Result<Option<Inside>, NoMemory>
        requires { IsSet self.old set }
        ensures within { IfOk result (IsWithin self.new) }
        ensures inside { IfOk result (λ answer. AreKnown tables.now self.old
            → IsInside tables.now self.new set name.now answer) }
        ensures grown { OnOk result (IsGrown self.old self.new) }
        ensures known { OnOk result (AreKnown tables.now self.old → AreKnown tables.now self.new) }
    {
        match set {
            TypeSet::One { number } => self.inside_type(tables, number, name),
            TypeSet::Joined { number } => self.inside_parts(tables, number, name),
        }
    }

    /// What a name means in all parts of a joined set.
    #[cycle(inside)]
    fn inside_parts(
        &mut self,
        tables: &[Names],
        number: u32,
        name: &[u8],
    ) -> Result<Option<Inside>, NoMemory>
        requires { number < length self.old.parts }
        ensures within { IfOk result (IsWithin self.new) }
        ensures inside { IfOk result (λ answer. AreKnown tables.now self.old
            → IsInside tables.now self.new (Joined number) name.now answer) }
        ensures grown { OnOk result (IsGrown self.old self.new) }
        ensures known { OnOk result (AreKnown tables.now self.old → AreKnown tables.now self.new) }
    {
        let Ok(parts) = Vec::from_slice(self.alloc, self.parts_of(number)) else {
            return Err(NoMemory);
        };
        let mut numbers = true;
        let mut inner = true;
        let mut sets = Vec::new(self.alloc);
        for part in parts.as_slice() {
            let inside = match self.inside(tables, *part, name) {
                Ok(Some(inside)) => inside,
                Ok(None) => return Ok(None),
                Err(fault) => return Err(fault),
            };
            numbers &= inside.numbers;
            inner &= inside.inner;
            let Ok(()) = sets.push(inside.set) else {
                return Err(NoMemory);
            };
        }
        match self.join(sets.as_slice()) {
            Ok(set) => Ok(Some(Inside {
                numbers,
                inner,
                set,
            })),
            Err(fault) => Err(fault),
        }
    }

    /// What a name means in a type.
    fn inside_type(
        &mut self,
        tables: &[Names],
        number: u32,
        name: &[u8],
    ) -> Result<Option<Inside>, NoMemory>
        ensures within { IfOk result (IsWithin self.new) }
        ensures inside { IfOk result (λ answer. AreKnown tables.now self.old
            → IsInside tables.now self.new (One number) name.now answer) }
        ensures grown { OnOk result (IsGrown self.old self.new) }
        ensures known { OnOk result (AreKnown tables.now self.old → AreKnown tables.now self.new) }
    {
        let Some(shapes) = shapes_at(tables, number, name) else {
            return Ok(None);
        };
        match self.of_types(shapes.inners()) {
            Ok(set) => Ok(Some(Inside {
                numbers: shapes.all_numbers(),
                inner: shapes.all_inner(),
                set,
            })),
            Err(fault) => Err(fault),
        }
    }

    /// What is known of a name in a set, if something is; it may be forgotten.
    fn find(&self, key: &Key) -> Option<Option<Inside>>
        ensures within { IfSome result (IsWithin self.now) }
        ensures known { IfSome result (λ answer. Contains self.now.known (plain_known (key.now, answer))) }
    {
        let place = *self.places.get(key)?;
        let kept = self.known.get(place)?;
        if kept.0.set == key.set {
            if kept.0.name.as_slice() == key.name.as_slice() {
                return Some(kept.1);
            }
        }
        None
    }

    /// Keeps an answer, and gives it back; after want of memory the sets are as before.
    fn note(&mut self, key: Key, answer: Option<Inside>) -> Result<Option<Inside>, NoMemory>
        requires set { IsSet self.old key.set }
        requires within { IsWithin self.old answer }
        ensures same { IfOk result (λ given. given ≡ answer) }
        ensures parts { self.new.parts ≡ self.old.parts }
        ensures known { OnOk result ((known : Known) → Contains self.new.known known → Contains self.old.known known
            ⊎ (known ≡ plain_known (key, answer))) }
        ensures err { OnErr result (self.new ≡ self.old) }
    {
        let Some(size) = self.size.checked_add(key.name.len() as u64 + 1) else {
            return Err(NoMemory);
        };
        let Ok(name) = Vec::from_slice(self.alloc, key.name.as_slice()) else {
            return Err(NoMemory);
        };
        let same = Key { set: key.set, name };
        let Ok(_) = self.places.insert(same, self.known.len()) else {
            return Err(NoMemory);
        };
        let Ok(()) = self.known.push((key, answer)) else {
            return Err(NoMemory);
        };
        self.size = size;
        Ok(answer)
    }

    /// The parts of a joined set.
    fn parts_of(&self, number: u32) -> &[TypeSet]
        requires { number < length self.now.parts }
        ensures before { All (IsBelow number) result.now }
        ensures types { types_of self.now (Joined number) ≡ flat_map (types_of self.now) result.now }
    {
        self.parts[number as usize].as_slice()
    }

    /// Puts the types in a set to those that are gathered, if it is kept as its types and these are few.
    fn gather(&self, flat: &mut IndexSet<TypeSet>, set: TypeSet) -> Result<bool, NoMemory>
        requires { IsSet self.now set }
        ensures { IfOk result (λ added. IsTrue added → (sets : List TypeSet) → IsLike self.now flat.old.keys sets
            → IsLike self.now flat.new.keys (sets ++ set ∷ [])) }
    {
        match set {
            TypeSet::One { .. } => match distinct::add_all(flat, &[set]) {
                Ok(()) => Ok(true),
                Err(fault) => Err(fault),
            },
            TypeSet::Joined { number } => {
                let own = self.parts_of(number);
                if !are_few_types(own) {
                    return Ok(false);
                }
                match distinct::add_all(flat, own) {
                    Ok(()) => Ok(true),
                    Err(fault) => Err(fault),
                }
            }
        }
    }

    /// The types in these sets, where they are few.
    fn flattened(&self, sets: &[TypeSet]) -> Result<Option<IndexSet<TypeSet>>, NoMemory>
        requires { All (IsSet self.now) sets.now }
        ensures { IfOk result (λ found. IfSome found (λ flat. IsLike self.now flat.keys sets.now)) }
    {
        let mut flat = IndexSet::new(self.alloc);
        for set in sets {
            match self.gather(&mut flat, *set) {
                Ok(true) => {}
                Ok(false) => return Ok(None),
                Err(fault) => return Err(fault),
            }
            if flat.len() > FEW {
                return Ok(None);
            }
        }
        Ok(Some(flat))
    }

    /// The set of all types in these sets, of which each is a part of it.
    fn join_parts(&mut self, sets: &[TypeSet]) -> Result<TypeSet, NoMemory>
        requires { All (IsSet self.old) sets.now }
        ensures within { IfOk result (IsSet self.new) }
        ensures types { IfOk result (λ set. (number : ℕ) → Contains (types_of self.new set) number
            ↔ Contains (flat_map (types_of self.old) sets.now) number) }
        ensures grown { OnOk result (IsGrown self.old self.new) }
        ensures known { OnOk result ((tables : List Table) → AreKnown tables self.old → AreKnown tables self.new) }
    {
        match distinct::distinct(self.alloc, sets) {
            Ok(own) => self.keep(own.as_slice()),
            Err(fault) => Err(fault),
        }
    }

    /// The set of all types in these sets, which are its parts, if there isn't one alone.
    fn keep(&mut self, sets: &[TypeSet]) -> Result<TypeSet, NoMemory>
        requires { All (IsSet self.old) sets.now }
        ensures within { IfOk result (IsSet self.new) }
        ensures types { IfOk result (λ set. (number : ℕ) → Contains (types_of self.new set) number
            ↔ Contains (flat_map (types_of self.old) sets.now) number) }
        ensures grown { OnOk result (IsGrown self.old self.new) }
        ensures known { OnOk result ((tables : List Table) → AreKnown tables self.old → AreKnown tables self.new) }
    {
        if sets.len() == 1 {
            return Ok(sets[0]);
        }
        match self.kept(sets) {
            Some(set) => Ok(set),
            None => self.add(sets),
        }
    }

    /// A joined set that has these parts, if there is one; it may be forgotten.
    fn kept(&self, sets: &[TypeSet]) -> Option<TypeSet>
        ensures within { IfSome result (IsSet self.now) }
        ensures types { IfSome result (λ set. types_of self.now set ≡ flat_map (types_of self.now) sets.now) }
    {
        let place = *self.numbers.get(sets)?;
        let own = self.parts.get(place)?;
        let Ok(number) = u32::try_from(place) else {
            return None;
        };
        if own.as_slice() == sets {
            return Some(TypeSet::Joined { number });
        }
        None
    }

    /// Joins these sets, which are the parts of a new set; after want of memory the sets are as before.
    fn add(&mut self, sets: &[TypeSet]) -> Result<TypeSet, NoMemory>
        requires { All (IsSet self.old) sets.now }
        ensures within { IfOk result (IsSet self.new) }
        ensures types { IfOk result (λ set. types_of self.new set ≡ flat_map (types_of self.old) sets.now) }
        ensures grown { OnOk result (IsGrown self.old self.new) }
        ensures known { OnOk result ((tables : List Table) → AreKnown tables self.old → AreKnown tables self.new) }
        ensures err { OnErr result (self.new ≡ self.old) }
    {
        let Some(size) = self.size.checked_add(sets.len() as u64) else {
            return Err(NoMemory);
        };
        let place = self.parts.len();
        let Ok(number) = u32::try_from(place) else {
            return Err(NoMemory);
        };
        let Ok(own) = Vec::from_slice(self.alloc, sets) else {
            return Err(NoMemory);
        };
        let Ok(same) = Vec::from_slice(self.alloc, sets) else {
            return Err(NoMemory);
        };
        let Ok(_) = self.numbers.insert(same, place) else {
            return Err(NoMemory);
        };
        let Ok(()) = self.parts.push(own) else {
            return Err(NoMemory);
        };
        self.size = size;
        Ok(TypeSet::Joined { number })
    }
}
