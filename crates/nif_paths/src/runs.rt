//! Where the names of a path stop in sets of types, and the sets of runs of the types of a first name.
ghost use Rattle.std.specs.Prelude.{◌≡◌, ◌↔◌, ◌⊎◌, ℕ, ◌-◌, ◌^◌, ◌<◌, ◌≤◌, List, length, take, drop, IfOk, OnOk, IfSome, Contains};
ghost use Rattle.nif_schema.specs.Schema.{Schema};
ghost use Rattle.nif_names.specs.Marks.{IsFound};
ghost use Rattle.nif_names.specs.Tables.{Table, held, kinds};
ghost use Rattle.nif_sets.specs.Insides.{AreKnown};
ghost use Rattle.nif_sets.specs.Sets.{IsSet, IsGrown, types_of};
ghost use Rattle.nif_sets.specs.declared.sets.TypeSet.TheVariants.{Joined};
ghost use Rattle.nif_paths.specs.Shaped.{AreInsides};
ghost use Rattle.nif_paths.specs.Marks.{HasRuns, IsSame, IsSetOf, key_of_run, stop_reason, types_stop};

use crate::lines::Line;
use nif_base::NoMemory;
use nif_names::{Found, Names};
use nif_schema::{Closed, Path};
use nif_sets::{Sets, TypeSet};
use std::alloc::Global;

/// The reason of a stop.
pub(crate) fn stop_reason(stop: u64) -> Option<Closed>
    ensures { result ≡ stop_reason stop }
{
    if stop == 0 {
        return None;
    }
    if stop % 2 == 0 {
        return Some(Closed::C5);
    }
    Some(Closed::C6)
}

/// Where the names of a path after the first stop, which means fields of all types of a set.
pub(crate) fn set_stop(
    tables: &[Names],
    sets: &mut Sets,
    set: TypeSet,
    path: &Path,
) -> Result<u64, NoMemory>
    requires { IsSet sets.old set }
    ensures stop { IfOk result (λ stop. (schema : Schema) → AreInsides schema tables.now → AreKnown tables.now sets.old
        → stop ≡ types_stop schema (types_of sets.old set) (drop 1 path.now)) }
    ensures grown { OnOk result (IsGrown sets.old sets.new) }
    ensures known { OnOk result (AreKnown tables.now sets.old → AreKnown tables.now sets.new) }
{
    let mut at = set;
    for place in 1..path.len() {
        let left = 2 * u64::from(path.len() - place);
        let inside = match sets.inside(tables, at, path.get(place).bytes()) {
            Ok(Some(inside)) => inside,
            Ok(None) => return Ok(left),
            Err(fault) => return Err(fault),
        };
        if left == 2 {
            return Ok(u64::from(!inside.numbers));
        }
        if !inside.inner {
            return Ok(left - 1);
        }
        at = inside.set;
    }
    Ok(0)
}

/// The bounds of a run of types, as a key.
fn run_key(alloc: Global, from: u32, to: u32) -> Result<Vec<u16>, NoMemory>
    ensures { IfOk result (λ key. key.items ≡ key_of_run from to) }
{
    let halves = [
        (from % 0x10000) as u16,
        (from / 0x10000) as u16,
        (to % 0x10000) as u16,
        (to / 0x10000) as u16,
        1,
    ];
    match Vec::from_slice(alloc, &halves) {
        Ok(key) => Ok(key),
        Err(_) => Err(NoMemory),
    }
}

/// A set that was kept of a run of types; it may be forgotten.
fn kept_set(line: &mut Line, first: &[u8], key: &[u16], to: u32) -> Option<TypeSet>
    ensures same { line.new ≡ line.old }
    ensures within { IfSome result (λ set. IsSet line.old.sets set) }
    ensures types { IfSome result (λ set. (from : ℕ) → key.now ≡ key_of_run from to
        → HasRuns line.old.names line.old.sets
        → IsSetOf line.old.sets set (drop from (take to (kinds line.old.names first.now).types))) }
{
    let found = line.names.found(first, key)?;
    if found.count != to as usize {
        return None;
    }
    line.sets.joined(found.stop)
}

/// Keeps the set of a run of types, if it is a joined one.
fn keep_set(
    names: &mut Names,
    first: &[u8],
    key: &[u16],
    to: u32,
    set: TypeSet,
) -> Result<(), NoMemory>
    ensures shapes { (other : List ℕ) → held names.new other ≡ held names.old other }
    ensures types { (other : List ℕ) → (kinds names.new other).types ≡ (kinds names.old other).types }
    ensures found { OnOk result ((other under types : List ℕ) (number : ℕ)
        → IsFound (kinds names.new other) under types number
        → IsFound (kinds names.old other) under types number
        ⊎ ((other ≡ first.now) × (under ≡ key.now) × (types ≡ take to (kinds names.old other).types)
        × (set ≡ Joined number))) }
{
    let TypeSet::Joined { number } = set else {
        return Ok(());
    };
    names.mark(
        first,
        key,
        Found {
            count: to as usize,
            stop: u64::from(number),
        },
    )
}

/// The set of a run of the types of a first name. The sets of its halves are kept, and of the halves of these: so
/// where types were taken off and others put there, only the runs that they are in are joined again.
pub(crate) fn run_set(
    alloc: Global,
    line: &mut Line,
    first: &[u8],
    from: u32,
    to: u32,
) -> Result<TypeSet, NoMemory>
    requires some { from < to }
    requires within { to ≤ length (kinds line.old.names first.now).types }
    ensures within { IfOk result (IsSet line.new.sets) }
    ensures types { IfOk result (λ set. HasRuns line.old.names line.old.sets
        → IsSetOf line.new.sets set (drop from (take to (kinds line.old.names first.now).types))) }
    ensures same { IfOk result (λ set. (tables : List Table) → IsSame tables line.old line.new) }
{
    if to - from == 1 {
        return Ok(TypeSet::One {
            number: line.names.inners(first)[from as usize],
        });
    }
    let key = match run_key(alloc, from, to) {
        Ok(key) => key,
        Err(fault) => return Err(fault),
    };
    if let Some(set) = kept_set(line, first, key.as_slice(), to) {
        return Ok(set);
    }
    let middle = from + (to - from) / 2;
    let left = match run_set(alloc, line, first, from, middle) {
        Ok(set) => set,
        Err(fault) => return Err(fault),
    };
    let right = match run_set(alloc, line, first, middle, to) {
        Ok(set) => set,
        Err(fault) => return Err(fault),
    };
    let set = match line.sets.join(&[left, right]) {
        Ok(set) => set,
        Err(fault) => return Err(fault),
    };
    match keep_set(&mut line.names, first, key.as_slice(), to, set) {
        Ok(()) => Ok(set),
        Err(fault) => Err(fault),
    }
}

/// The greatest power of two that isn't above a number.
pub(crate) fn greatest_power(number: u32) -> u32
    requires { 0 < number }
    ensures power { (exponent : ℕ) × (result ≡ 2 ^ exponent) }
    ensures some { 0 < result }
    ensures within { result ≤ number }
{
    1 << number.ilog2()
}
