//! Why a path of two names closes a type.
ghost use Rattle.std.specs.Prelude.{◌≡◌, ℕ, List, [], ◌∷◌, ◌++◌, ◌+◌, ◌<◌, ◌≤◌, length, take, map, IfOk, IsTrue, IsFalse, OnOk};
ghost use Rattle.nif_schema.specs.Schema.{Schema};
ghost use Rattle.nif_names.specs.Marks.{IsFound};
ghost use Rattle.nif_names.specs.Shapes.{inners};
ghost use Rattle.nif_names.specs.Tables.{held, kinds};
ghost use Rattle.nif_sets.specs.Insides.{held_at};
ghost use Rattle.nif_paths.specs.Shaped.{AreInsides};
ghost use Rattle.nif_paths.specs.Levels.{HasEnd};
ghost use Rattle.nif_paths.specs.Marks.{HasMarks, types_stop, types_reason, key_of_name, key_of_run};

use crate::runs::stop_reason;
use nif_base::{NoMemory, Word};
use nif_names::{Found, Names};
use nif_schema::Closed;
use std::alloc::Global;

/// Whether all that a name means inside a type are numbers, if it means anything there.
fn ends_inside(tables: &[Names], inner: u32, name: &Word) -> Option<bool>
    ensures { HasEnd (held_at tables.now name.now inner) result }
{
    let inside = tables.get(inner as usize)?;
    let shapes = inside.look(name.bytes())?;
    Some(shapes.all_numbers())
}

/// Where the last name of a path stops, where the names before it mean fields of these types.
fn last_stop(tables: &[Names], types: &[u32], name: &Word) -> u64
    ensures { (schema : Schema) → AreInsides schema tables.now → result ≡ types_stop schema types.now (name.now ∷ []) }
{
    let mut stop = 0;
    for inner in types {
        let Some(are_numbers) = ends_inside(tables, *inner, name) else {
            return 2;
        };
        if !are_numbers {
            stop = 1;
        }
    }
    stop
}

/// The first half of the types that are left, of which there is one at least.
fn next_half(types: &[u32], count: usize) -> &[u32]
    requires { count < length types.now }
    ensures some { 0 < length result.now }
    ensures within { count + length result.now ≤ length types.now }
    ensures next { take count types.now ++ result.now ≡ take (count + length result.now) types.now }
{
    let left = types.len() - count;
    &types[count..types.len() - left / 2]
}

/// Whether what was found of the first types is what there is to find of all: because they are all, or because one of
/// them lacks the name, than which nothing comes first.
fn is_settled(types: &[u32], name: &Word, found: Found) -> bool
    ensures settled { IsTrue result → (schema : Schema)
        → types_stop schema (take found.count types.now) (name.now ∷ []) ≡ found.stop
        → types_stop schema types.now (name.now ∷ []) ≡ found.stop }
    ensures open { IsFalse result → found.count < length types.now }
{
    if found.stop == 2 {
        return true;
    }
    found.count >= types.len()
}

/// Looks at half of the types that weren't looked at yet.
fn look_further(tables: &[Names], types: &[u32], name: &Word, found: Found) -> Found
    requires { found.count < length types.now }
    ensures some { found.count < result.count }
    ensures within { result.count ≤ length types.now }
    ensures stop { (schema : Schema) → AreInsides schema tables.now
        → types_stop schema (take found.count types.now) (name.now ∷ []) ≡ found.stop
        → types_stop schema (take result.count types.now) (name.now ∷ []) ≡ result.stop }
{
    let half = next_half(types, found.count);
    Found {
        count: found.count + half.len(),
        stop: found.stop.max(last_stop(tables, half, name)),
    }
}

/// What was found under a key of the types of a first name, or that nothing was.
fn found_before(names: &mut Names, first: &[u8], key: &[u16]) -> Found
    ensures same { names.new ≡ names.old }
    ensures within { result.count ≤ length (kinds names.old first.now).types }
    ensures found { (schema : Schema) (name : List ℕ) → key.now ≡ key_of_name name → HasMarks schema names.old
        → types_stop schema (take result.count (kinds names.old first.now).types) (name ∷ []) ≡ result.stop }
{
    match names.found(first, key) {
        Some(found) => found,
        None => Found { count: 0, stop: 0 },
    }
}

/// Why a second name closes a type, where the first means fields of some types. What is found of the types is kept
/// under it: a later path of the same names looks only at the types that were put there since, and where some were
/// taken off, at no more others than were. So halves are looked at, and not all at once.
fn kept_reason(
    tables: &[Names],
    names: &mut Names,
    first: &[u8],
    name: &Word,
    key: &[u16],
) -> Result<Option<Closed>, NoMemory>
    requires { key.now ≡ key_of_name name.now }
    ensures reason { IfOk result (λ reason. (schema : Schema) → AreInsides schema tables.now → HasMarks schema names.old
        → (reason ≡ types_reason schema (inners (held names.old first.now)) (name.now ∷ []))
        × HasMarks schema names.new) }
    ensures shapes { IfOk result (λ reason. (other : List ℕ) → held names.new other ≡ held names.old other) }
    ensures runs { IfOk result (λ reason. (other : List ℕ) (from to : ℕ) (types : List ℕ) (stop : ℕ)
        → IsFound (kinds names.new other) (key_of_run from to) types stop
        → IsFound (kinds names.old other) (key_of_run from to) types stop) }
{
    let mut found = found_before(names, first, key);
    'further: while !is_settled(names.inners(first), name, found) {
        found = look_further(tables, names.inners(first), name, found);
        let Ok(()) = names.mark(first, key, found) else {
            return Err(NoMemory);
        };
    }
    Ok(stop_reason(found.stop))
}

/// A name as a key.
fn name_key(alloc: Global, name: &Word) -> Result<Vec<u16>, NoMemory>
    ensures { IfOk result (λ key. key.items ≡ key_of_name name.now) }
{
    let mut key = Vec::new(alloc);
    for byte in name.bytes() {
        let Ok(()) = key.push(u16::from(*byte) + 1) else {
            return Err(NoMemory);
        };
    }
    match key.push(0) {
        Ok(()) => Ok(key),
        Err(_) => Err(NoMemory),
    }
}

/// Why a second name closes a type, where the first means fields of some types.
pub(crate) fn pair_reason(
    alloc: Global,
    tables: &[Names],
    names: &mut Names,
    first: &[u8],
    name: &Word,
) -> Result<Option<Closed>, NoMemory>
    ensures reason { IfOk result (λ reason. (schema : Schema) → AreInsides schema tables.now → HasMarks schema names.old
        → (reason ≡ types_reason schema (inners (held names.old first.now)) (name.now ∷ []))
        × HasMarks schema names.new) }
    ensures shapes { IfOk result (λ reason. (other : List ℕ) → held names.new other ≡ held names.old other) }
    ensures runs { IfOk result (λ reason. (other : List ℕ) (from to : ℕ) (types : List ℕ) (stop : ℕ)
        → IsFound (kinds names.new other) (key_of_run from to) types stop
        → IsFound (kinds names.old other) (key_of_run from to) types stop) }
{
    match name_key(alloc, name) {
        Ok(key) => kept_reason(tables, names, first, name, key.as_slice()),
        Err(fault) => Err(fault),
    }
}
