//! Why a path closes a type.
ghost use Rattle.std.specs.Prelude.{◌≡◌, ◌<◌, ◌≤◌, List, length, take, drop, ◌&&◌, ◌||◌, IfOk, bytes_eq, codes, if◌then◌else◌, None, Some};
ghost use Rattle.std.specs.List.{list_all};
ghost use Rattle.nif_schema.specs.Declaration as plain;
ghost use Rattle.nif_schema.specs.Schema.{Schema};
ghost use Rattle.nif_names.specs.Shapes.{inners};
ghost use Rattle.nif_names.specs.Tables.{held, kinds};
ghost use Rattle.nif_schema.specs.Paths.{is_header_path, path_reason};
ghost use Rattle.nif_schema.specs.declared.faults.Closed.TheVariants.{C5, C6};
ghost use Rattle.nif_sets.specs.Insides.{AreKnown};
ghost use Rattle.nif_paths.specs.Shaped.{AreInsides};
ghost use Rattle.nif_paths.specs.Marks.{Gives, HasRuns, IsLine, IsSame, types_stop, types_reason};

use crate::lines::Line;
use crate::pairs::pair_reason;
use crate::runs::{greatest_power, run_set, set_stop, stop_reason};
use crate::types::types_stop;
use nif_base::{NoMemory, Word};
use nif_names::{Names, Shapes};
use nif_schema::{Closed, Path};
use std::alloc::Global;

/// How many names a path may have for which sets of types are kept.
const MOST_NAMES: u32 = 32;

fn is_text(name: &Word, text: &[u8]) -> bool
    ensures { result ≡ bytes_eq name.now text.now }
{
    name.bytes() == text
}

fn is_header_name(name: &Word) -> bool
    ensures { result ≡ bytes_eq name.now (codes "Version")
        || (bytes_eq name.now (codes "User Version") || bytes_eq name.now (codes "User Version 2")) }
{
    if is_text(name, b"Version".as_slice()) {
        return true;
    }
    if is_text(name, b"User Version".as_slice()) {
        return true;
    }
    is_text(name, b"User Version 2".as_slice())
}

fn is_header_pair(first: &Word, second: &Word) -> bool
    ensures { result ≡ bytes_eq first.now (codes "BS Header") && bytes_eq second.now (codes "BS Version") }
{
    if !is_text(first, b"BS Header".as_slice()) {
        return false;
    }
    is_text(second, b"BS Version".as_slice())
}

/// Whether a path is a name of the header.
fn is_header_path(path: &Path) -> bool
    ensures { result ≡ is_header_path path.now }
{
    let count = path.len();
    if count == 1 {
        return is_header_name(path.get(0));
    }
    if count == 2 {
        return is_header_pair(path.get(0), path.get(1));
    }
    false
}

/// Why a path that no field behind it declares closes a type.
fn header_reason(path: &Path) -> Option<Closed>
    ensures { result ≡ (if is_header_path path.now then None else Some C5) }
{
    if is_header_path(path) {
        return None;
    }
    Some(Closed::C5)
}

/// Why a bare name closes a type, which means these.
fn name_reason(shapes: &Shapes) -> Option<Closed>
    ensures { result ≡ (if list_all (λ s. s.number) shapes.now.shapes then None else Some C6) }
{
    if shapes.all_numbers() {
        return None;
    }
    Some(Closed::C6)
}

/// Where the names of a path after the first stop, which means fields of a run of the types of its name.
fn run_stop(
    alloc: Global,
    tables: &[Names],
    line: &mut Line,
    first: &[u8],
    path: &Path,
    from: u32,
    to: u32,
) -> Result<u64, NoMemory>
    requires some { from < to }
    requires within { to ≤ length (kinds line.old.names first.now).types }
    ensures stop { IfOk result (λ stop. (schema : Schema) → AreInsides schema tables.now
        → HasRuns line.old.names line.old.sets → AreKnown tables.now line.old.sets
        → stop ≡ types_stop schema (drop from (take to (kinds line.old.names first.now).types)) (drop 1 path.now)) }
    ensures same { IfOk result (λ stop. IsSame tables.now line.old line.new) }
{
    match run_set(alloc, line, first, from, to) {
        Ok(set) => set_stop(tables, &mut line.sets, set, path),
        Err(fault) => Err(fault),
    }
}

/// Why the names of a path after the first close a type, where the first means fields of some types. The types are
/// looked at in runs, each of which is as long as the greatest power of two: the sets of these are kept for later paths.
fn long_reason(
    alloc: Global,
    tables: &[Names],
    line: &mut Line,
    first: &[u8],
    path: &Path,
) -> Result<Option<Closed>, NoMemory>
    requires { 1 < length path.now }
    ensures { IfOk result (λ reason. (schema : Schema) (fields : List plain.Field) → AreInsides schema tables.now
        → IsLine schema fields line.old
        → (reason ≡ types_reason schema (inners (held line.old.names first.now)) (drop 1 path.now))
        × IsLine schema fields line.new) }
{
    let Ok(count) = u32::try_from(line.names.inners(first).len()) else {
        return Err(NoMemory);
    };
    let most = 2 * u64::from(path.len() - 1);
    let mut from = 0;
    let mut stop = 0;
    'run: while from < count && stop < most {
        let to = from + greatest_power(count - from);
        stop = match run_stop(alloc, tables, line, first, path, from, to) {
            Ok(next) => stop.max(next),
            Err(fault) => return Err(fault),
        };
        from = to;
    }
    Ok(stop_reason(stop))
}

/// The same, of which nothing is kept.
fn unkept_reason(
    alloc: Global,
    tables: &[Names],
    line: &Line,
    first: &[u8],
    path: &Path,
) -> Result<Option<Closed>, NoMemory>
    ensures { IfOk result (λ reason. (schema : Schema) → AreInsides schema tables.now
        → reason ≡ types_reason schema (inners (held line.now.names first.now)) (drop 1 path.now)) }
{
    match types_stop(alloc, tables, line.names.inners(first), path) {
        Ok(stop) => Ok(stop_reason(stop)),
        Err(fault) => Err(fault),
    }
}

/// Why a path closes a type, behind the fields of a line; after want of memory the line isn't to be used again.
pub fn path_reason(
    alloc: Global,
    tables: &[Names],
    line: &mut Line,
    path: &Path,
) -> Result<Option<Closed>, NoMemory>
    ensures { IfOk result (Gives (λ schema fields. path_reason schema fields path.now) tables.now line.old line.new) }
{
    let count = path.len();
    let first = path.get(0).bytes();
    let Some(shapes) = line.look(first) else {
        return Ok(header_reason(path));
    };
    if count == 1 {
        return Ok(name_reason(shapes));
    }
    if !shapes.all_inner() {
        return Ok(Some(Closed::C6));
    }
    if count == 2 {
        return pair_reason(alloc, tables, &mut line.names, first, path.get(1));
    }
    if count > MOST_NAMES || line.sets.is_full() {
        return unkept_reason(alloc, tables, line, first, path);
    }
    long_reason(alloc, tables, line, first, path)
}
