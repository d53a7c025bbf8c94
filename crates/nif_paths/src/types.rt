//! Where the names of a path stop in types, of which nothing is kept.
ghost use Rattle.std.specs.Prelude.{◌≡◌, drop, IfOk};
ghost use Rattle.nif_schema.specs.Schema.{Schema};
ghost use Rattle.nif_paths.specs.Shaped.{AreInsides};
ghost use Rattle.nif_paths.specs.Marks.{types_stop};

use nif_base::NoMemory;
use nif_names::Names;
use nif_schema::Path;
use nif_sets::meaning_in;
use std::alloc::Global;

/// Where the names of a path after the first stop, which means fields of these types.
pub(crate) fn types_stop(
    alloc: Global,
    tables: &[Names],
    types: &[u32],
    path: &Path,
) -> Result<u64, NoMemory>
    ensures { IfOk result (λ stop. (schema : Schema) → AreInsides schema tables.now
        → stop ≡ types_stop schema types.now (drop 1 path.now)) }
{
    let Ok(mut at) = Vec::from_slice(alloc, types) else {
        return Err(NoMemory);
    };
    for place in 1..path.len() {
        let left = 2 * u64::from(path.len() - place);
        let inside = match meaning_in(alloc, tables, at.as_slice(), path.get(place).bytes()) {
            Ok(Some(inside)) => inside,
            Ok(None) => return Ok(left),
            Err(fault) => return Err(fault),
        };
        if left == 2 {
            return Ok(u64::from(!inside.numbers));
        }
        if !inside.inner {
            return Ok(left - 1);
        }
        at = inside.types;
    }
    Ok(0)
}
