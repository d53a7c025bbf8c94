//! What a name means in types.
ghost use Rattle.std.specs.Prelude.{◌≡◌, ◌≢◌, ◌↔◌, ◌++◌, ℕ, [], OnOk, IfOk, IfSome, Contains};
ghost use Rattle.std.specs.Option.{option_map_or};
ghost use Rattle.nif_sets.specs.Insides.{IsMeaning, held_at};

use indexmap::IndexSet;
use nif_base::NoMemory;
use nif_names::{Names, Shapes};
use std::alloc::Global;

/// What a name means in all of some types.
#[derive(Drop)]
pub struct Meaning {
    /// Whether all that it means are numbers.
    pub numbers: bool,
    /// Whether names may follow all that it means.
    pub inner: bool,
    /// The types whose names may follow, each once.
    pub types: Vec<u32>,
}

/// The shapes of a name in a type, if there are any.
pub(crate) fn shapes_at<'t>(tables: &'t [Names], number: u32, name: &[u8]) -> Option<&'t Shapes>
    ensures value { option_map_or (λ shapes. shapes.now.shapes) result [] ≡ held_at tables.now name.now number }
    ensures some { IfSome result (λ shapes. shapes.now.shapes ≢ []) }
{
    let table = tables.get(number as usize)?;
    table.look(name)
}

/// Puts types behind others, where they aren't among them.
fn add_types(to: &mut IndexSet<u32>, types: &[u32]) -> Result<(), NoMemory>
    ensures { OnOk result ((number : ℕ) → Contains to.new.keys number ↔ Contains (to.old.keys ++ types.now) number) }
{
    for number in types {
        let Ok(_) = to.insert(*number) else {
            return Err(NoMemory);
        };
    }
    Ok(())
}

/// What a name means in all of these types, or nothing where one of them lacks it. Nothing of it is kept.
pub fn meaning_in(
    alloc: Global,
    tables: &[Names],
    types: &[u32],
    name: &[u8],
) -> Result<Option<Meaning>, NoMemory>
    ensures { IfOk result (λ answer. IsMeaning tables.now types.now name.now answer) }
{
    let mut numbers = true;
    let mut inner = true;
    let mut inside = IndexSet::new(alloc);
    for number in types {
        let Some(shapes) = shapes_at(tables, *number, name) else {
            return Ok(None);
        };
        numbers &= shapes.all_numbers();
        inner &= shapes.all_inner();
        let Ok(()) = add_types(&mut inside, shapes.inners()) else {
            return Err(NoMemory);
        };
    }
    let Ok(types) = Vec::from_slice(alloc, inside.as_slice()) else {
        return Err(NoMemory);
    };
    Ok(Some(Meaning {
        numbers,
        inner,
        types,
    }))
}
