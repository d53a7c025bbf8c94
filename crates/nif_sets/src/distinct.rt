//! Lists of sets with each set once.
ghost use Rattle.std.specs.Prelude.{◌≡◌, ◌↔◌, ◌++◌, OnOk, IfOk, Contains};

use crate::sets::TypeSet;
use indexmap::IndexSet;
use nif_base::NoMemory;
use std::alloc::Global;

/// Puts sets behind others, where they aren't among them.
pub(crate) fn add_all(to: &mut IndexSet<TypeSet>, sets: &[TypeSet]) -> Result<(), NoMemory>
    ensures { OnOk result ((set : TypeSet) → Contains to.new.keys set ↔ Contains (to.old.keys ++ sets.now) set) }
{
    for set in sets {
        let Ok(_) = to.insert(*set) else {
            return Err(NoMemory);
        };
    }
    Ok(())
}

/// These sets, each once.
pub(crate) fn distinct(alloc: Global, sets: &[TypeSet]) -> Result<IndexSet<TypeSet>, NoMemory>
    ensures { IfOk result (λ own. (set : TypeSet) → Contains own.keys set ↔ Contains sets.now set) }
{
    let mut own = IndexSet::new(alloc);
    match add_all(&mut own, sets) {
        Ok(()) => Ok(own),
        Err(fault) => Err(fault),
    }
}
