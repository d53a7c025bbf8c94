//! The spread of marks along uses.
ghost use Rattle.std.specs.Prelude.{◌≡◌, ℕ, ◌<◌, ◌↔◌, All, Contains, length, slice_get, Some, true, IfOk};
ghost use Rattle.nif_schema.specs.Uses.{is_generic};
ghost use Rattle.nif_uses.specs.Marks.{IsMarked, ReachesMarked};

use crate::users::Users;
use nif_base::NoMemory;
use nif_schema::Schema;
use std::alloc::Global;

/// The numbers of what is marked, of so many marks.
fn numbers_of(alloc: Global, count: u32, marks: &[bool]) -> Result<Vec<u32>, NoMemory>
    requires { length marks.now ≡ count }
    ensures marked { IfOk result (λ numbers. All (IsMarked marks.now) numbers.items) }
    ensures all { IfOk result (λ numbers. (k : ℕ) → IsMarked marks.now k → Contains numbers.items k) }
{
    let mut numbers = Vec::new(alloc);
    for number in 0..count {
        if marks[number as usize] {
            let Ok(()) = numbers.push(number) else {
                return Err(NoMemory);
            };
        }
    }
    Ok(numbers)
}

/// For each declaration, in order, whether a walk of uses, also of none, leads from it to one that is marked. `generic`
/// says which structs are generic. Each declaration is taken up once: it takes time linear in declarations and fields.
pub fn reaching(
    alloc: Global,
    schema: &Schema,
    generic: &[bool],
    marked: &[bool],
) -> Result<Vec<bool>, NoMemory>
    requires generic_count { length generic.now ≡ length schema.now }
    requires generic { (number : ℕ) → number < length schema.now
        → slice_get generic.now number ≡ Some (is_generic schema.now number) }
    requires marked_count { length marked.now ≡ length schema.now }
    ensures count { IfOk result (λ marks. length marks.items ≡ length schema.now) }
    ensures each { IfOk result (λ marks. (number : ℕ) → IsMarked marks.items number
        ↔ ReachesMarked schema.now marked.now number) }
{
    let users = match Users::of(alloc, schema, generic) {
        Ok(users) => users,
        Err(fault) => return Err(fault),
    };
    let Ok(mut marks) = Vec::from_slice(alloc, marked) else {
        return Err(NoMemory);
    };
    let mut waiting = match numbers_of(alloc, schema.count(), marked) {
        Ok(numbers) => numbers,
        Err(fault) => return Err(fault),
    };
    while let Some(used) = waiting.pop() {
        match users.mark(used, &mut marks, &mut waiting) {
            Ok(()) => (),
            Err(fault) => return Err(fault),
        }
    }
    Ok(marks)
}
