//! Why types are closed.
ghost use Rattle.std.specs.Prelude.{◌≡◌, ℕ, ◌<◌, length, slice_get, Some, IfOk, is_some, Option, Bool};
ghost use Rattle.nif_schema.specs.declared.faults.Closed.{Closed};
ghost use Rattle.nif_schema.specs.Uses.{is_generic};
ghost use Rattle.nif_schema.specs.Reasons.{own_reason};
ghost use Rattle.nif_check.specs.Results.{with_uses};
ghost use Rattle.nif_schema.specs.Reasons.{AreReasons};

use nif_base::NoMemory;
use nif_reasons::own_reasons;
use nif_schema::{Closed, Schema};
use nif_uses::reaching;
use std::alloc::Global;

/// Marks each declaration that has a reason of its own.
fn marks_of(alloc: Global, own: &[Option<Closed>]) -> Result<Vec<bool>, NoMemory>
    ensures count { IfOk result (λ marks. length marks.items ≡ length own.now) }
    ensures each { IfOk result (λ marks. (number : ℕ) (reason : Option Closed) → slice_get own.now number ≡ Some reason
        → slice_get marks.items number ≡ Some (is_some reason)) }
{
    let mut marks = Vec::new(alloc);
    for reason in own {
        let Ok(()) = marks.push(reason.is_some()) else {
            return Err(NoMemory);
        };
    }
    Ok(marks)
}

fn with_uses(own: Option<Closed>, reaches: bool) -> Option<Closed>
    ensures { result ≡ with_uses own reaches }
{
    match own {
        Some(reason) => Some(reason),
        None => if reaches { Some(Closed::C0) } else { None },
    }
}

/// The reasons, from the own ones and from what reaches them.
fn joined(
    alloc: Global,
    own: &[Option<Closed>],
    reaches: &[bool],
) -> Result<Vec<Option<Closed>>, NoMemory>
    requires { length reaches.now ≡ length own.now }
    ensures count { IfOk result (λ reasons. length reasons.items ≡ length own.now) }
    ensures each { IfOk result (λ reasons. (number : ℕ) (reason : Option Closed) (mark : Bool)
        → slice_get own.now number ≡ Some reason → slice_get reaches.now number ≡ Some mark
        → slice_get reasons.items number ≡ Some (with_uses reason mark)) }
{
    let mut reasons = Vec::new(alloc);
    for place in 0..own.len() {
        let Ok(()) = reasons.push(with_uses(own[place], reaches[place])) else {
            return Err(NoMemory);
        };
    }
    Ok(reasons)
}

/// Why each declaration is closed, in order. `generic` says which structs are generic.
pub(crate) fn reasons_of(
    alloc: Global,
    schema: &Schema,
    generic: &[bool],
) -> Result<Vec<Option<Closed>>, NoMemory>
    requires generic_count { length generic.now ≡ length schema.now }
    requires generic { (number : ℕ) → number < length schema.now
        → slice_get generic.now number ≡ Some (is_generic schema.now number) }
    ensures { IfOk result (λ reasons. AreReasons schema.now reasons.items) }
{
    let own = match own_reasons(alloc, schema) {
        Ok(own) => own,
        Err(fault) => return Err(fault),
    };
    let marks = match marks_of(alloc, &own) {
        Ok(marks) => marks,
        Err(fault) => return Err(fault),
    };
    let reaches = match reaching(alloc, schema, generic, &marks) {
        Ok(reaches) => reaches,
        Err(fault) => return Err(fault),
    };
    match joined(alloc, &own, &reaches) {
        Ok(reasons) => Ok(reasons),
        Err(fault) => Err(fault),
    }
}
