//! The own reasons of all types.
ghost use Rattle.std.specs.Prelude.{◌≡◌, ℕ, ◌<◌, ◌+◌, ◌*◌, [], length, IfOk, None, Some, slice_get, nat_lt};
ghost use Rattle.std.specs.List.{list_any};
ghost use Rattle.nif_schema.specs.Reasons as spec;
ghost use Rattle.nif_schema.specs.Schema.{parent};
ghost use Rattle.nif_schema.specs.declared.faults.Closed.TheVariants.{C3};
ghost use Rattle.nif_paths.specs.Shaped.{AreMarks, AreInsides};
ghost use Rattle.nif_reasons.specs.FieldReasons.{type_reason, early_reason, AreOwnReasons};
ghost use Rattle.nif_reasons.specs.Visits.{AreVisits, IsNext, IsRooted};
ghost use Rattle.nif_reasons.specs.Ways.{IsAt, IsWayFrom, last_or};

use crate::visits::visits;
use crate::ways::{Way, back_to, enter};
use nif_base::NoMemory;
use nif_names::Names;
use nif_paths::{Line, inside_tables, storage_width};
use nif_schema::{BitMember, BitMembers, Closed, Leaf, Schema, What};
use nif_uses::generic_structs;
use std::alloc::Global;

fn is_past(width: u8, pos: u8, bits: u8) -> bool
    ensures { result ≡ nat_lt (8 * width) (pos + bits) }
{
    8 * u32::from(width) < u32::from(pos) + u32::from(bits)
}

fn is_bad_member(width: u8, member: &BitMember) -> bool
    ensures { result ≡ spec.is_bad_member width member.now }
{
    member.bad || is_past(width, member.pos, member.width)
}

fn has_bad_member(width: u8, members: &BitMembers) -> bool
    ensures { result ≡ list_any (spec.is_bad_member width) members.now }
{
    for place in 0..members.len() {
        if is_bad_member(width, members.get(place)) {
            return true;
        }
    }
    false
}

/// Why a type closes itself by how it is stored.
fn type_reason(schema: &Schema, what: &What) -> Option<Closed>
    ensures { result ≡ type_reason schema.now what.now }
{
    match what {
        What::Basic { leaf } => match leaf {
            Leaf::Unread => Some(Closed::C10),
            _ => None,
        },
        What::Stored { storage, members } => {
            let Some(width) = storage_width(schema, storage) else {
                return Some(Closed::C10);
            };
            if has_bad_member(width, members) {
                return Some(Closed::C13);
            }
            None
        }
        _ => None,
    }
}

/// Whether a declaration inherits from a name that is no declared block type.
fn lacks_parent(schema: &Schema, number: u32) -> bool
    requires { number < length schema.now }
    ensures { result ≡ spec.lacks_parent schema.now number }
{
    let Some(_) = schema.decl(number).what.parent_name() else {
        return false;
    };
    match schema.parent(number) {
        Some(_) => false,
        None => true,
    }
}

/// Why a type closes itself by other than its fields, which is behind a way. Of the types on a way only the first may
/// lack its parent.
fn early_reason(schema: &Schema, way: &[u32], number: u32) -> Option<Closed>
    requires rooted { IsRooted schema.now number }
    requires way { IsWayFrom schema.now None way.now }
    requires child { parent schema.now number ≡ last_or None way.now }
    ensures { result ≡ early_reason schema.now number }
{
    match way.first() {
        Some(root) => {
            if lacks_parent(schema, *root) {
                return Some(Closed::C0);
            }
        }
        None => {
            if lacks_parent(schema, number) {
                return Some(Closed::C2);
            }
        }
    }
    type_reason(schema, &schema.decl(number).what)
}

/// The own reason of a type that may come next behind the last of a way, which then ends in it.
fn own_reason(
    alloc: Global,
    schema: &Schema,
    generic: &[bool],
    tables: &[Names],
    way: &mut Way,
    number: u32,
) -> Result<Option<Closed>, NoMemory>
    requires marks { AreMarks schema.now generic.now }
    requires insides { AreInsides schema.now tables.now }
    requires at { IsAt schema.now way.old.stack.items way.old.line }
    requires rooted { IsRooted schema.now number }
    requires next { IsNext schema.now (last_or None way.old.stack.items) number }
    ensures at { IfOk result (λ reason. IsAt schema.now way.new.stack.items way.new.line) }
    ensures last { IfOk result (λ reason. last_or None way.new.stack.items ≡ Some number) }
    ensures reason { IfOk result (λ reason. reason ≡ spec.own_reason schema.now number) }
{
    back_to(alloc, schema, way, schema.parent(number));
    let early = early_reason(schema, way.stack.as_slice(), number);
    enter(alloc, schema, generic, tables, way, early, number)
}

/// The reason of each type, where the walk of parents ends from none.
fn endless(alloc: Global, schema: &Schema) -> Result<Vec<Option<Closed>>, NoMemory>
    ensures count { IfOk result (λ reasons. length reasons.items ≡ length schema.now) }
    ensures each { IfOk result (λ reasons. (number : ℕ) → number < length schema.now
        → slice_get reasons.items number ≡ Some (Some C3)) }
{
    let mut reasons = Vec::new(alloc);
    for _number in 0..schema.count() {
        let Ok(()) = reasons.push(Some(Closed::C3)) else {
            return Err(NoMemory);
        };
    }
    Ok(reasons)
}

/// The own reasons of all types, by a way that goes along an order.
fn reasons_along(
    alloc: Global,
    schema: &Schema,
    generic: &[bool],
    tables: &[Names],
    way: &mut Way,
    order: &[u32],
) -> Result<Vec<Option<Closed>>, NoMemory>
    requires marks { AreMarks schema.now generic.now }
    requires insides { AreInsides schema.now tables.now }
    requires order { AreVisits schema.now order.now }
    requires at { IsAt schema.now way.old.stack.items way.old.line }
    requires start { way.old.stack.items ≡ [] }
    ensures { IfOk result (λ reasons. AreOwnReasons schema.now reasons.items) }
{
    let mut reasons = match endless(alloc, schema) {
        Ok(reasons) => reasons,
        Err(fault) => return Err(fault),
    };
    for number in order {
        let number = *number;
        let reason = match own_reason(alloc, schema, generic, tables, way, number) {
            Ok(reason) => reason,
            Err(fault) => return Err(fault),
        };
        reasons[number as usize] = reason;
    }
    Ok(reasons)
}

/// The own reasons of all types.
fn all_reasons(
    alloc: Global,
    schema: &Schema,
    generic: &[bool],
    tables: &[Names],
    order: &[u32],
) -> Result<Vec<Option<Closed>>, NoMemory>
    requires marks { AreMarks schema.now generic.now }
    requires insides { AreInsides schema.now tables.now }
    requires order { AreVisits schema.now order.now }
    ensures { IfOk result (λ reasons. AreOwnReasons schema.now reasons.items) }
{
    let mut way = Way {
        stack: Vec::new(alloc),
        line: Line::new(alloc),
    };
    reasons_along(alloc, schema, generic, tables, &mut way, order)
}

/// For each declaration, in order, its own reason: the first that closes it, whatever the types that it uses; or
/// nothing. It takes near-linear time in declarations, fields and expressions, and in what paths of several names
/// look at: on a line, each different second name of a path looks once at each type of its first name; for more names,
/// each different name looks once at each set of types that paths lead to.
pub fn own_reasons(alloc: Global, schema: &Schema) -> Result<Vec<Option<Closed>>, NoMemory>
    ensures count { IfOk result (λ reasons. length reasons.items ≡ length schema.now) }
    ensures each { IfOk result (λ reasons. (number : ℕ) → number < length schema.now
        → slice_get reasons.items number ≡ Some (spec.own_reason schema.now number)) }
{
    let generic = match generic_structs(alloc, schema) {
        Ok(generic) => generic,
        Err(fault) => return Err(fault),
    };
    let tables = match inside_tables(alloc, schema, generic.as_slice()) {
        Ok(tables) => tables,
        Err(fault) => return Err(fault),
    };
    let order = match visits(alloc, schema) {
        Ok(order) => order,
        Err(fault) => return Err(fault),
    };
    all_reasons(
        alloc,
        schema,
        generic.as_slice(),
        tables.as_slice(),
        order.as_slice(),
    )
}
