//! Ways from a root down to a type, with a table of the fields on them.
ghost use Rattle.std.specs.Prelude.{◌≡◌, ℕ, ◌<◌, ◌↔◌, List, [], ◌∷◌, ◌++◌, map, length, Contains, IfOk, None, Some, IsTrue};
ghost use Rattle.nif_schema.specs.Declaration as plain;
ghost use Rattle.nif_schema.specs.Declaration.{field};
ghost use Rattle.nif_schema.specs.Schema.{parent};
ghost use Rattle.nif_schema.specs.Reasons as spec;
ghost use Rattle.nif_paths.specs.Marks.{IsLine};
ghost use Rattle.nif_paths.specs.Shaped.{AreMarks, AreInsides};
ghost use Rattle.nif_reasons.specs.Ways.{IsAt, AddsFields, last_or, own_reason_on};

use crate::fields::field_reason;
use nif_base::NoMemory;
use nif_names::Names;
use nif_paths::Line;
use nif_schema::{Closed, Field, Fields, Schema};
use std::alloc::Global;

/// A way from a root down to a type, with a line of the fields on it. After want of memory it isn't to be used again.
#[derive(Drop)]
pub struct Way {
    pub stack: Vec<u32>,
    pub line: Line,
}

/// The first of a reason so far and that of a field.
fn next_reason(
    alloc: Global,
    schema: &Schema,
    generic: &[bool],
    in_struct: bool,
    tables: &[Names],
    line: &mut Line,
    so_far: Option<Closed>,
    of: &Field,
) -> Result<Option<Closed>, NoMemory>
    requires marks { AreMarks schema.now generic.now }
    requires insides { AreInsides schema.now tables.now }
    ensures { IfOk result (λ reason. (fields : List plain.Field) → IsLine schema.now fields line.old
        → (reason ≡ spec.first_reason (so_far ∷ spec.field_reason schema.now in_struct fields (field of.now) ∷ []))
        × IsLine schema.now fields line.new) }
{
    if so_far.is_some() {
        return Ok(so_far);
    }
    field_reason(alloc, schema, generic, in_struct, tables, line, of)
}

/// Puts fields behind those of a line, and answers the first of a reason so far and those that they give.
fn add_fields(
    alloc: Global,
    schema: &Schema,
    generic: &[bool],
    in_struct: bool,
    tables: &[Names],
    line: &mut Line,
    so_far: Option<Closed>,
    fields: &Fields,
) -> Result<Option<Closed>, NoMemory>
    requires marks { AreMarks schema.now generic.now }
    requires insides { AreInsides schema.now tables.now }
    ensures { IfOk result (AddsFields schema.now in_struct so_far (map field fields.now) line.old line.new) }
{
    let mut reason = so_far;
    for place in 0..fields.len() {
        let of = fields.get(place);
        reason = match next_reason(alloc, schema, generic, in_struct, tables, line, reason, of) {
            Ok(reason) => reason,
            Err(fault) => return Err(fault),
        };
        let Ok(()) = line.push(schema, generic, of) else {
            return Err(NoMemory);
        };
    }
    Ok(reason)
}

/// Takes fields off the end of a line.
fn drop_fields(schema: &Schema, line: &mut Line, fields: &Fields)
    ensures { (earlier : List plain.Field) → IsLine schema.now (earlier ++ map field fields.now) line.old
        → IsLine schema.now earlier line.new }
{
    let mut left = fields.len();
    while left > 0 {
        left -= 1;
        line.pop(schema, fields.get(left));
    }
}

/// Goes down to a child of the last type, or to a root from an empty way, and answers the first of a reason so far and
/// those that its own fields give.
pub fn enter(
    alloc: Global,
    schema: &Schema,
    generic: &[bool],
    tables: &[Names],
    way: &mut Way,
    so_far: Option<Closed>,
    number: u32,
) -> Result<Option<Closed>, NoMemory>
    requires marks { AreMarks schema.now generic.now }
    requires insides { AreInsides schema.now tables.now }
    requires at { IsAt schema.now way.old.stack.items way.old.line }
    requires within { number < length schema.now }
    requires child { parent schema.now number ≡ last_or None way.old.stack.items }
    ensures at { IfOk result (λ reason. IsAt schema.now way.new.stack.items way.new.line) }
    ensures way { IfOk result (λ reason. way.new.stack.items ≡ way.old.stack.items ++ number ∷ []) }
    ensures reason { IfOk result (λ reason. reason ≡ own_reason_on schema.now way.old.stack.items so_far number) }
{
    let decl = schema.decl(number);
    let in_struct = decl.what.is_struct();
    let reason = match add_fields(
        alloc,
        schema,
        generic,
        in_struct,
        tables,
        &mut way.line,
        so_far,
        &decl.fields,
    ) {
        Ok(reason) => reason,
        Err(fault) => return Err(fault),
    };
    let Ok(()) = way.stack.push(number) else {
        return Err(NoMemory);
    };
    Ok(reason)
}

/// Goes up from the last type of a way, if it isn't empty.
fn leave(schema: &Schema, way: &mut Way)
    requires { IsAt schema.now way.old.stack.items way.old.line }
    ensures at { IsAt schema.now way.new.stack.items way.new.line }
    ensures shorter { (last : ℕ) → last_or None way.old.stack.items ≡ Some last
        → way.old.stack.items ≡ way.new.stack.items ++ last ∷ [] }
{
    let Some(number) = way.stack.pop() else {
        return;
    };
    drop_fields(schema, &mut way.line, &schema.decl(number).fields);
}

/// Whether a way ends in this type, or is empty where there is none.
fn is_last(way: &Way, parent: Option<u32>) -> bool
    ensures { IsTrue result ↔ (parent ≡ last_or None way.now.stack.items) }
{
    let Some(top) = way.stack.last() else {
        return parent.is_none();
    };
    match parent {
        Some(parent) => *top == parent,
        None => false,
    }
}

/// Goes up to the parent of a type that may come next, or to the start where it has none. There the line begins anew.
pub fn back_to(alloc: Global, schema: &Schema, way: &mut Way, parent: Option<u32>)
    requires at { IsAt schema.now way.old.stack.items way.old.line }
    requires there { (number : ℕ) → parent ≡ Some number → Contains way.old.stack.items number }
    ensures at { IsAt schema.now way.new.stack.items way.new.line }
    ensures last { parent ≡ last_or None way.new.stack.items }
{
    'up: while !is_last(way, parent) {
        leave(schema, way);
    }
    if way.stack.is_empty() {
        way.line.clear(alloc);
    }
}
