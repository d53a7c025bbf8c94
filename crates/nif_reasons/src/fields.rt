//! Why a field closes a type.
ghost use Rattle.std.specs.Prelude.{◌≡◌, ◌||◌, List, IfOk};
ghost use Rattle.nif_schema.specs.Declaration as plain;
ghost use Rattle.nif_schema.specs.Declaration.{field};
ghost use Rattle.nif_schema.specs.Reasons as spec;
ghost use Rattle.nif_reasons.specs.FieldReasons.{plain_reason, condition_reason, size_reason};
ghost use Rattle.nif_paths.specs.Marks.{Gives, IsLine};
ghost use Rattle.nif_paths.specs.Shaped.{AreMarks, AreInsides};

use crate::formulas::{formula_reason, width_reason};
use nif_base::{NoMemory, Word};
use nif_names::Names;
use nif_paths::Line;
use nif_schema::{Bound, Closed, Exact, Field, Schema};
use nif_uses::{is_own_template, named};
use std::alloc::Global;

fn kind_reason(schema: &Schema, in_struct: bool, of: &Field) -> Option<Closed>
    ensures { result ≡ spec.kind_reason schema.now in_struct (field of.now) }
{
    if in_struct && is_own_template(&of.kind) {
        return None;
    }
    let Some(number) = named(schema, &of.kind) else {
        return Some(Closed::C1);
    };
    if schema.decl(number).what.is_block() {
        return Some(Closed::C1);
    }
    None
}

fn generic_template_reason(
    schema: &Schema,
    generic: &[bool],
    in_struct: bool,
    template: &Option<Word>,
) -> Option<Closed>
    requires { AreMarks schema.now generic.now }
    ensures { result ≡ spec.generic_template_reason schema.now in_struct template.now }
{
    let Some(name) = template else {
        return Some(Closed::C7);
    };
    if in_struct && is_own_template(name) {
        return None;
    }
    let Some(number) = named(schema, name) else {
        return Some(Closed::C8);
    };
    if generic[number as usize] {
        return Some(Closed::C8);
    }
    None
}

fn reference_template_reason(
    schema: &Schema,
    in_struct: bool,
    template: &Option<Word>,
) -> Option<Closed>
    ensures { result ≡ spec.reference_template_reason schema.now in_struct template.now }
{
    let Some(name) = template else {
        return None;
    };
    if in_struct && is_own_template(name) {
        return None;
    }
    let Some(number) = named(schema, name) else {
        return Some(Closed::C8);
    };
    if schema.decl(number).what.is_block() {
        return None;
    }
    Some(Closed::C8)
}

fn template_reason(schema: &Schema, generic: &[bool], in_struct: bool, of: &Field) -> Option<Closed>
    requires { AreMarks schema.now generic.now }
    ensures { result ≡ spec.template_reason schema.now in_struct (field of.now) }
{
    let number = named(schema, &of.kind)?;
    if generic[number as usize] {
        return generic_template_reason(schema, generic, in_struct, &of.template);
    }
    if schema.decl(number).what.is_reference() {
        return reference_template_reason(schema, in_struct, &of.template);
    }
    None
}

fn is_bad_bound(bound: &Option<Bound>) -> bool
    ensures { result ≡ spec.is_bad_bound bound.now }
{
    matches!(bound, Some(Bound::Bad))
}

fn is_bad_exact(exact: &Option<Exact>) -> bool
    ensures { result ≡ spec.is_bad_exact exact.now }
{
    matches!(exact, Some(Exact::Bad))
}

fn is_no_block(schema: &Schema, block: &Option<Word>) -> bool
    ensures { result ≡ spec.is_no_block schema.now block.now }
{
    let Some(name) = block else {
        return false;
    };
    match schema.find(name.bytes()) {
        Some(number) => !schema.decl(number).what.is_block(),
        None => true,
    }
}

fn has_bad_bound(of: &Field) -> bool
    ensures { result ≡ spec.is_bad_bound of.now.since || spec.is_bad_bound of.now.until }
{
    is_bad_bound(&of.since) || is_bad_bound(&of.until)
}

fn has_no_block(schema: &Schema, of: &Field) -> bool
    ensures { result ≡ spec.is_no_block schema.now of.now.only || spec.is_no_block schema.now of.now.exclude }
{
    is_no_block(schema, &of.only) || is_no_block(schema, &of.exclude)
}

fn has_bad_exact(of: &Field) -> bool
    ensures { result ≡ spec.is_bad_exact of.now.user || spec.is_bad_exact of.now.bs }
{
    is_bad_exact(&of.user) || is_bad_exact(&of.bs)
}

/// Why a field closes a type by what isn't an expression.
fn plain_reason(schema: &Schema, generic: &[bool], in_struct: bool, of: &Field) -> Option<Closed>
    requires { AreMarks schema.now generic.now }
    ensures { result ≡ plain_reason schema.now in_struct (field of.now) }
{
    let by_kind = kind_reason(schema, in_struct, of);
    if by_kind.is_some() {
        return by_kind;
    }
    let by_template = template_reason(schema, generic, in_struct, of);
    if by_template.is_some() {
        return by_template;
    }
    if has_bad_bound(of) {
        return Some(Closed::C11);
    }
    if has_no_block(schema, of) {
        return Some(Closed::C12);
    }
    if has_bad_exact(of) {
        return Some(Closed::C4);
    }
    None
}

/// Why one of the conditions of a field closes a type.
fn condition_reason(
    alloc: Global,
    tables: &[Names],
    line: &mut Line,
    of: &Field,
) -> Result<Option<Closed>, NoMemory>
    ensures { IfOk result (Gives (λ schema fields. condition_reason schema fields
        (field of.now)) tables.now line.old line.new) }
{
    match formula_reason(alloc, tables, line, &of.vercond) {
        Ok(None) => formula_reason(alloc, tables, line, &of.cond),
        Ok(Some(reason)) => Ok(Some(reason)),
        Err(fault) => Err(fault),
    }
}

/// Why the argument, length or width of a field closes a type.
fn size_reason(
    alloc: Global,
    tables: &[Names],
    line: &mut Line,
    of: &Field,
) -> Result<Option<Closed>, NoMemory>
    ensures { IfOk result (Gives (λ schema fields. size_reason schema fields
        (field of.now)) tables.now line.old line.new) }
{
    match formula_reason(alloc, tables, line, &of.arg) {
        Ok(None) => {}
        Ok(Some(reason)) => return Ok(Some(reason)),
        Err(fault) => return Err(fault),
    }
    if of.length.is_none() {
        return Ok(None);
    }
    match formula_reason(alloc, tables, line, &of.length) {
        Ok(None) => width_reason(alloc, tables, line, &of.width),
        Ok(Some(reason)) => Ok(Some(reason)),
        Err(fault) => Err(fault),
    }
}

/// Why a field closes a type, behind the fields of a line.
pub fn field_reason(
    alloc: Global,
    schema: &Schema,
    generic: &[bool],
    in_struct: bool,
    tables: &[Names],
    line: &mut Line,
    of: &Field,
) -> Result<Option<Closed>, NoMemory>
    requires marks { AreMarks schema.now generic.now }
    requires insides { AreInsides schema.now tables.now }
    ensures { IfOk result (λ reason. (fields : List plain.Field) → IsLine schema.now fields line.old
        → (reason ≡ spec.field_reason schema.now in_struct fields (field of.now)) × IsLine schema.now fields line.new) }
{
    let reason = plain_reason(schema, generic, in_struct, of);
    if reason.is_some() {
        return Ok(reason);
    }
    match condition_reason(alloc, tables, line, of) {
        Ok(None) => size_reason(alloc, tables, line, of),
        Ok(Some(reason)) => Ok(Some(reason)),
        Err(fault) => Err(fault),
    }
}
