//! The rules that the header and the footer must keep.
ghost use Rattle.std.specs.Prelude.{◌≡◌, ℕ, ◌<◌, ◌↔◌, Bool, codes, length, map, slice_get, Some, IsTrue, IfOk, IfErr, MatchOption};
ghost use Rattle.nif_schema.specs.Declaration.{field};
ghost use Rattle.nif_schema.specs.Schema.{find};
ghost use Rattle.nif_schema.specs.Uses.{is_generic, what_at};
ghost use Rattle.nif_schema.specs.declared.decls.What.{What};
ghost use Rattle.nif_schema.specs.Roles.{refers, header_fields, IsRoot, HasRoots, RefersNowhere, Roles, RoleFault};
ghost use Rattle.nif_check.specs.Results.{FieldRules, IsFault};
ghost use Rattle.nif_schema.specs.Reasons.{AreReasons};

use nif_base::NoMemory;
use nif_roles::{
    has_count, has_independent_fields, has_line, has_lists, has_sized_strings, has_user_versions,
    has_version,
};
use nif_schema::{Closed, Fields, Leaf, Schema, SchemaFault, What};
use nif_uses::reaching;
use std::alloc::Global;

/// The numbers of the header and the footer.
#[derive(Drop)]
pub(crate) struct Roots {
    pub(crate) header: u32,
    pub(crate) footer: u32,
}

/// The number of the struct of a name that takes no template and is open.
fn root(schema: &Schema, generic: &[bool], reasons: &[Option<Closed>], name: &[u8]) -> Option<u32>
    requires generic_count { length generic.now ≡ length schema.now }
    requires generic { (number : ℕ) → number < length schema.now
        → slice_get generic.now number ≡ Some (is_generic schema.now number) }
    requires reasons { AreReasons schema.now reasons.now }
    ensures { MatchOption result ((number : ℕ) → IsRoot schema.now name.now number → ⊥) (IsRoot schema.now name.now) }
{
    let number = schema.find(name)?;
    if !schema.decl(number).what.is_struct() {
        return None;
    }
    if generic[number as usize] {
        return None;
    }
    if reasons[number as usize].is_some() {
        return None;
    }
    Some(number)
}

/// The first of the rules 2 to 8 that fails.
fn field_fault(schema: &Schema, generic: &[bool], fields: &Fields) -> Option<u8>
    requires generic_count { length generic.now ≡ length schema.now }
    requires generic { (number : ℕ) → number < length schema.now
        → slice_get generic.now number ≡ Some (is_generic schema.now number) }
    requires fields { map field fields.now ≡ header_fields schema.now }
    ensures { MatchOption result (FieldRules schema.now (header_fields schema.now))
        (λ rule. HasRoots schema.now → RoleFault schema.now rule) }
{
    if !has_line(schema, fields) {
        return Some(2);
    }
    if !has_version(schema, fields) {
        return Some(3);
    }
    if !has_count(schema, fields) {
        return Some(4);
    }
    if !has_user_versions(schema, generic, fields) {
        return Some(5);
    }
    if !has_lists(schema, fields) {
        return Some(6);
    }
    if !has_sized_strings(schema, fields) {
        return Some(7);
    }
    if !has_independent_fields(fields) {
        return Some(8);
    }
    None
}

fn refers(what: &What) -> bool
    ensures { result ≡ refers what.now }
{
    matches!(
        what,
        What::Basic {
            leaf: Leaf::Ref | Leaf::Ptr | Leaf::Text
        }
    )
}

/// Marks each basic that refers to a block or to a string of the header.
fn references(alloc: Global, schema: &Schema) -> Result<Vec<bool>, NoMemory>
    ensures count { IfOk result (λ marks. length marks.items ≡ length schema.now) }
    ensures each { IfOk result (λ marks. (number : ℕ) (what : What) → what_at schema.now number ≡ Some what
        → slice_get marks.items number ≡ Some (refers what)) }
{
    let mut marks = Vec::new(alloc);
    for number in 0..schema.count() {
        let Ok(()) = marks.push(refers(&schema.decl(number).what)) else {
            return Err(NoMemory);
        };
    }
    Ok(marks)
}

/// Rule 9: no walk of uses leads from Header to a basic that refers.
fn refers_nowhere(
    alloc: Global,
    schema: &Schema,
    generic: &[bool],
    header: u32,
) -> Result<bool, NoMemory>
    requires header { find schema.now (codes "Header") ≡ Some header }
    requires within { header < length schema.now }
    requires generic_count { length generic.now ≡ length schema.now }
    requires generic { (number : ℕ) → number < length schema.now
        → slice_get generic.now number ≡ Some (is_generic schema.now number) }
    ensures { IfOk result (λ holds. IsTrue holds ↔ RefersNowhere schema.now) }
{
    let marks = match references(alloc, schema) {
        Ok(marks) => marks,
        Err(fault) => return Err(fault),
    };
    let reaches = match reaching(alloc, schema, generic, &marks) {
        Ok(reaches) => reaches,
        Err(fault) => return Err(fault),
    };
    Ok(!reaches[header as usize])
}

/// The header and the footer of a schema that keeps all rules, or the first rule that it breaks.
pub(crate) fn roots_of(
    alloc: Global,
    schema: &Schema,
    generic: &[bool],
    reasons: &[Option<Closed>],
) -> Result<Roots, SchemaFault>
    requires generic_count { length generic.now ≡ length schema.now }
    requires generic { (number : ℕ) → number < length schema.now
        → slice_get generic.now number ≡ Some (is_generic schema.now number) }
    requires reasons { AreReasons schema.now reasons.now }
    ensures roles { IfOk result (λ roots. Roles schema.now) }
    ensures header { IfOk result (λ roots. find schema.now (codes "Header") ≡ Some roots.header) }
    ensures footer { IfOk result (λ roots. find schema.now (codes "Footer") ≡ Some roots.footer) }
    ensures fault { IfErr result (IsFault schema.now) }
{
    let Some(header) = root(schema, generic, reasons, b"Header".as_slice()) else {
        return Err(SchemaFault::HeaderRole { rule: 1 });
    };
    let Some(footer) = root(schema, generic, reasons, b"Footer".as_slice()) else {
        return Err(SchemaFault::HeaderRole { rule: 1 });
    };
    if let Some(rule) = field_fault(schema, generic, &schema.decl(header).fields) {
        return Err(SchemaFault::HeaderRole { rule });
    }
    match refers_nowhere(alloc, schema, generic, header) {
        Ok(true) => Ok(Roots { header, footer }),
        Ok(false) => Err(SchemaFault::HeaderRole { rule: 9 }),
        Err(NoMemory) => Err(SchemaFault::NoMemory),
    }
}
