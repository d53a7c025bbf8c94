//! Structs that take a template.
ghost use Rattle.std.specs.Prelude.{◌≡◌, ℕ, ◌<◌, ◌&&◌, length, map, slice_get, Some, IfOk};
ghost use Rattle.std.specs.Option.{option_map_or};
ghost use Rattle.std.specs.List.{list_any};
ghost use Rattle.nif_schema.specs.Declaration.{declaration, field};
ghost use Rattle.nif_schema.specs.Uses.{is_own_template, is_struct, takes_template, is_generic};

use nif_base::{NoMemory, Word};
use nif_schema::{Decl, Field, Fields, Schema, What};
use std::alloc::Global;

/// Whether a name is `#T#`, which stands for the template of the struct where it is written.
pub fn is_own_template(name: &Word) -> bool
    ensures { result ≡ is_own_template name.now }
{
    name.bytes() == b"#T#".as_slice()
}

fn takes_template(of: &Field) -> bool
    ensures { result ≡ takes_template (field of.now) }
{
    if is_own_template(&of.kind) {
        return true;
    }
    match &of.template {
        Some(template) => is_own_template(template),
        None => false,
    }
}

fn some_take_template(fields: &Fields) -> bool
    ensures { result ≡ list_any takes_template (map field fields.now) }
{
    for place in 0..fields.len() {
        if takes_template(fields.get(place)) {
            return true;
        }
    }
    false
}

fn is_generic_struct(decl: &Decl) -> bool
    ensures { result ≡ is_struct decl.now.what && list_any takes_template (map field decl.now.fields) }
{
    match decl.what {
        What::Struct => some_take_template(&decl.fields),
        _ => false,
    }
}

/// For each declaration, in order, whether it is a generic struct: one with a field whose type or template is `#T#`.
/// It takes time linear in declarations and fields.
pub fn generic_structs(alloc: Global, schema: &Schema) -> Result<Vec<bool>, NoMemory>
    ensures count { IfOk result (λ marks. length marks.items ≡ length schema.now) }
    ensures each { IfOk result (λ marks. (number : ℕ) → number < length schema.now
        → slice_get marks.items number ≡ Some (is_generic schema.now number)) }
{
    let mut marks = Vec::new(alloc);
    for number in 0..schema.count() {
        let Ok(()) = marks.push(is_generic_struct(schema.decl(number))) else {
            return Err(NoMemory);
        };
    }
    Ok(marks)
}
