//! What the value of a field is.
ghost use Rattle.std.specs.Prelude.{◌≡◌, ◌<◌, ◌&&◌, ℕ, length, bytes_eq, IfSome, option_and_then};
ghost use Rattle.std.specs.Option.{option_map, option_map_or};
ghost use Rattle.std.specs.List.{list_any};
ghost use Rattle.nif_schema.specs.Declaration as plain;
ghost use Rattle.nif_schema.specs.Declaration.{field, formula};
ghost use Rattle.nif_layout.specs.Form as spec;
ghost use Rattle.nif_layout.specs.Kind as kinds;
ghost use Rattle.nif_scope.specs.Scope.{IsSetting, IsField, IsKnown, context_in, kind_of, form_of_size, width_of};
ghost use Rattle.nif_scope.specs.Values.{formula_at};
ghost use Rattle.nif_scope.specs.Rules.{kind_by, is_run_by};

use crate::entries::Entry;
use crate::forms::{Kind, Size};
use crate::kinds::kind_of;
use crate::settings::Setting;
use crate::values::formula_at;
use nif_base::Word;
use nif_schema::{Decl, Field, Formula, Schema, What};
use nif_uses::is_own_template;

/// The declaration that a name of a field names, where `#T#` stands for the template of its struct.
fn replaced(schema: &Schema, template: Option<u32>, name: &Word) -> Option<u32>
    ensures { result ≡ spec.replaced schema.now template name.now }
{
    if is_own_template(name) {
        return template;
    }
    schema.find(name.bytes())
}

/// The declaration that the template of a field names.
fn replaced_template(schema: &Schema, template: Option<u32>, of: &Field) -> Option<u32>
    ensures { result ≡ option_and_then (spec.replaced schema.now template) (field of.now).template }
{
    match &of.template {
        Some(name) => replaced(schema, template, name),
        None => None,
    }
}

/// The argument of a field.
fn arg_of(at: &Setting<'_>, entries: &[Entry], of: &Field) -> u64
    requires { IsSetting at.now }
    ensures { result ≡ option_map_or (formula_at at.now entries.now) (field of.now).arg 0 }
{
    match &of.arg {
        Some(arg) => formula_at(at, entries, arg),
        None => 0,
    }
}

/// What one value of a field is.
pub(crate) fn kind_at(at: &Setting<'_>, entries: &[Entry], of: &Field) -> Kind
    requires setting { IsSetting at.now }
    requires field { IsField at.now (field of.now) }
    ensures value { kind_of at.now.schema.now result
        ≡ kind_by at.now.schema.now (context_in at.now) at.now.template (formula_at at.now entries.now) (field of.now) }
    ensures known { IsKnown at.now.schema.now result }
{
    let template = replaced_template(at.schema, at.template, of);
    let arg = arg_of(at, entries, of);
    match replaced(at.schema, at.template, &of.kind) {
        Some(number) => kind_of(at.schema, at.context, number, template, arg),
        None => unreachable!(),
    }
}

/// Whether an array of a basic of this name is a run of bytes.
fn is_run_name(name: &[u8]) -> bool
    ensures { result ≡ list_any (bytes_eq name.now) spec.run_names }
{
    name == b"byte".as_slice()
        || name == b"sbyte".as_slice()
        || name == b"char".as_slice()
        || name == b"normbyte".as_slice()
}

/// Whether an array of this type is a run of bytes.
fn is_run(schema: &Schema, number: u32) -> bool
    requires { number < length schema.now }
    ensures { result ≡ spec.is_run schema.now number }
{
    let decl = schema.decl(number);
    match decl.what {
        What::Basic { .. } => is_run_name(decl.name.bytes()),
        _ => false,
    }
}

/// Whether an array of the type of a field is a run of bytes.
fn is_run_at(at: &Setting<'_>, of: &Field) -> bool
    requires setting { IsSetting at.now }
    requires field { IsField at.now (field of.now) }
    ensures { result ≡ is_run_by at.now.schema.now at.now.template (field of.now) }
{
    match replaced(at.schema, at.template, &of.kind) {
        Some(number) => is_run(at.schema, number),
        None => false,
    }
}

/// How many values a field has.
pub(crate) fn size_at(at: &Setting<'_>, entries: &[Entry], of: &Field) -> Size
    requires setting { IsSetting at.now }
    requires field { IsField at.now (field of.now) }
    ensures { (kind : kinds.Kind) (width : plain.Formula → ℕ → ℕ)
        → form_of_size kind (width_of width (field of.now).width) result
        ≡ spec.sized (option_map (formula_at at.now entries.now) (field of.now).length) (option_map width (field of.now).width) (is_run_by at.now.schema.now at.now.template (field of.now)) kind }
{
    let Some(length) = &of.length else {
        return Size::One;
    };
    let count = formula_at(at, entries, length);
    let run = is_run_at(at, of);
    match &of.width {
        Some(_) => Size::Rows { count, run },
        None => Size::Array { count, run },
    }
}
