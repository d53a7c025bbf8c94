//! What expressions are behind the members that were read.
ghost use Rattle.std.specs.Prelude.{◌≡◌, ◌^◌, ◌<◌, true};
ghost use Rattle.nif_base.specs.Node.{Members};
ghost use Rattle.nif_schema.specs.Declaration.{field, formula};
ghost use Rattle.nif_layout.specs.Form.{form_of, width_at};
ghost use Rattle.nif_layout.specs.PathValue.{extended, path_value};
ghost use Rattle.nif_layout.specs.Present.{present, formula_value};
ghost use Rattle.nif_scope.specs.Scope.{IsSetting, IsField, IsKnown, Tells, asks, context_in, earlier, kind_of, form_of_size, width_of};
ghost use Rattle.nif_scope.specs.declared.entries.Entry.TheVariants as entry;

use crate::entries::Entry;
use crate::forms::{Kind, Size};
use crate::numbers::extended;
use crate::paths::path_told;
use crate::presence::present;
use crate::settings::Setting;
use crate::shapes::{kind_at, size_at};
use crate::values::formula_at;
use crate::widths::{asks, row_at};
use nif_schema::{Field, Formula, Path};

/// The value of a path, or none. In an open type each path has one.
pub fn path_value(at: &Setting<'_>, entries: &[Entry], path: &Path) -> Option<u64>
    requires { IsSetting at.now }
    ensures { (members : Members) → Tells at.now entries.now members
        → result ≡ path_value at.now.schema.now (context_in at.now) (earlier at.now members) path.now }
{
    path_told(at, entries, path)
}

/// The value of an attribute.
pub fn formula_value(at: &Setting<'_>, entries: &[Entry], of: &Formula) -> u64
    requires { IsSetting at.now }
    ensures { (members : Members) → Tells at.now entries.now members
        → result ≡ formula_value at.now.schema.now (context_in at.now) (earlier at.now members) at.now.arg
        (formula of.now) }
{
    formula_at(at, entries, of)
}

/// Whether a field is present behind the members that were read.
pub fn is_present(at: &Setting<'_>, entries: &[Entry], of: &Field) -> bool
    requires setting { IsSetting at.now }
    requires field { IsField at.now (field of.now) }
    ensures { (members : Members) → Tells at.now entries.now members
        → result ≡ present at.now.schema.now (context_in at.now) at.now.arg (earlier at.now members) (field of.now) }
{
    present(at, entries, of)
}

/// What the value of a field is behind the members that were read: what one value is, and how many there are.
pub fn form_of(at: &Setting<'_>, entries: &[Entry], of: &Field) -> (Kind, Size)
    requires setting { IsSetting at.now }
    requires field { IsField at.now (field of.now) }
    ensures known { IsKnown at.now.schema.now result.0 }
    ensures form { (members : Members) → Tells at.now entries.now members
        → form_of at.now.schema.now (context_in at.now) at.now.template at.now.arg (earlier at.now members)
        (field of.now)
        ≡ form_of_size (kind_of at.now.schema.now result.0) (width_of (width_at at.now.schema.now (context_in at.now) (earlier at.now members) at.now.arg) (field of.now).width) result.1 }
{
    let kind = kind_at(at, entries, of);
    (kind, size_at(at, entries, of))
}

/// The length of a row of a row of rows, 0 where the field has no `width`.
pub fn width_at(at: &Setting<'_>, entries: &[Entry], of: &Field, row: u64) -> u64
    requires setting { IsSetting at.now }
    requires field { IsField at.now (field of.now) }
    ensures { (members : Members) → Tells at.now entries.now members
        → result ≡ width_of (width_at at.now.schema.now (context_in at.now) (earlier at.now members) at.now.arg)
        (field of.now).width row }
{
    row_at(at, entries, of, row)
}

/// Whether the items of an array of this field are asked for: the `width` of a field of the line is its bare name.
pub fn asks_items(at: &Setting<'_>, of: &Field) -> bool
    requires { IsSetting at.now }
    ensures { result ≡ asks at.now.schema.now at.now.number (field of.now) }
{
    asks(at, of)
}

/// What is kept of a number of `width` bytes.
pub fn number(width: u8, bits: u64) -> Entry
    requires { bits < 256 ^ width }
    ensures { result ≡ entry.Number bits (extended true width bits) }
{
    Entry::Number {
        bits,
        signed: extended(width, bits),
    }
}
