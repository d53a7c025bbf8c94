//! The lengths of rows of rows.
ghost use Rattle.std.specs.Prelude.{◌≡◌, ◌&&◌, ◌∷◌, [], bytes_eq, option_copied, false};
ghost use Rattle.std.specs.Option.{option_map, option_map_or};
ghost use Rattle.nif_schema.specs.Declaration.{formula, field};
ghost use Rattle.nif_scope.specs.Lookup.{item_value};
ghost use Rattle.nif_scope.specs.Scope.{IsSetting, is_bare, asks, width_of};
ghost use Rattle.nif_scope.specs.Values.{bare_name, array_at, item_at, row_width};

use crate::entries::Entry;
use crate::members::{array_told, last_told};
use crate::numbers::is_signed;
use crate::paths::number_told;
use crate::settings::Setting;
use crate::values::formula_at;
use nif_base::Word;
use nif_schema::{Expr, Field, Formula};

/// The name that an expression is the bare name of.
fn bare_name(of: &Formula) -> Option<&Word>
    ensures { option_copied result ≡ bare_name (formula of.now) }
{
    match of {
        Formula::Read {
            expr: Expr::Path { path },
        } if path.len() == 1 => Some(path.get(0)),
        _ => None,
    }
}

/// The name of the array that a `width` is the bare name of.
#[tactic(auto, using(crate::proofs::OpenLine::open_ends))]
fn array_at<'a>(at: &Setting<'_>, entries: &[Entry], width: &'a Formula) -> Option<&'a Word>
    requires { IsSetting at.now }
    ensures { option_copied result ≡ array_at at.now entries.now (formula width.now) }
{
    let name = bare_name(width)?;
    if array_told(at.schema, at.number, name.bytes(), entries) {
        return Some(name);
    }
    None
}

/// The number of item i of an array whose items are kept, 0 where there is no such item.
fn item_value(is_signed: bool, i: u64, entry: Entry, own: &[Entry]) -> u64
    ensures { result ≡ item_value is_signed i entry own.now }
{
    match entry {
        Entry::Items { .. } => match own.get(i as usize) {
            Some(item) => number_told(is_signed, *item),
            None => 0,
        },
        _ => 0,
    }
}

/// Item i of the last present member of a name, 0 where there is none.
#[tactic(auto, using(crate::proofs::OpenLine::open_ends))]
fn item_at(at: &Setting<'_>, entries: &[Entry], i: u64, name: &[u8]) -> u64
    requires { IsSetting at.now }
    ensures { result ≡ item_at at.now entries.now i name.now }
{
    match last_told(at.schema, at.number, name, entries) {
        Some(member) => item_value(
            is_signed(at.schema, member.field),
            i,
            member.entry,
            member.own,
        ),
        None => 0,
    }
}

/// The length of row i.
fn row_width(at: &Setting<'_>, entries: &[Entry], width: &Formula, i: u64) -> u64
    requires { IsSetting at.now }
    ensures { result ≡ row_width at.now entries.now (formula width.now) i }
{
    match array_at(at, entries, width) {
        Some(name) => item_at(at, entries, i, name.bytes()),
        None => formula_at(at, entries, width),
    }
}

/// The length of row i of a field, 0 where it has no `width`.
pub(crate) fn row_at(at: &Setting<'_>, entries: &[Entry], of: &Field, i: u64) -> u64
    requires { IsSetting at.now }
    ensures { result ≡ width_of (row_width at.now entries.now) (field of.now).width i }
{
    match &of.width {
        Some(width) => row_width(at, entries, width, i),
        None => 0,
    }
}

/// Whether a `width` is the bare name of a field.
fn is_bare(name: &Word, width: &Option<Formula>) -> bool
    ensures { result ≡ option_map_or (is_bare name.now) (option_map formula width.now) false }
{
    let Some(width) = width else {
        return false;
    };
    match bare_name(width) {
        Some(bare) => bare.bytes() == name.bytes(),
        None => false,
    }
}

/// Whether the items of an array are asked for.
#[tactic(auto, using(crate::proofs::OpenLine::open_ends))]
pub(crate) fn asks(at: &Setting<'_>, of: &Field) -> bool
    requires { IsSetting at.now }
    ensures { result ≡ asks at.now.schema.now at.now.number (field of.now) }
{
    let mut found = false;
    for other in at.schema.line_of(at.number) {
        found = found | is_bare(&of.name, &other.width);
    }
    found
}
