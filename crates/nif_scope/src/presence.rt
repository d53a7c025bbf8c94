//! Which fields are present.
ghost use Rattle.std.specs.Prelude.{◌≡◌, ◌&&◌};
ghost use Rattle.std.specs.Option.{option_map};
ghost use Rattle.nif_schema.specs.Declaration.{field, formula};
ghost use Rattle.nif_layout.specs.Present as spec;
ghost use Rattle.nif_scope.specs.Scope.{IsSetting, context_of, context_in};
ghost use Rattle.nif_scope.specs.Values.{formula_at};
ghost use Rattle.nif_scope.specs.Rules.{holds_by, is_in_versions, is_in_blocks, present_by};

use crate::entries::Entry;
use crate::settings::{Setting, ValueContext};
use crate::values::formula_at;
use nif_base::{Version, Word};
use nif_schema::{Bound, Exact, Field, Formula};

/// Whether the condition is missing, or isn't 0.
fn holds(at: &Setting<'_>, entries: &[Entry], condition: &Option<Formula>) -> bool
    requires { IsSetting at.now }
    ensures { result ≡ holds_by (formula_at at.now entries.now) (option_map formula condition.now) }
{
    match condition {
        Some(of) => formula_at(at, entries, of) != 0,
        None => true,
    }
}

fn is_from(version: Version, since: Option<Bound>) -> bool
    ensures { result ≡ spec.is_from version.number since }
{
    match since {
        Some(Bound::Read { version: first }) => first.number <= version.number,
        Some(Bound::Bad) => false,
        None => true,
    }
}

fn is_up_to(version: Version, until: Option<Bound>) -> bool
    ensures { result ≡ spec.is_up_to version.number until }
{
    match until {
        Some(Bound::Read { version: last }) => version.number <= last.number,
        Some(Bound::Bad) => false,
        None => true,
    }
}

fn is_exactly(number: u32, wanted: Option<Exact>) -> bool
    ensures { result ≡ spec.is_exactly number wanted }
{
    match wanted {
        Some(Exact::Is { value }) => number == value,
        Some(Exact::Bad) => false,
        None => true,
    }
}

/// Whether the versions of the file are among those of the field.
fn is_in_versions(context: &ValueContext, of: &Field) -> bool
    ensures { result ≡ is_in_versions (context_of context.now) (field of.now) }
{
    is_from(context.context.version, of.since)
        && is_up_to(context.context.version, of.until)
        && is_exactly(context.context.user, of.user)
        && is_exactly(context.context.bs, of.bs)
}

/// Whether there is an owner that is the block type of this name, or inherits from it.
fn is_owned_by(at: &Setting<'_>, name: &Word) -> bool
    requires { IsSetting at.now }
    ensures { result ≡ spec.is_owned_by at.now.schema.now at.now.context.now.owner name.now }
{
    let Some(owner) = at.context.owner else {
        return false;
    };
    match at.schema.find(name.bytes()) {
        Some(of) => at.schema.is_a(owner, of),
        None => false,
    }
}

/// Whether the field is one of blocks of the owner's type.
fn is_in_blocks(at: &Setting<'_>, of: &Field) -> bool
    requires { IsSetting at.now }
    ensures { result ≡ is_in_blocks at.now.schema.now (context_in at.now) (field of.now) }
{
    if let Some(only) = &of.only {
        if !is_owned_by(at, only) {
            return false;
        }
    }
    match &of.exclude {
        Some(exclude) => !is_owned_by(at, exclude),
        None => true,
    }
}

/// Whether a field is present.
pub(crate) fn present(at: &Setting<'_>, entries: &[Entry], of: &Field) -> bool
    requires { IsSetting at.now }
    ensures { result ≡ present_by at.now.schema.now (context_in at.now) (formula_at at.now entries.now) (field of.now) }
{
    is_in_versions(at.context, of)
        && holds(at, entries, &of.vercond)
        && holds(at, entries, &of.cond)
        && is_in_blocks(at, of)
}
