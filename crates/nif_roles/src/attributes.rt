//! Which attributes a field has, and what they say.
ghost use Rattle.std.specs.Prelude.{◌≡◌, ◌^◌, ◌*◌, ◌+◌};
ghost use Rattle.std.specs.Option.{option_map};
ghost use Rattle.nif_schema.specs.Declaration.{field, formula};
ghost use Rattle.nif_schema.specs.Roles.{has_no_condition, has_no_bounds, is_plain, is_bare, is_always, is_never, begins_by_lowest, lasts_to_highest, begins_above_highest, ends_below_lowest, is_bare_name, has_length, is_single};

use nif_base::limits::{HIGHEST_VERSION, LOWEST_VERSION};
use nif_schema::{Bound, Expr, Field, Formula};

fn has_no_condition(of: &Field) -> bool
    ensures { result ≡ has_no_condition (field of.now) }
{
    of.cond.is_none()
        && of.vercond.is_none()
        && of.user.is_none()
        && of.bs.is_none()
        && of.only.is_none()
        && of.exclude.is_none()
}

/// Whether a field has no attribute but its name, its type, and perhaps `length`, `since` and `until`.
pub(crate) fn is_plain(of: &Field) -> bool
    ensures { result ≡ is_plain (field of.now) }
{
    of.template.is_none() && of.arg.is_none() && of.width.is_none() && has_no_condition(of)
}

pub(crate) fn has_no_bounds(of: &Field) -> bool
    ensures { result ≡ has_no_bounds (field of.now) }
{
    of.since.is_none() && of.until.is_none()
}

/// Whether a field has no attribute but its name and its type.
pub(crate) fn is_bare(of: &Field) -> bool
    ensures { result ≡ is_bare (field of.now) }
{
    is_plain(of) && of.length.is_none() && has_no_bounds(of)
}

fn begins_by_lowest(since: Option<Bound>) -> bool
    ensures { result ≡ begins_by_lowest since }
{
    match since {
        None => true,
        Some(Bound::Bad) => false,
        Some(Bound::Read { version }) => version.number <= LOWEST_VERSION,
    }
}

fn lasts_to_highest(until: Option<Bound>) -> bool
    ensures { result ≡ lasts_to_highest until }
{
    match until {
        None => true,
        Some(Bound::Bad) => false,
        Some(Bound::Read { version }) => HIGHEST_VERSION <= version.number,
    }
}

/// Whether a field has no attribute but its name, its type, and a `since` and `until` that hold for all accepted
/// versions.
pub(crate) fn is_always(of: &Field) -> bool
    ensures { result ≡ is_always (field of.now) }
{
    is_plain(of) && of.length.is_none() && begins_by_lowest(of.since) && lasts_to_highest(of.until)
}

fn begins_above_highest(since: Option<Bound>) -> bool
    ensures { result ≡ begins_above_highest since }
{
    match since {
        Some(Bound::Read { version }) => HIGHEST_VERSION < version.number,
        _ => false,
    }
}

fn ends_below_lowest(until: Option<Bound>) -> bool
    ensures { result ≡ ends_below_lowest until }
{
    match until {
        Some(Bound::Read { version }) => version.number < LOWEST_VERSION,
        _ => false,
    }
}

/// Whether a field is present in no accepted version, by its `since` and `until`.
pub(crate) fn is_never(of: &Field) -> bool
    ensures { result ≡ is_never (field of.now) }
{
    ends_below_lowest(of.until) || begins_above_highest(of.since)
}

/// Whether an expression is the bare name of a field.
pub(crate) fn is_bare_name(of: &Option<Formula>, name: &[u8]) -> bool
    ensures { result ≡ is_bare_name name.now (option_map formula of.now) }
{
    match of {
        Some(
            Formula::Read {
                expr: Expr::Path { path },
            },
        ) => path.len() == 1 && path.get(0).bytes() == name,
        _ => false,
    }
}

/// Whether a field is an array of this length, without `width` and `arg`.
pub(crate) fn has_length(of: &Field, name: &[u8]) -> bool
    ensures { result ≡ has_length name.now (field of.now) }
{
    is_bare_name(&of.length, name) && of.width.is_none() && of.arg.is_none()
}

/// Whether a field is no array, without `width` and `arg`.
pub(crate) fn is_single(of: &Field) -> bool
    ensures { result ≡ is_single (field of.now) }
{
    of.length.is_none() && of.width.is_none() && of.arg.is_none()
}
