//! What the expressions of the header name.
ghost use Rattle.std.specs.Prelude.{◌≡◌, ◌||◌, map};
ghost use Rattle.std.specs.List.{list_any, list_all};
ghost use Rattle.std.specs.Option.{option_map};
ghost use Rattle.nif_schema.specs.Declaration.{field, formula};
ghost use Rattle.nif_schema.specs.Expression.{tree};
ghost use Rattle.nif_schema.specs.Paths.{paths_of};
ghost use Rattle.nif_schema.specs.Roles.{is_counted, begins_counted, names_counted, has_own_length, is_independent, is_never, has_independent_fields};

use crate::attributes::is_never;
use crate::fields::is_named;
use nif_schema::{Expr, Field, Fields, Formula, Path};

/// Whether this is the name of a count, or of a list of one number for each block.
fn is_counted(name: &[u8]) -> bool
    ensures { result ≡ is_counted name.now }
{
    name == b"Num Blocks".as_slice()
        || name == b"Num Block Types".as_slice()
        || name == b"Num Strings".as_slice()
        || name == b"Block Type Index".as_slice()
        || name == b"Block Size".as_slice()
}

fn begins_counted(path: &Path) -> bool
    ensures { result ≡ begins_counted path.now }
{
    path.len() > 0 && is_counted(path.get(0).bytes())
}

fn expression_names(of: &Expr) -> bool
    ensures { result ≡ list_any begins_counted (paths_of (tree of.now)) }
{
    match of {
        Expr::Number { .. } => false,
        Expr::Arg => false,
        Expr::Path { path } => begins_counted(path),
        Expr::Not { of } => expression_names(of.get()),
        Expr::Two { left, right, .. } => expression_names(left.get())
            || expression_names(right.get()),
    }
}

#[tactic(auto, unfolding(nif_schema::specs::Roles::names_counted))]
fn names_counted(of: &Option<Formula>) -> bool
    ensures { result ≡ names_counted (option_map formula of.now) }
{
    match of {
        Some(Formula::Read { expr }) => expression_names(expr),
        _ => false,
    }
}

/// Whether it is a list of the header, whose length may name a count.
fn has_own_length(of: &Field) -> bool
    ensures { result ≡ has_own_length (field of.now) }
{
    is_named(of, b"Block Types".as_slice())
        || is_named(of, b"Strings".as_slice())
        || is_named(of, b"Block Type Index".as_slice())
        || is_named(of, b"Block Size".as_slice())
}

fn is_independent(of: &Field) -> bool
    ensures { result ≡ is_independent (field of.now) }
{
    if names_counted(&of.arg)
        || names_counted(&of.width)
        || names_counted(&of.cond)
        || names_counted(&of.vercond)
    {
        return false;
    }
    has_own_length(of) || !names_counted(&of.length)
}

/// Whether a field names no count, or isn't asked.
fn passes(of: &Field) -> bool
    ensures { result ≡ is_never (field of.now) || is_independent (field of.now) }
{
    is_never(of) || is_independent(of)
}

/// Rule 8: no expression of a field begins with the name of a count, but for the lengths of the lists; a field that is
/// present in no accepted version isn't asked.
pub fn has_independent_fields(fields: &Fields) -> bool
    ensures { result ≡ has_independent_fields (map field fields.now) }
{
    for place in 0..fields.len() {
        if !passes(fields.get(place)) {
            return false;
        }
    }
    true
}
