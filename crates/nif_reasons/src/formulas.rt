//! Why an expression of a field closes a type.
ghost use Rattle.std.specs.Prelude.{◌≡◌, ◌||◌, not, map, IfOk, option_copied};
ghost use Rattle.std.specs.List.{list_all};
ghost use Rattle.nif_schema.specs.declared.faults.Closed.TheVariants.{C9};
ghost use Rattle.std.specs.Option.{option_map};
ghost use Rattle.nif_schema.specs.Declaration.{formula};
ghost use Rattle.nif_schema.specs.Expression.{tree};
ghost use Rattle.nif_schema.specs.Paths.{path_reason, paths_of};
ghost use Rattle.nif_schema.specs.Reasons as spec;
ghost use Rattle.nif_reasons.specs.FieldReasons.{bare_name, only_name};
ghost use Rattle.nif_paths.specs.Marks.{Gives};

use nif_base::{NoMemory, Word};
use nif_names::{Names, Shapes};
use nif_paths::{Line, path_reason};
use nif_schema::{Closed, Expr, Formula, Path};
use std::alloc::Global;

/// Why a path of an expression closes a type: the first from left to right. It goes as deep as the tree.
fn expr_reason(
    alloc: Global,
    tables: &[Names],
    line: &mut Line,
    expr: &Expr,
) -> Result<Option<Closed>, NoMemory>
    ensures { IfOk result (Gives (λ schema fields. spec.first_reason
        (map (path_reason schema fields) (paths_of (tree expr.now)))) tables.now line.old line.new) }
{
    match expr {
        Expr::Number { .. } => Ok(None),
        Expr::Arg => Ok(None),
        Expr::Path { path } => path_reason(alloc, tables, line, path),
        Expr::Not { of } => expr_reason(alloc, tables, line, of.get()),
        Expr::Two { left, right, .. } => match expr_reason(alloc, tables, line, left.get()) {
            Ok(None) => expr_reason(alloc, tables, line, right.get()),
            Ok(Some(reason)) => Ok(Some(reason)),
            Err(fault) => Err(fault),
        },
    }
}

/// Why an attribute that is an expression closes a type.
pub fn formula_reason(
    alloc: Global,
    tables: &[Names],
    line: &mut Line,
    of: &Option<Formula>,
) -> Result<Option<Closed>, NoMemory>
    ensures { IfOk result (Gives (λ schema fields. spec.formula_reason schema fields
        (option_map formula of.now)) tables.now line.old line.new) }
{
    let Some(of) = of else {
        return Ok(None);
    };
    match of {
        Formula::Bad => Ok(Some(Closed::C4)),
        Formula::Read { expr } => expr_reason(alloc, tables, line, expr),
    }
}

/// Why the fields of a bare name in a width close a type.
fn bare_width_reason(shapes: &Shapes) -> Option<Closed>
    ensures { result ≡ spec.reason_where C9 (not (list_all (λ s. s.number) shapes.now.shapes
        || list_all (λ s. s.row) shapes.now.shapes)) }
{
    if shapes.all_numbers() {
        return None;
    }
    if shapes.all_rows() {
        return None;
    }
    Some(Closed::C9)
}

/// The name that an expression is, if it is a bare name.
fn bare_name(of: &Option<Formula>) -> Option<&Word>
    ensures { option_copied result ≡ bare_name (option_map formula of.now) }
{
    let expr = match of {
        Some(Formula::Read { expr }) => expr,
        Some(Formula::Bad) => return None,
        None => return None,
    };
    match expr {
        Expr::Path { path } => only_name(path),
        Expr::Number { .. } => None,
        Expr::Arg => None,
        Expr::Not { .. } => None,
        Expr::Two { .. } => None,
    }
}

fn only_name(path: &Path) -> Option<&Word>
    ensures { option_copied result ≡ only_name path.now }
{
    if path.len() == 1 {
        return Some(path.get(0));
    }
    None
}

/// Why a width closes a type: a bare name of earlier fields is looked at apart.
pub fn width_reason(
    alloc: Global,
    tables: &[Names],
    line: &mut Line,
    width: &Option<Formula>,
) -> Result<Option<Closed>, NoMemory>
    ensures { IfOk result (Gives (λ schema fields. spec.width_reason schema fields
        (option_map formula width.now)) tables.now line.old line.new) }
{
    let Some(name) = bare_name(width) else {
        return formula_reason(alloc, tables, line, width);
    };
    match line.look(name.bytes()) {
        Some(shapes) => Ok(bare_width_reason(shapes)),
        None => formula_reason(alloc, tables, line, width),
    }
}
