//! The values of expressions.
ghost use Rattle.std.specs.Prelude.{◌≡◌};
ghost use Rattle.nif_schema.specs.Expression.{tree};
ghost use Rattle.nif_schema.specs.Declaration.{formula};
ghost use Rattle.nif_expr.specs.Value as spec;
ghost use Rattle.nif_scope.specs.Scope.{IsSetting};
ghost use Rattle.nif_scope.specs.Values.{number_at, value_by, formula_at};

use crate::entries::Entry;
use crate::paths::number_at;
use crate::settings::Setting;
use nif_schema::{Expr, Formula, Op};

/// What a two-sided operator makes of two numbers.
fn apply(op: Op, a: u64, b: u64) -> u64
    ensures { result ≡ spec.apply op a b }
{
    match op {
        Op::Mul => a.wrapping_mul(b),
        Op::Div => a.checked_div(b).unwrap_or(0),
        Op::Add => a.wrapping_add(b),
        Op::Sub => a.wrapping_sub(b),
        Op::Shl => if b < 64 { a << b } else { 0 },
        Op::Shr => if b < 64 { a >> b } else { 0 },
        Op::Lt => u64::from(a < b),
        Op::Le => u64::from(a <= b),
        Op::Gt => u64::from(a > b),
        Op::Ge => u64::from(a >= b),
        Op::Eq => u64::from(a == b),
        Op::Ne => u64::from(a != b),
        Op::BitAnd => a & b,
        Op::BitOr => a | b,
        Op::And => u64::from(a != 0 && b != 0),
        Op::Or => u64::from(a != 0 || b != 0),
    }
}

/// The value of an expression. It goes as deep as the expression.
fn value_at(at: &Setting<'_>, entries: &[Entry], of: &Expr) -> u64
    requires { IsSetting at.now }
    ensures { result ≡ value_by (number_at at.now entries.now) at.now.arg (tree of.now) }
{
    match of {
        Expr::Number { value } => *value,
        Expr::Arg => at.arg,
        Expr::Path { path } => number_at(at, entries, path),
        Expr::Not { of } => u64::from(value_at(at, entries, of.get()) == 0),
        Expr::Two { op, left, right } => {
            let a = value_at(at, entries, left.get());
            let b = value_at(at, entries, right.get());
            apply(*op, a, b)
        }
    }
}

/// The value of an attribute.
pub(crate) fn formula_at(at: &Setting<'_>, entries: &[Entry], of: &Formula) -> u64
    requires { IsSetting at.now }
    ensures { result ≡ formula_at at.now entries.now (formula of.now) }
{
    match of {
        Formula::Read { expr } => value_at(at, entries, expr),
        Formula::Bad => 0,
    }
}
