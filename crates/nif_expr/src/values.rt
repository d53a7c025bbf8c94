//! The value of an expression.
ghost use Rattle.std.specs.Prelude.{◌≡◌};
ghost use Rattle.nif_schema.specs.Expression.{tree};
ghost use Rattle.nif_expr.specs.Value as spec;
ghost use Rattle.nif_expr.specs.Value.{value};

use crate::bindings::Env;
use nif_schema::{Expr, Op};

/// What a two-sided operator makes of two numbers.
pub(crate) fn apply(op: Op, a: u64, b: u64) -> u64
    ensures { result ≡ spec.apply op a b }
{
    match op {
        Op::Mul => a.wrapping_mul(b),
        Op::Div => a.checked_div(b).unwrap_or(0),
        Op::Add => a.wrapping_add(b),
        Op::Sub => a.wrapping_sub(b),
        Op::Shl => if b < 64 { a << b } else { 0 },
        Op::Shr => if b < 64 { a >> b } else { 0 },
        Op::Lt => u64::from(a < b),
        Op::Le => u64::from(a <= b),
        Op::Gt => u64::from(a > b),
        Op::Ge => u64::from(a >= b),
        Op::Eq => u64::from(a == b),
        Op::Ne => u64::from(a != b),
        Op::BitAnd => a & b,
        Op::BitOr => a | b,
        Op::And => u64::from(a != 0 && b != 0),
        Op::Or => u64::from(a != 0 || b != 0),
    }
}

/// The value of an expression, modulo 2^64: `env` says what its paths stand for, and `arg` is its `#ARG#`.
/// A path that isn't bound is 0, and so are a division by 0 and a shift by 64 or more.
pub fn eval(expr: &Expr, env: &Env, arg: u64) -> u64
    ensures { result ≡ value (tree expr.now) env.now arg }
{
    match expr {
        Expr::Number { value } => *value,
        Expr::Arg => arg,
        Expr::Path { path } => env.look(path),
        Expr::Not { of } => u64::from(eval(of.get(), env, arg) == 0),
        Expr::Two { op, left, right } => {
            let a = eval(left.get(), env, arg);
            let b = eval(right.get(), env, arg);
            apply(*op, a, b)
        }
    }
}
