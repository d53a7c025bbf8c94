//! The expression of a text.
ghost use Rattle.std.specs.Prelude.{◌≡◌, ◌<◌, ◌≤◌, ◌↔◌, length, IfOk, IsOk, IsErrOf};
ghost use Rattle.nif_schema.specs.Expression.{tree, Tree};
ghost use Rattle.nif_expr.specs.Grammar.{IsExpression};

use crate::parts::tree_of;
use nif_base::NoMemory;
use nif_base::limits::MOST_EXPRESSION_BYTES;
use nif_schema::Expr;
use std::alloc::Global;
use thiserror::Error;

/// Why a text gave no expression.
#[derive(Debug, Drop, Clone, Copy, PartialEq, Eq, Error)]
pub enum ExprFault {
    /// The grammar gives the text no tree.
    #[error("not an expression")]
    NotAnExpression,
    /// The text has more than 4,096 bytes.
    #[error("the expression is too long")]
    TooLong,
    /// Memory ran out.
    #[error("memory ran out")]
    NoMemory,
}

/// The expression of a text, whose bytes may be any. The work grows with the length of the text, and nothing is
/// read by recursion.
pub fn parse(alloc: Global, text: &[u8]) -> Result<Expr, ExprFault>
    ensures parsed { IfOk result (λ e. IsExpression text.now (tree e)) }
    ensures short { IsOk result → length text.now ≤ 4096 }
    ensures too_long { IsErrOf result ExprFault.TooLong ↔ (4096 < length text.now) }
    ensures not_an_expression { IsErrOf result ExprFault.NotAnExpression →
        (length text.now ≤ 4096) × ((t : Tree) → IsExpression text.now t → ⊥) }
{
    if text.len() > MOST_EXPRESSION_BYTES {
        return Err(ExprFault::TooLong);
    }
    match tree_of(alloc, text) {
        Ok(Some(expr)) => Ok(expr),
        Ok(None) => Err(ExprFault::NotAnExpression),
        Err(NoMemory) => Err(ExprFault::NoMemory),
    }
}
