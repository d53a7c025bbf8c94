use crate::paths::Path;
use sqlite_items::Boxed;

/// A two-sided operator.
#[derive(Clone, Copy, Debug, Drop)]
pub enum Op {
    Mul,
    Div,
    Add,
    Sub,
    Shl,
    Shr,
    Lt,
    Le,
    Gt,
    Ge,
    Eq,
    Ne,
    BitAnd,
    BitOr,
    And,
    Or,
}

/// An expression as a tree.
#[derive(Drop)]
pub enum Expr {
    /// A number below 2^64.
    Number {
        value: u64,
    },
    /// The argument of the struct, `#ARG#`.
    Arg,
    /// The value that a path of names leads to.
    Path {
        path: Path,
    },
    /// 1 where the operand is 0, and 0 elsewhere.
    Not {
        of: Boxed<Expr>,
    },
    /// A two-sided operator with its operands.
    Two {
        op: Op,
        left: Boxed<Expr>,
        right: Boxed<Expr>,
    },
}
