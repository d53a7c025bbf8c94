//! The parts of a text, and its tree.
ghost use Rattle.std.specs.Prelude.{◌≡◌, ◌∷◌, false, true, ℕ, ◌≤◌, ◌<◌, List, length, IfOk, MatchOption, IsTrue};
ghost use Rattle.nif_schema.specs.Expression as spec;
ghost use Rattle.nif_schema.specs.Expression.{tree, Tree};
ghost use Rattle.nif_expr.specs.Value.{Names};
ghost use Rattle.nif_base.specs.Ascii.{is_digit, is_blank};
ghost use Rattle.nif_expr.specs.Bytes.{begins, is_letter, is_backslash};
ghost use Rattle.nif_expr.specs.Parts.{Part, Joined, First, operand_of};
ghost use Rattle.nif_expr.specs.Grammar.{IsExpression};
ghost use Rattle.nif_expr.specs.Kept.{part_of, IsFirst};
ghost use Rattle.nif_expr.specs.SignTable.{sign_part};

use crate::numbers::number;
use crate::parser::{State, Token, finish, step};
use crate::runs::{Class, trimmed};
use crate::signs::{self, Sign};
use nif_base::{NoMemory, Word};
use nif_schema::{Expr, Path};
use std::alloc::Global;

/// What follows the `\` that a text begins with.
fn after_backslash(text: &[u8]) -> Option<&[u8]>
    ensures { MatchOption result (begins is_backslash text.now ≡ false) (λ next. text.now ≡ 92 ∷ next.now) }
{
    match text {
        [b, rest @ ..] if *b == b'\\' => Some(rest),
        _ => None,
    }
}

/// The path at the front of a text, and what follows it. None where no name stands there or after a `\`.
fn path(alloc: Global, text: &[u8]) -> Result<Option<(Path, &[u8])>, NoMemory>
    requires { length text.now ≤ 4096 }
    ensures { IfOk result (λ found. MatchOption found
        ((names : Names) (rest : List ℕ) → Joined text.now names rest → ⊥)
        (λ r. Joined text.now r.0 r.1.now)) }
{
    if !Class::Letter.begins(text) {
        return Ok(None);
    }
    let (run, mut rest) = Class::InName.split(text);
    let first = Word::from_bytes(alloc, trimmed(run))?;
    let mut path = Path::new(alloc, first)?;
    while let Some(next) = after_backslash(rest) {
        let (_, next) = Class::Blank.split(next);
        if !Class::Letter.begins(next) {
            return Ok(None);
        }
        let (run, after) = Class::InName.split(next);
        let name = Word::from_bytes(alloc, trimmed(run))?;
        path.push(name)?;
        rest = after;
    }
    Ok(Some((path, rest)))
}

/// A path as an operand: the one name `ARG` is the argument.
fn operand(path: Path) -> Expr
    ensures { tree result ≡ operand_of path }
{
    if path.len() == 1 && path.get(0).bytes() == b"ARG".as_slice() {
        Expr::Arg
    } else {
        Expr::Path { path }
    }
}

fn constant(value: u64) -> Expr
    ensures { tree result ≡ spec.Number value }
{
    Expr::Number { value }
}

fn token_of(sign: Sign) -> Token
    ensures { part_of result ≡ sign_part sign }
{
    match sign {
        Sign::Operator(op) => Token::Operator(op),
        Sign::Negation => Token::Negation,
        Sign::Opening => Token::Opening,
        Sign::Closing => Token::Closing,
        Sign::Arg => Token::Operand(Expr::Arg),
    }
}

fn first_path(alloc: Global, text: &[u8]) -> Result<Option<(Token, &[u8])>, NoMemory>
    requires short { length text.now ≤ 4096 }
    requires letter { begins is_letter text.now ≡ true }
    ensures { IfOk result (IsFirst text.now) }
{
    match path(alloc, text) {
        Ok(Some((path, rest))) => Ok(Some((Token::Operand(operand(path)), rest))),
        Ok(None) => Ok(None),
        Err(e) => Err(e),
    }
}

fn first_number(text: &[u8]) -> Option<(Token, &[u8])>
    requires { begins is_digit text.now ≡ true }
    ensures { IsFirst text.now result }
{
    let (run, rest) = Class::InNumber.split(text);
    match number(run) {
        Some(value) => Some((Token::Operand(constant(value)), rest)),
        None => None,
    }
}

fn first_sign(text: &[u8]) -> Option<(Token, &[u8])>
    requires letter { begins is_letter text.now ≡ false }
    requires digit { begins is_digit text.now ≡ false }
    ensures { IsFirst text.now result }
{
    match signs::first(text) {
        Some((sign, rest)) => Some((token_of(sign), rest)),
        None => None,
    }
}

/// The part at the front of a text, and what follows it.
fn first(alloc: Global, text: &[u8]) -> Result<Option<(Token, &[u8])>, NoMemory>
    requires { length text.now ≤ 4096 }
    ensures { IfOk result (IsFirst text.now) }
{
    if Class::Letter.begins(text) {
        first_path(alloc, text)
    } else if Class::Digit.begins(text) {
        Ok(first_number(text))
    } else {
        Ok(first_sign(text))
    }
}

/// The tree of a text, None where it has none.
pub(crate) fn tree_of(alloc: Global, text: &[u8]) -> Result<Option<Expr>, NoMemory>
    requires { length text.now ≤ 4096 }
    ensures { IfOk result (λ found. MatchOption found
        ((t : Tree) → IsExpression text.now t → ⊥)
        (λ e. IsExpression text.now (tree e))) }
{
    let mut state = State::Wants {
        stack: Vec::new(alloc),
    };
    let (_, mut rest) = Class::Blank.split(text);
    while !rest.is_empty() {
        let (token, after) = match first(alloc, rest) {
            Ok(Some(found)) => found,
            Ok(None) => return Ok(None),
            Err(e) => return Err(e),
        };
        state = match step(alloc, state, token) {
            Ok(Some(next)) => next,
            Ok(None) => return Ok(None),
            Err(e) => return Err(e),
        };
        (_, rest) = Class::Blank.split(after);
    }
    finish(alloc, state)
}
