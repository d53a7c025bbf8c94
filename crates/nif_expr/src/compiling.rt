//! From expressions to code words.
ghost use Rattle.std.specs.Prelude.{◌≡◌, ℕ, ◌-◌, ◌≤◌, List, ◌++◌, ◌∷◌, [], IfOk, OnOk, take, drop, length};
ghost use Rattle.nif_schema.specs.Expression.{tree};
ghost use Rattle.nif_expr.specs.Value.{look, value, bound};
ghost use Rattle.nif_expr.specs.Codes.{ran};
ghost use Rattle.nif_expr.specs.Compiled.{Computes, Adds};

use crate::codes::{Code, CodeWord};
use nif_base::NoMemory;
use nif_schema::{Expr, Path};
use std::alloc::Global;

/// The word for a path: it reads the slot of the last of these paths that is the same, and is 0 where none is.
fn path_word(paths: &[Path], path: &Path) -> CodeWord
    ensures { Computes (result ∷ []) 1 (λ slots arg. look (bound paths.now slots) path.now) }
{
    let mut number = paths.len();
    while number > 0 {
        number -= 1;
        if paths[number].same(path) {
            return CodeWord::Slot { number };
        }
    }
    CodeWord::Number { value: 0 }
}

/// Moves the words from `start` up to `middle` behind those that follow.
fn turn(words: &mut Vec<CodeWord>, start: usize, middle: usize)
    requires order { start ≤ middle }
    requires within { middle ≤ length words.old.items }
    ensures { words.new.items ≡ take start words.old.items
        ++ (drop middle words.old.items ++ take (middle - start) (drop start words.old.items)) }
{
    words.as_mut_slice()[start..].rotate_left(middle - start);
}

/// Puts a word behind others; it answers `need`.
fn put(words: &mut Vec<CodeWord>, word: CodeWord, need: u32) -> Result<u32, NoMemory>
    ensures words { OnOk result (words.new.items ≡ words.old.items ++ word ∷ []) }
    ensures need { IfOk result (λ n. n ≡ need) }
{
    match words.push(word) {
        Ok(()) => Ok(need),
        Err(_) => Err(NoMemory),
    }
}

/// Puts the words of an expression behind others, and answers for how many numbers they need place. The operand
/// that needs more is computed first.
fn emit(words: &mut Vec<CodeWord>, expr: &Expr, paths: &[Path]) -> Result<u32, NoMemory>
    ensures { IfOk result (λ need.
        Adds words.old.items words.new.items need (λ slots arg. value (tree expr.now) (bound paths.now slots) arg)) }
{
    match expr {
        Expr::Number { value } => put(words, CodeWord::Number { value: *value }, 1),
        Expr::Arg => put(words, CodeWord::Arg, 1),
        Expr::Path { path } => put(words, path_word(paths, path), 1),
        Expr::Not { of } => match emit(words, of.get(), paths) {
            Ok(need) => put(words, CodeWord::Not, need),
            Err(NoMemory) => Err(NoMemory),
        },
        Expr::Two { op, left, right } => {
            let start = words.len();
            let first = match emit(words, left.get(), paths) {
                Ok(need) => need,
                Err(NoMemory) => return Err(NoMemory),
            };
            let middle = words.len();
            let second = match emit(words, right.get(), paths) {
                Ok(need) => need,
                Err(NoMemory) => return Err(NoMemory),
            };
            if first < second {
                turn(words, start, middle);
                put(words, CodeWord::Swapped { op: *op }, second)
            } else if first == second {
                put(words, CodeWord::Two { op: *op }, first + 1)
            } else {
                put(words, CodeWord::Two { op: *op }, first)
            }
        }
    }
}

/// The code words of an expression, where slot i has the value of path i of `paths`. A path that isn't there is 0, and
/// of a path that stands there twice the last place counts. What the words give is the value of the expression. The
/// operand that needs more numbers is computed first, so that 64 suffice for every expression that fits into memory.
pub fn compile(alloc: Global, expr: &Expr, paths: &[Path]) -> Result<Code, NoMemory>
    ensures { IfOk result (λ code. (slots : List ℕ) (arg : ℕ) →
        ran code slots arg ≡ value (tree expr.now) (bound paths.now slots) arg) }
{
    let mut words = Vec::new(alloc);
    match emit(&mut words, expr, paths) {
        Ok(_) => Ok(Code { words }),
        Err(NoMemory) => Err(NoMemory),
    }
}
