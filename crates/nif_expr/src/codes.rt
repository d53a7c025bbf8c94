//! Code words: an expression over numbered slots in the order in which a stack computes it.
ghost use Rattle.std.specs.Prelude.{◌≡◌, ℕ, List, IfSome, IfNone, IsTrue};
ghost use Rattle.std.specs.List.{list_any};
ghost use Rattle.nif_expr.specs.Codes.{reads, ran};

use crate::running::run;
use nif_schema::Op;
use std::marker::Model;

/// What one word does with the stack.
#[derive(Clone, Copy, Drop)]
pub enum CodeWord {
    /// Puts a number on the stack.
    Number { value: u64 },
    /// Puts the argument on the stack.
    Arg,
    /// Puts the number in a slot on the stack, 0 where there is no such slot.
    Slot { number: usize },
    /// Makes 1 of a topmost 0, and 0 of any other.
    Not,
    /// Applies the operator to the number below the topmost and to the topmost.
    Two { op: Op },
    /// Applies the operator to the topmost number and to the one below.
    Swapped { op: Op },
}

impl CodeWord {
    /// Whether what it does depends on the slots or the argument.
    fn reads(self) -> bool
        ensures { result ≡ reads self }
    {
        matches!(self, CodeWord::Arg | CodeWord::Slot { .. })
    }
}

/// The code words of an expression. They never find too few numbers on the stack, never hold more than 64, and leave
/// one.
#[derive(Drop)]
pub struct Code {
    pub(crate) words: Vec<CodeWord>,
}

impl Model for Code {
    ghost use Rattle.std.specs.Prelude.{List, IsTrue};
    ghost use Rattle.nif_expr.specs.declared.codes.CodeWord.{CodeWord};
    ghost use Rattle.nif_expr.specs.Codes.{fits};

    ghost Value = { List CodeWord };

    ghost view = { λ a. a.words.items };

    ghost invariant = { λ a. IsTrue (fits a.words.items 0) };
}

impl Code {
    /// What the words give whatever the slots and the argument are, where no word reads one of them.
    pub fn constant(&self) -> Option<u64>
        ensures some { IfSome result (λ n. (slots : List ℕ) (arg : ℕ) → ran self.now slots arg ≡ n) }
        ensures none { IfNone result (IsTrue (list_any reads self.now)) }
    {
        for word in self.words.as_slice() {
            if word.reads() {
                return None;
            }
        }
        Some(run(self, &[], 0))
    }
}
