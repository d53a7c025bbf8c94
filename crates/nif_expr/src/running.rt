//! Code words at work.
ghost use Rattle.std.specs.Prelude.{◌≡◌, ◌≤◌, take, reverse, IsTrue, slice_index};
ghost use Rattle.nif_expr.specs.Codes.{step, has_place, after, fits, ran};

use crate::codes::{Code, CodeWord};
use crate::values::apply;

/// How many numbers the stack has room for.
const ROOM: usize = 64;

fn slot(slots: &[u64], number: usize) -> u64
    ensures { result ≡ slice_index slots.now number }
{
    slots.get(number).copied().unwrap_or(0)
}

/// One word's work on the lowest `top` numbers of the stack; it answers how many there are then.
fn act(stack: &mut [u64; ROOM], top: usize, word: CodeWord, slots: &[u64], arg: u64) -> usize
    requires place { top ≤ 64 }
    requires fits { IsTrue (has_place word top) }
    ensures top { result ≡ after word top }
    ensures stack { reverse (take result stack.new) ≡ step word slots.now arg (reverse (take top stack.old)) }
{
    match word {
        CodeWord::Number { value } => {
            stack[top] = value;
            top + 1
        }
        CodeWord::Arg => {
            stack[top] = arg;
            top + 1
        }
        CodeWord::Slot { number } => {
            stack[top] = slot(slots, number);
            top + 1
        }
        CodeWord::Not => {
            stack[top - 1] = u64::from(stack[top - 1] == 0);
            top
        }
        CodeWord::Two { op } => {
            stack[top - 2] = apply(op, stack[top - 2], stack[top - 1]);
            top - 1
        }
        CodeWord::Swapped { op } => {
            stack[top - 2] = apply(op, stack[top - 1], stack[top - 2]);
            top - 1
        }
    }
}

/// The words one after another, on an empty stack. The stack is filled with zeros first.
fn run_all(words: &[CodeWord], slots: &[u64], arg: u64) -> u64
    requires { IsTrue (fits words.now 0) }
    ensures { result ≡ ran words.now slots.now arg }
{
    let mut stack = [0; ROOM];
    let mut top = 0;
    for word in words {
        top = act(&mut stack, top, *word, slots, arg);
    }
    stack[0]
}

/// What the words of an expression give, modulo 2^64: `slots` has the values of its paths, in the order that
/// `compile` was told, and `arg` is its `#ARG#`. A slot that isn't there is 0. It takes no memory, and a word alone
/// needs no stack.
pub fn run(code: &Code, slots: &[u64], arg: u64) -> u64
    ensures { result ≡ ran code.now slots.now arg }
{
    match code.words.as_slice() {
        [CodeWord::Number { value }] => *value,
        [CodeWord::Arg] => arg,
        [CodeWord::Slot { number }] => slot(slots, *number),
        words => run_all(words, slots, arg),
    }
}
