//! Numbers in scripts.
ghost use Rattle.std.specs.Prelude.{◌≡◌, ℕ, ◌+◌, ◌-◌, ◌^◌, ◌<◌, List, length, Some, None, codes, IfOk, MatchOption};
ghost use Rattle.nif_script.specs.Forms.{Text, number_of, numbers_of, number_or};

use crate::pieces::Pieces;
use nif_attributes::numbers::decimal;
use nif_base::{NoMemory, Numbers};
use std::alloc::Global;

/// The number of a decimal of 0 to 2^32 - 1 without leading zeros.
#[tactic(auto, unfolding(crate::specs::Forms::number_of))]
pub(crate) fn number(word: &[u8]) -> Option<u32>
    ensures { result ≡ number_of word.now }
{
    if word.len() > 1 && word[0] == b'0' {
        return None;
    }
    decimal(u32::MAX, word)
}

/// The number of a word, or None where it is the word that stands for none.
pub(crate) fn number_or(none: &[u8], word: &[u8]) -> Option<Option<u32>>
    ensures { result ≡ number_or none.now word.now }
{
    if word == none {
        return Some(None);
    }
    match number(word) {
        Some(number) => Some(Some(number)),
        None => None,
    }
}

/// The numbers of words that all are numbers, in time linear in their bytes.
pub(crate) fn numbers(alloc: Global, mut words: Pieces) -> Result<Option<Numbers>, NoMemory>
    requires { length words < 2 ^ 32 }
    ensures { IfOk result (λ numbers. numbers ≡ numbers_of words.entry) }
{
    let mut numbers = Numbers::new(alloc);
    while let Some(word) = words.next() {
        let Some(number) = number(word) else {
            return Ok(None);
        };
        match numbers.push(number) {
            Ok(()) => {}
            Err(NoMemory) => return Err(NoMemory),
        }
    }
    Ok(Some(numbers))
}
