//! The numbers of expressions.
ghost use Rattle.std.specs.Prelude.{◌≡◌, ℕ, ◌+◌, ◌*◌, ◌^◌, ◌<◌, ◌≤◌, IfSome, IfNone, MatchOption};
ghost use Rattle.std.specs.List.{AllPass};
ghost use Rattle.std.specs.Option.{SomeIff};
ghost use Rattle.nif_expr.specs.Classes.{holds};
ghost use Rattle.nif_expr.specs.Digits.{number_of};
ghost use Rattle.nif_expr.specs.Number.{IsNumber, IsDecimal, IsHexadecimal, IsVersion};

use crate::runs::Class;
use nif_base::{Version, digit_value};

/// A number with one digit more, where it stays below 2^64.
fn longer(base: u64, n: u64, digit: u64) -> Option<u64>
    ensures { SomeIff result (base * n + digit < 2 ^ 64) (base * n + digit) }
{
    base.checked_mul(n)?.checked_add(digit)
}

/// The number of these digits, where each is of the class and the number is below 2^64.
fn number_in(class: Class, base: u64, digits: &[u8]) -> Option<u64>
    requires { 0 < base }
    ensures some { IfSome result (λ n. AllPass (holds class) digits.now × (number_of base digits.now ≡ n)) }
    ensures none { IfNone result (AllPass (holds class) digits.now → number_of base digits.now < 2 ^ 64 → ⊥) }
{
    let mut n = 0;
    for b in digits {
        if !class.has(*b) {
            return None;
        }
        let Some(next) = longer(base, n, u64::from(digit_value(*b))) else {
            return None;
        };
        n = next;
    }
    Some(n)
}

fn decimal(text: &[u8]) -> Option<u64>
    ensures { MatchOption result ((n : ℕ) → IsDecimal text.now n → ⊥) (λ n. IsDecimal text.now n) }
{
    if text.is_empty() {
        None
    } else {
        number_in(Class::Digit, 10, text)
    }
}

fn hexadecimal(text: &[u8]) -> Option<u64>
    ensures { MatchOption result ((n : ℕ) → IsHexadecimal text.now n → ⊥) (λ n. IsHexadecimal text.now n) }
{
    match text.strip_prefix(b"0x") {
        Some(digits) if !digits.is_empty() && digits.len() <= 16 => {
            number_in(Class::HexDigit, 16, digits)
        }
        _ => None,
    }
}

fn version(text: &[u8]) -> Option<u64>
    ensures { MatchOption result ((n : ℕ) → IsVersion text.now n → ⊥) (λ n. IsVersion text.now n) }
{
    if !text.contains(&b'.') {
        return None;
    }
    match Version::parse(text) {
        Some(version) => Some(u64::from(version.number)),
        None => None,
    }
}

/// The number that a text spells: decimal, hexadecimal or a version text with a dot.
pub(crate) fn number(text: &[u8]) -> Option<u64>
    ensures { MatchOption result ((n : ℕ) → IsNumber text.now n → ⊥) (λ n. IsNumber text.now n) }
{
    if let Some(n) = decimal(text) {
        return Some(n);
    }
    if let Some(n) = hexadecimal(text) {
        return Some(n);
    }
    version(text)
}
