//! References, each to one character.
ghost use Rattle.std.specs.Prelude.{◌≡◌, ℕ, ◌+◌, ◌^◌, ◌<◌, ◌≤◌, Bool, true, false, List, [], ◌∷◌, ◌++◌, length, IfSome, IfNone};
ghost use Rattle.nif_text.specs.Parts.{Byte};
ghost use Rattle.nif_base.specs.Ascii.{digit_value};
ghost use Rattle.nif_text.specs.References.{number, is_character, Number, Reference};
ghost use Rattle.nif_text.specs.Reading.{Never, NoName, Longest};
ghost use Rattle.nif_text.specs.Bases.{base_of, is_digit, IsCapped};

use crate::cursor::Cursor;

/// The base of a number.
#[derive(Clone, Copy)]
pub enum Base {
    Ten,
    Sixteen,
}

/// One more than the greatest character.
const CHARACTERS: u32 = 0x11_0000;

/// What a digit stands for.
fn digit(c: u8, base: Base) -> Option<u32>
    ensures some { IfSome result (λ d. (is_digit base c ≡ true) × (d ≡ digit_value c)) }
    ensures small { IfSome result (λ d. d < 16) }
    ensures none { IfNone result (is_digit base c ≡ false) }
{
    match (c, base) {
        (b'0'..=b'9', _) => Some((c - b'0') as u32),
        (b'a'..=b'f', Base::Sixteen) => Some((c - b'a' + 10) as u32),
        (b'A'..=b'F', Base::Sixteen) => Some((c - b'A' + 10) as u32),
        _ => None,
    }
}

/// The number of all digits at the front, and what stands behind them. A number that no character has may be another such.
fn digits(text: &[u8], base: Base) -> (u32, &[u8])
    ensures run { (digits : List ℕ) × Longest (Byte (is_digit base)) digits text.now result.1.now
        × IsCapped result.0 (number (base_of base) 0 digits) }
    ensures shorter { length result.1.now ≤ length text.now }
{
    let radix = match base {
        Base::Ten => 10,
        Base::Sixteen => 16,
    };
    let mut number: u32 = 0;
    let mut rest = text;
    while let Some((c, next)) = rest.split_first() {
        let Some(value) = digit(*c, base) else {
            break;
        };
        if number < CHARACTERS {
            number = number * radix + value;
        }
        rest = next;
    }
    (number, rest)
}

fn is_character_code(code: u32) -> bool
    ensures { result ≡ is_character code }
{
    matches!(code, 9 | 10 | 13 | 0x20..=0xD7FF | 0xE000..=0xFFFD | 0x1_0000..=0x10_FFFF)
}

/// One or more digits and `;`.
fn front_number(text: &[u8], base: Base) -> Option<(char, &[u8])>
    ensures some { IfSome result (λ p. Number (base_of base) (is_digit base) p.0 text.now p.1.now) }
    ensures shorter { IfSome result (λ p. length p.1.now ≤ length text.now) }
    ensures none { IfNone result (Never (Number (base_of base) (is_digit base)) text.now) }
{
    let (code, rest) = digits(text, base);
    if rest.len() == text.len() {
        return None;
    }
    if !is_character_code(code) {
        return None;
    }
    let Some((end, rest)) = rest.split_first() else {
        return None;
    };
    if *end != b';' {
        return None;
    }
    match char::from_u32(code) {
        Some(c) => Some((c, rest)),
        None => None,
    }
}

/// The number of a reference.
fn number_at(text: &mut Cursor<'_>, base: Base) -> Option<char>
    ensures some { IfSome result (λ c. Number (base_of base) (is_digit base) c text.old text.new) }
    ensures none { IfNone result (Never (Number (base_of base) (is_digit base)) text.old) }
    ensures shorter { length text.new ≤ length text.old }
{
    let Some((c, rest)) = front_number(text.rest(), base) else {
        return None;
    };
    text.go_to(rest);
    Some(c)
}

/// The character of one of the five names.
fn named(text: &mut Cursor<'_>) -> Option<char>
    ensures some { IfSome result (λ c. Reference c text.old text.new) }
    ensures none { IfNone result (NoName text.old) }
    ensures stays { IfNone result (text.new ≡ text.old) }
    ensures shorter { length text.new ≤ length text.old }
{
    if text.eat(b"&lt;") {
        return Some('<');
    }
    if text.eat(b"&gt;") {
        return Some('>');
    }
    if text.eat(b"&amp;") {
        return Some('&');
    }
    if text.eat(b"&quot;") {
        return Some('"');
    }
    if text.eat(b"&apos;") {
        return Some('\'');
    }
    None
}

/// The character that a reference stands for, at a place of its own.
fn reference_ahead(text: &mut Cursor<'_>) -> Option<char>
    ensures some { IfSome result (λ c. Reference c text.old text.new) }
    ensures none { IfNone result (Never Reference text.old) }
    ensures shorter { length text.new ≤ length text.old }
{
    if let Some(c) = named(text) {
        return Some(c);
    }
    if text.eat(b"&#x") {
        return number_at(text, Base::Sixteen);
    }
    if text.eat(b"&#") {
        return number_at(text, Base::Ten);
    }
    None
}

/// The character that a reference stands for. Where no reference comes next, the text stays where it is.
#[tactic(auto, using(crate::proofs::References::reference_shorter))]
pub fn reference(text: &mut Cursor<'_>) -> Option<char>
    ensures some { IfSome result (λ c. Reference c text.old text.new) }
    ensures none { IfNone result (Never Reference text.old) }
    ensures stays { IfNone result (text.new ≡ text.old) }
    ensures shorter { IfSome result (λ _. length text.new + 1 ≤ length text.old) }
{
    let mut ahead = Cursor::new(text.rest());
    let Some(c) = reference_ahead(&mut ahead) else {
        return None;
    };
    text.go_to(ahead.rest());
    Some(c)
}
