//! Runs of bytes of a class.
ghost use Rattle.std.specs.Prelude.{◌≡◌};
ghost use Rattle.nif_expr.specs.Bytes.{front, after};
ghost use Rattle.nif_expr.specs.Bytes as bytes;
ghost use Rattle.nif_expr.specs.Classes.{holds};

use nif_base::{is_blank, is_digit, is_hex_digit};

/// A class of bytes.
#[derive(Clone, Copy)]
pub(crate) enum Class {
    Blank,
    Letter,
    Digit,
    HexDigit,
    InName,
    InNumber,
}

fn is_letter(b: u8) -> bool
    ensures { result ≡ bytes.is_letter b }
{
    matches!(b, b'A'..=b'Z' | b'a'..=b'z' | b'_')
}

impl Class {
    /// Whether a byte is of the class.
    pub(crate) fn has(self, b: u8) -> bool
        ensures { result ≡ holds self b }
    {
        match self {
            Class::Blank => is_blank(b),
            Class::Letter => is_letter(b),
            Class::Digit => is_digit(b),
            Class::HexDigit => is_hex_digit(b),
            Class::InName => {
                is_letter(b) || is_digit(b) || b == b'?' || b == b':' || b == b'\'' || is_blank(b)
            }
            Class::InNumber => is_letter(b) || is_digit(b) || b == b'.',
        }
    }

    /// Whether a text begins with a byte of the class.
    pub(crate) fn begins(self, text: &[u8]) -> bool
        ensures { result ≡ bytes.begins (holds self) text.now }
    {
        match text {
            [] => false,
            [b, ..] => self.has(*b),
        }
    }

    /// The bytes of the class at the front of a text, as many as there are, and what follows them.
    pub(crate) fn split(self, text: &[u8]) -> (&[u8], &[u8])
        ensures front { result.0.now ≡ front (holds self) text.now }
        ensures after { result.1.now ≡ after (holds self) text.now }
    {
        for (i, b) in text.iter().enumerate() {
            if !self.has(*b) {
                return text.split_at(i);
            }
        }
        (text, &[])
    }
}

/// A text without its last blanks.
pub(crate) fn trimmed(text: &[u8]) -> &[u8]
    ensures { result.now ≡ bytes.trimmed text.now }
{
    let mut end = text.len();
    while end > 0 && Class::Blank.has(text[end - 1]) {
        end -= 1;
    }
    &text[..end]
}
