//! A place in a text, and the steps that go on from it.
ghost use Rattle.std.specs.Prelude.{◌≡◌, ℕ, ◌+◌, ◌^◌, ◌<◌, ◌≤◌, Bool, false, List, [], ◌∷◌, ◌++◌, length, IsTrue, IfSome, IfNone, OnSome, if◌then◌else◌};
ghost use Rattle.nif_base.specs.Limits.{most_schema_bytes};
ghost use Rattle.nif_text.specs.Parts.{Many, Byte, Literal};
ghost use Rattle.nif_base.specs.Ascii.{is_blank};
ghost use Rattle.nif_text.specs.Bytes.{is_allowed, is_name_start, is_name_byte, Name};
ghost use Rattle.nif_text.specs.Reading.{Never, NoLiteral, Longest};
ghost use Rattle.nif_text.specs.Kinds.{passes};

use nif_base::is_blank;
use std::marker::Model;

/// What is left of a text of at most 2^22 bytes.
#[derive(Drop)]
pub struct Cursor<'a> {
    rest: &'a [u8],
}

impl<'a> Model for Cursor<'a> {
    ghost use Rattle.std.specs.Prelude.{ℕ, ◌≤◌, List, length};
    ghost use Rattle.nif_base.specs.Limits.{most_schema_bytes};

    ghost Value = { List ℕ };

    ghost view = { λ c. c.rest.now };

    ghost invariant = { λ c. length c.rest.now ≤ most_schema_bytes };
}

/// A kind of byte.
#[derive(Clone, Copy)]
pub enum Kind {
    Blank,
    Name,
    Type,
    Text,
}

pub fn is_allowed_byte(c: u8) -> bool
    ensures { result ≡ is_allowed c }
{
    c >= 0x20 || is_blank(c)
}

pub fn begins_name(c: u8) -> bool
    ensures { result ≡ is_name_start c }
{
    c.is_ascii_lowercase() || c.is_ascii_uppercase() || c == b'_' || c == b':'
}

impl Kind {
    pub fn has(self, c: u8) -> bool
        ensures { result ≡ passes self c }
    {
        match self {
            Kind::Blank => is_blank(c),
            Kind::Name => begins_name(c) || c.is_ascii_digit() || c == b'-' || c == b'.',
            Kind::Type => is_allowed_byte(c) && c != b'[' && c != b'<' && c != b'>',
            Kind::Text => is_allowed_byte(c) && c != b'<' && c != b'&',
        }
    }
}

/// What stands behind all bytes of a kind at the front.
pub fn behind(text: &[u8], kind: Kind) -> &[u8]
    ensures run { (bytes : List ℕ) × Longest (Byte (passes kind)) bytes text.now result.now }
    ensures shorter { length result.now ≤ length text.now }
{
    let mut rest = text;
    while let Some((c, next)) = rest.split_first() {
        if !kind.has(*c) {
            break;
        }
        rest = next;
    }
    rest
}

/// The longest name at the front, and what stands behind it.
fn front_name(text: &[u8]) -> Option<(&[u8], &[u8])>
    ensures name { IfSome result (λ p. Name p.0.now text.now p.1.now) }
    ensures whole { IfSome result (λ p. Never (Byte is_name_byte) p.1.now) }
    ensures shorter { IfSome result (λ p. length p.1.now ≤ length text.now) }
    ensures none { IfNone result (Never Name text.now) }
{
    let (first, more) = text.split_first()?;
    if !begins_name(*first) {
        return None;
    }
    let rest = behind(more, Kind::Name);
    Some((&text[..text.len() - rest.len()], rest))
}

impl<'a> Cursor<'a> {
    pub fn new(text: &'a [u8]) -> Cursor<'a>
        requires { length text.now ≤ most_schema_bytes }
        ensures { result ≡ text.now }
    {
        Cursor { rest: text }
    }

    /// What is left.
    pub fn rest(&self) -> &'a [u8]
        ensures text { result.now ≡ self.now }
        ensures short { length self.now ≤ most_schema_bytes }
    {
        self.rest
    }

    /// Goes on to a later place of the text.
    pub fn go_to(&mut self, rest: &'a [u8])
        requires { length rest.now ≤ length self.old }
        ensures { self.new ≡ rest.now }
    {
        self.rest = rest;
    }

    /// Goes over these bytes where they come next.
    pub fn eat(&mut self, bytes: &[u8]) -> bool
        ensures yes { IsTrue result → Literal bytes.now self.old self.new }
        ensures no { result ≡ false → NoLiteral bytes.now self.old }
        ensures stays { result ≡ false → self.new ≡ self.old }
        ensures shorter { length self.new + (if result then length bytes.now else 0) ≤ length self.old }
        ensures short { length self.old ≤ most_schema_bytes }
    {
        match self.rest.strip_prefix(bytes) {
            Some(rest) => {
                self.rest = rest;
                true
            }
            None => false,
        }
    }

    /// Whether these bytes come next.
    pub fn begins(&self, bytes: &[u8]) -> bool
        ensures yes { IsTrue result → (rest : List ℕ) × Literal bytes.now self.now rest }
        ensures no { result ≡ false → NoLiteral bytes.now self.now }
    {
        match self.rest.strip_prefix(bytes) {
            Some(_) => true,
            None => false,
        }
    }

    /// Goes over one byte of a kind where one comes next.
    pub fn eat_byte(&mut self, kind: Kind) -> bool
        ensures yes { IsTrue result → (c : ℕ) × Byte (passes kind) c self.old self.new }
        ensures no { result ≡ false → Never (Byte (passes kind)) self.old }
        ensures stays { result ≡ false → self.new ≡ self.old }
        ensures shorter { length self.new + (if result then 1 else 0) ≤ length self.old }
    {
        let Some((c, rest)) = self.rest.split_first() else {
            return false;
        };
        if !kind.has(*c) {
            return false;
        }
        self.rest = rest;
        true
    }

    /// Goes over all blanks that come next.
    pub fn skip_blanks(&mut self)
        ensures run { (blanks : List ℕ) × Longest (Byte is_blank) blanks self.old self.new }
        ensures shorter { length self.new ≤ length self.old }
    {
        self.rest = behind(self.rest, Kind::Blank);
    }

    /// The longest name that comes next.
    pub fn name(&mut self) -> Option<&'a [u8]>
        ensures some { OnSome result (Never (Byte is_name_byte) self.new) }
        ensures name { IfSome result (λ name. Name name.now self.old self.new) }
        ensures none { IfNone result (Never Name self.old) }
        ensures stays { IfNone result (self.new ≡ self.old) }
        ensures shorter { length self.new ≤ length self.old }
    {
        let Some((name, rest)) = front_name(self.rest) else {
            return None;
        };
        self.rest = rest;
        Some(name)
    }
}
