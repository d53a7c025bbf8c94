//! Comments, the declaration and the document type.
ghost use Rattle.std.specs.Prelude.{◌≡◌, ℕ, ◌+◌, ◌^◌, ◌<◌, ◌≤◌, ◌⊎◌, Bool, true, false, IsTrue, List, [], ◌∷◌, ◌++◌, length, if◌then◌else◌};
ghost use Rattle.nif_text.specs.Parts.{Byte, Literal};
ghost use Rattle.nif_text.specs.Bytes.{is_allowed};
ghost use Rattle.nif_text.specs.Comments.{Comment, Declaration, DocumentType};
ghost use Rattle.nif_text.specs.Reading.{Never, NeverTo, SameEnclosed};

use crate::cursor::{Cursor, Kind, behind, is_allowed_byte};

/// Goes on to the first place where these two bytes stand beside each other, or where a byte stands that stands nowhere.
fn go_to_pair(text: &mut Cursor<'_>, first: u8, second: u8)
    ensures same { SameEnclosed first second text.old text.new }
    ensures stops { ((rest : List ℕ) × Literal (first ∷ second ∷ []) text.new rest) ⊎ Never (Byte is_allowed) text.new }
    ensures shorter { length text.new ≤ length text.old }
{
    while !text.begins(&[first, second]) {
        let Some((c, rest)) = text.rest().split_first() else {
            return;
        };
        if !is_allowed_byte(*c) {
            return;
        }
        text.go_to(rest);
    }
}

/// Goes over a comment at a place of its own.
fn comment_ahead(text: &mut Cursor<'_>) -> bool
    ensures yes { IsTrue result → Comment text.old text.new }
    ensures no { result ≡ false → NeverTo Comment text.old }
    ensures shorter { length text.new + (if result then 1 else 0) ≤ length text.old }
{
    if !text.eat(b"<!--") {
        return false;
    }
    go_to_pair(text, b'-', b'-');
    if text.eat(b"-->") {
        return true;
    }
    text.eat(b"--->")
}

/// Goes over a comment where one comes next. Otherwise the text stays where it is.
pub fn comment(text: &mut Cursor<'_>) -> bool
    ensures yes { IsTrue result → Comment text.old text.new }
    ensures no { result ≡ false → NeverTo Comment text.old }
    ensures stays { result ≡ false → text.new ≡ text.old }
    ensures shorter { length text.new + (if result then 1 else 0) ≤ length text.old }
{
    let mut ahead = Cursor::new(text.rest());
    if !comment_ahead(&mut ahead) {
        return false;
    }
    text.go_to(ahead.rest());
    true
}

/// Goes over a declaration.
pub fn declaration(text: &mut Cursor<'_>) -> bool
    ensures yes { IsTrue result → Declaration text.old text.new }
    ensures no { result ≡ false → NeverTo Declaration text.old }
    ensures shorter { length text.new + (if result then 1 else 0) ≤ length text.old }
{
    if !text.eat(b"<?xml") {
        return false;
    }
    go_to_pair(text, b'?', b'>');
    text.eat(b"?>")
}

/// Goes over a document type.
pub fn document_type(text: &mut Cursor<'_>) -> bool
    ensures yes { IsTrue result → DocumentType text.old text.new }
    ensures no { result ≡ false → NeverTo DocumentType text.old }
    ensures shorter { length text.new + (if result then 1 else 0) ≤ length text.old }
{
    if !text.eat(b"<!DOCTYPE") {
        return false;
    }
    text.go_to(behind(text.rest(), Kind::Type));
    text.eat(b">")
}
