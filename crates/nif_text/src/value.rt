//! Values of attributes.
ghost use Rattle.std.specs.Prelude.{◌≡◌, ℕ, ◌+◌, ◌^◌, ◌<◌, ◌≤◌, Bool, true, false, List, [], ◌∷◌, ◌++◌, length, IfOk, OnOk, MatchBool, if◌then◌else◌};
ghost use Rattle.std.specs.Char.{encode_utf8};
ghost use Rattle.nif_text.specs.Attributes.{is_value_byte, kept, ValuePart, joined, Quoted, Value, Assigned};
ghost use Rattle.nif_text.specs.Reading.{Never, Longest, Read, IsQuote};

use crate::cursor::{Cursor, Kind, is_allowed_byte};
use crate::reference::reference;
use crate::stop::Stop;
use nif_base::{NoMemory, Word};
use std::alloc::Global;

fn stands_in_value(quote: u8, c: u8) -> bool
    ensures { result ≡ is_value_byte quote c }
{
    is_allowed_byte(c) && c != b'<' && c != b'&' && c != quote
}

fn kept_byte(c: u8) -> u8
    ensures { result ≡ kept c }
{
    if Kind::Blank.has(c) { b' ' } else { c }
}

fn push_byte(out: &mut Vec<u8>, c: u8) -> Result<(), NoMemory>
    ensures { OnOk result (out.new.items ≡ out.old.items ++ c ∷ []) }
{
    match out.push(c) {
        Ok(()) => Ok(()),
        Err(_) => Err(NoMemory),
    }
}

fn push_character(out: &mut Vec<u8>, c: char) -> Result<(), NoMemory>
    ensures { OnOk result (out.new.items ≡ out.old.items ++ encode_utf8 c) }
{
    let mut buffer = [0u8; 4];
    let text = c.encode_utf8(&mut buffer);
    match out.extend_from_slice(text.as_bytes()) {
        Ok(()) => Ok(()),
        Err(_) => Err(NoMemory),
    }
}

/// Puts what the next part of a value stands for behind `out`. False where no part comes next, and the text then stays where it is.
fn value_part(text: &mut Cursor<'_>, quote: u8, out: &mut Vec<u8>) -> Result<bool, NoMemory>
    ensures part { IfOk result (λ more. MatchBool more
        ((bytes : List ℕ) × ValuePart quote bytes text.old text.new × (out.new.items ≡ out.old.items ++ bytes))
        (Never (ValuePart quote) text.old × (text.new ≡ text.old) × (out.new.items ≡ out.old.items))) }
    ensures shorter { IfOk result (λ more. length text.new + (if more then 1 else 0) ≤ length text.old) }
{
    if let Some((c, rest)) = text.rest().split_first()
        && stands_in_value(quote, *c)
    {
        push_byte(out, kept_byte(*c))?;
        text.go_to(rest);
        return Ok(true);
    }
    let Some(c) = reference(text) else {
        return Ok(false);
    };
    push_character(out, c)?;
    Ok(true)
}

/// Puts what all parts that come next stand for behind `out`.
fn value_parts(text: &mut Cursor<'_>, quote: u8, out: &mut Vec<u8>) -> Result<(), NoMemory>
    ensures run { OnOk result ((parts : List (List ℕ)) × Longest (ValuePart quote) parts text.old text.new
        × (out.new.items ≡ out.old.items ++ joined parts)) }
    ensures shorter { OnOk result (length text.new ≤ length text.old) }
{
    while value_part(text, quote, out)? {}
    Ok(())
}

/// The rest of a value behind its first quote.
fn quoted(text: &mut Cursor<'_>, alloc: Global, quote: u8) -> Result<Word, Stop>
    requires { IsQuote quote }
    ensures value { Read (Quoted quote) text.old text.new result }
    ensures shorter { OnOk result (length text.new ≤ length text.old) }
{
    let mut bytes = Vec::new(alloc);
    value_parts(text, quote, &mut bytes)?;
    if !text.eat(&[quote]) {
        return Err(Stop::NotWritten);
    }
    let value = Word::from_bytes(alloc, bytes.as_slice())?;
    Ok(value)
}

/// A value in its quotes.
pub fn value(text: &mut Cursor<'_>, alloc: Global) -> Result<Word, Stop>
    ensures value { Read Value text.old text.new result }
    ensures shorter { OnOk result (length text.new ≤ length text.old) }
{
    if text.eat(b"\"") {
        return quoted(text, alloc, b'"');
    }
    if text.eat(b"'") {
        return quoted(text, alloc, b'\'');
    }
    Err(Stop::NotWritten)
}

/// Blanks, `=`, blanks and a value.
pub fn assigned(text: &mut Cursor<'_>, alloc: Global) -> Result<Word, Stop>
    ensures value { Read Assigned text.old text.new result }
    ensures shorter { OnOk result (length text.new ≤ length text.old) }
{
    text.skip_blanks();
    if !text.eat(b"=") {
        return Err(Stop::NotWritten);
    }
    text.skip_blanks();
    value(text, alloc)
}
