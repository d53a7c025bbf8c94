//! The starts of elements, and their ends.
ghost use Rattle.std.specs.Prelude.{◌≡◌, ℕ, ◌+◌, ◌^◌, ◌<◌, ◌≤◌, ◌↔◌, Bool, true, false, IsTrue, List, [], ◌∷◌, ◌++◌, length, map, IfOk, OnOk, IfSome, IfNone};
ghost use Rattle.nif_base.specs.Limits.{most_schema_bytes};
ghost use Rattle.nif_text.specs.Parts.{Literal};
ghost use Rattle.nif_text.specs.Elements.{bracket, StartOf, Finish, AllDiffer};
ghost use Rattle.nif_text.specs.Reading.{NoBracket, Read};

use crate::attribute::attributes;
use crate::cursor::Cursor;
use crate::stop::Stop;
use crate::tree::Attrs;
use nif_base::{NoMemory, Word};
use std::alloc::Global;
use std::collections::BTreeSet;

/// What ends a start: true of an element without content.
fn closing_bracket(text: &mut Cursor<'_>) -> Option<bool>
    ensures some { IfSome result (λ empty. Literal (bracket empty) text.old text.new) }
    ensures none { IfNone result (NoBracket text.old) }
    ensures shorter { length text.new ≤ length text.old }
{
    if text.eat(b"/>") {
        return Some(true);
    }
    if text.eat(b">") {
        return Some(false);
    }
    None
}

/// Whether no two attributes have one name.
fn all_differ(alloc: Global, attrs: &Attrs) -> Result<bool, NoMemory>
    ensures { IfOk result (λ differ. IsTrue differ ↔ AllDiffer (map (λ pair. pair.0) attrs.now)) }
{
    let mut names: BTreeSet<&[u8]> = BTreeSet::new(alloc);
    for place in 0..attrs.len() {
        let (name, _) = attrs.get(place);
        match names.insert(name.bytes()) {
            Ok(true) => {}
            Ok(false) => return Ok(false),
            Err(_) => return Err(NoMemory),
        }
    }
    Ok(true)
}

/// A start: the element's name, its attributes, and whether it has no content.
pub fn start(text: &mut Cursor<'_>, alloc: Global) -> Result<(Word, Attrs, bool), Stop>
    ensures read { Read StartOf text.old text.new result }
    ensures shorter { OnOk result (length text.new + 1 ≤ length text.old) }
    ensures short { length text.old ≤ most_schema_bytes }
{
    if !text.eat(b"<") {
        return Err(Stop::NotWritten);
    }
    let Some(name) = text.name() else {
        return Err(Stop::NotWritten);
    };
    let attrs = attributes(text, alloc)?;
    let Some(empty) = closing_bracket(text) else {
        return Err(Stop::NotWritten);
    };
    if !all_differ(alloc, &attrs)? {
        return Err(Stop::NotWritten);
    }
    let name = Word::from_bytes(alloc, name)?;
    Ok((name, attrs, empty))
}

/// The end of an element of this name.
pub fn finish(text: &mut Cursor<'_>, name: &[u8]) -> Result<(), Stop>
    ensures read { Read (λ (_ : Unit {0}). Finish name.now) text.old text.new result }
    ensures shorter { OnOk result (length text.new ≤ length text.old) }
{
    if !text.eat(b"</") {
        return Err(Stop::NotWritten);
    }
    if !text.eat(name) {
        return Err(Stop::NotWritten);
    }
    text.skip_blanks();
    if !text.eat(b">") {
        return Err(Stop::NotWritten);
    }
    Ok(())
}
