//! Elements and their content.
ghost use Rattle.std.specs.Prelude.{◌≡◌, ℕ, ◌+◌, ◌^◌, ◌<◌, ◌≤◌, Bool, true, false, IsTrue, List, [], ◌∷◌, ◌++◌, length, IfOk, OnOk, if◌then◌else◌};
ghost use Rattle.nif_text.specs.Elements.{Nested, PassedOver};
ghost use Rattle.nif_text.specs.Reading.{NeverTo, Read, PieceRead, ContentRead};

use crate::comment::comment;
use crate::cursor::{Cursor, Kind};
use crate::reference::reference;
use crate::start::{finish, start};
use crate::stop::Stop;
use crate::tree::Element;
use std::alloc::Global;

/// Goes over text or a comment where one comes next. Otherwise the text stays where it is.
fn passed_over(text: &mut Cursor<'_>) -> bool
    ensures yes { IsTrue result → PassedOver text.old text.new }
    ensures no { result ≡ false → NeverTo PassedOver text.old }
    ensures stays { result ≡ false → text.new ≡ text.old }
    ensures shorter { length text.new + (if result then 1 else 0) ≤ length text.old }
{
    if text.eat_byte(Kind::Text) {
        return true;
    }
    if let Some(_) = reference(text) {
        return true;
    }
    comment(text)
}

/// The next piece of content. A child goes behind the others. False where the end of the element comes next.
#[cycle(elements)]
fn piece(
    text: &mut Cursor<'_>,
    alloc: Global,
    levels: u32,
    children: &mut Vec<Element>,
) -> Result<bool, Stop>
    ensures read { PieceRead (Nested levels) text.old text.new children.old.items children.new.items result }
    ensures shorter { IfOk result (λ more. length text.new + (if more then 1 else 0) ≤ length text.old) }
    ensures one { length children.new.items ≤ length children.old.items + 1 }
{
    if passed_over(text) {
        return Ok(true);
    }
    if text.begins(b"</") {
        return Ok(false);
    }
    let child = element(text, alloc, levels)?;
    let Ok(()) = children.push(child) else {
        return Err(Stop::NoMemory);
    };
    Ok(true)
}

/// All pieces of content. The children go behind the others.
#[cycle(elements)]
pub fn content(
    text: &mut Cursor<'_>,
    alloc: Global,
    levels: u32,
    children: &mut Vec<Element>,
) -> Result<(), Stop>
    ensures read { ContentRead (Nested levels) text.old text.new children.old.items children.new.items result }
    ensures shorter { OnOk result (length text.new ≤ length text.old) }
    ensures few { length children.new.items ≤ length children.old.items + length text.old + 1 }
{
    while piece(text, alloc, levels, children)? {}
    Ok(())
}

/// An element that nests at most so many levels deep, itself counted.
#[cycle(elements)]
pub fn element(text: &mut Cursor<'_>, alloc: Global, levels: u32) -> Result<Element, Stop>
    ensures read { Read (Nested levels) text.old text.new result }
    ensures shorter { OnOk result (length text.new + 1 ≤ length text.old) }
{
    if levels == 0 {
        return Err(Stop::NotWritten);
    }
    let (name, attrs, empty) = start(text, alloc)?;
    let mut children = Vec::new(alloc);
    if empty {
        return Ok(Element {
            name,
            attrs,
            children,
        });
    }
    content(text, alloc, levels - 1, &mut children)?;
    finish(text, name.bytes())?;
    Ok(Element {
        name,
        attrs,
        children,
    })
}
