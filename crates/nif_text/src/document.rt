//! Schema texts as a whole.
ghost use Rattle.std.specs.Prelude.{◌≡◌, ℕ, ◌+◌, ◌^◌, ◌<◌, ◌≤◌, Bool, true, false, IsTrue, List, [], ◌∷◌, ◌++◌, length, IfOk, IfErr, if◌then◌else◌};
ghost use Rattle.nif_base.specs.Limits.{most_schema_bytes};
ghost use Rattle.nif_text.specs.Parts.{Optional};
ghost use Rattle.nif_text.specs.Comments.{Declaration};
ghost use Rattle.nif_text.specs.Tree.{children_of};
ghost use Rattle.nif_text.specs.Documents.{Aside, TypeAndAsides, Before, Written, Unwritten, IsAfter, IfNotWritten};
ghost use Rattle.nif_text.specs.Reading.{NeverTo, NoDeclaration, Longest, Begins, fault_of, RootRead};

use crate::comment::{comment, declaration, document_type};
use crate::cursor::{Cursor, Kind};
use crate::elements::content;
use crate::start::{finish, start};
use crate::stop::Stop;
use crate::tree::{Element, TextFault};
use nif_base::limits::MOST_ELEMENT_DEPTH;
use std::alloc::Global;

/// How many levels deep the children of the root may nest.
const CHILD_LEVELS: u32 = MOST_ELEMENT_DEPTH - 1;

/// Goes over a blank or a comment where one comes next. Otherwise the text stays where it is.
fn aside(text: &mut Cursor<'_>) -> bool
    ensures yes { IsTrue result → Aside text.old text.new }
    ensures no { result ≡ false → NeverTo Aside text.old }
    ensures stays { result ≡ false → text.new ≡ text.old }
    ensures shorter { length text.new + (if result then 1 else 0) ≤ length text.old }
{
    if text.eat_byte(Kind::Blank) {
        return true;
    }
    comment(text)
}

/// Goes over all blanks and comments that come next.
fn asides(text: &mut Cursor<'_>)
    ensures run { (times : List (Unit {0})) × Longest (λ _. Aside) times text.old text.new }
    ensures shorter { length text.new ≤ length text.old }
{
    while aside(text) {}
}

/// Goes over a declaration where one comes next. False where one begins and does not end.
fn declared(text: &mut Cursor<'_>) -> bool
    ensures yes { IsTrue result → Optional Declaration text.old text.new }
    ensures only { (next : List ℕ) → Optional Declaration text.old next → NoDeclaration next → (result ≡ true)
        × (text.new ≡ next) }
    ensures shorter { length text.new ≤ length text.old }
{
    if !text.begins(b"<?xml") {
        return true;
    }
    declaration(text)
}

/// Goes over a document type, and what stands behind it, where one comes next. False where one begins and does not end.
fn typed(text: &mut Cursor<'_>) -> bool
    ensures yes { IsTrue result → Optional TypeAndAsides text.old text.new }
    ensures only { (next : List ℕ) → Optional TypeAndAsides text.old next → Begins next → (result ≡ true)
        × (text.new ≡ next) }
    ensures shorter { length text.new ≤ length text.old }
{
    if !text.begins(b"<!DOCTYPE") {
        return true;
    }
    if !document_type(text) {
        return false;
    }
    asides(text);
    true
}

/// Goes over all that stands before the root. False where no root can come.
fn before_root(text: &mut Cursor<'_>) -> bool
    ensures yes { IsTrue result → Before text.old text.new }
    ensures only { (root : List ℕ) → Before text.old root → Begins root → (result ≡ true) × (text.new ≡ root) }
    ensures shorter { length text.new ≤ length text.old }
{
    let _mark = text.eat(b"\xEF\xBB\xBF");
    if !declared(text) {
        return false;
    }
    asides(text);
    typed(text)
}

fn fault(stop: Stop, after: usize) -> TextFault
    requires { after ≤ 2 ^ 23 }
    ensures { result ≡ fault_of stop after }
{
    match stop {
        Stop::NotWritten => TextFault::NotWritten {
            after: after as u32,
        },
        Stop::NoMemory => TextFault::NoMemory,
    }
}

/// The root. Its children are counted where it isn't written.
fn root(text: &mut Cursor<'_>, alloc: Global) -> Result<Element, TextFault>
    ensures read { RootRead text.old text.new result }
    ensures few { IfOk result (λ tree. length (children_of tree) < 2 ^ 32) }
{
    let (name, attrs, empty) = match start(text, alloc) {
        Ok(start) => start,
        Err(stop) => return Err(fault(stop, 0)),
    };
    let mut children = Vec::new(alloc);
    if empty {
        return Ok(Element {
            name,
            attrs,
            children,
        });
    }
    if let Err(stop) = content(text, alloc, CHILD_LEVELS, &mut children) {
        return Err(fault(stop, children.len()));
    }
    if let Err(stop) = finish(text, name.bytes()) {
        return Err(fault(stop, children.len()));
    }
    Ok(Element {
        name,
        attrs,
        children,
    })
}

/// The tree of elements that is written by these bytes, at most 2^22. An element has a name, its attributes
/// and the elements right in it; text between them is passed over. `NotWritten` comes exactly where no tree
/// is written by the bytes; its `after` is the greatest number of whole children of the root that a front of
/// the bytes spells, 0 where no root begins.
pub fn read_elements(alloc: Global, bytes: &[u8]) -> Result<Element, TextFault>
    requires { length bytes.now ≤ most_schema_bytes }
    // What is read is written so.
    ensures tree { IfOk result (λ tree. Written tree bytes.now) }
    // A text that isn't read is no spelling of a tree,
    ensures none { IfErr result (λ fault. IfNotWritten fault (λ _. Unwritten bytes.now)) }
    // and the fault tells how many children of the root come before.
    ensures after { IfErr result (λ fault. IfNotWritten fault (λ after. IsAfter bytes.now after)) }
{
    let mut text = Cursor::new(bytes);
    if !before_root(&mut text) {
        return Err(TextFault::NotWritten { after: 0 });
    }
    let root = root(&mut text, alloc)?;
    asides(&mut text);
    if !text.rest().is_empty() {
        return Err(TextFault::NotWritten {
            after: root.children.len() as u32,
        });
    }
    Ok(root)
}
