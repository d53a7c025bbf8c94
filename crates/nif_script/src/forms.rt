//! The forms of lines.
ghost use Rattle.std.specs.Prelude.{◌≡◌, ℕ, ◌^◌, ◌<◌, List, [], ◌∷◌, length, codes, Some, None, IfOk};
ghost use Rattle.std.specs.Option.{option_map};
ghost use Rattle.std.specs.List.{list_all};
ghost use Rattle.nif_base.specs.Ascii.{is_between};
ghost use Rattle.nif_script.specs.Forms.{Text, is_name, around, numbers_around, remove_of, copy_of, insert_of, replace_of, move_of, reorder_of, point_of, edit_of};

use crate::numbers::{number, number_or, numbers};
use crate::pieces::Pieces;
use nif_base::{NoMemory, Word};
use nif_edit::Edit;
use std::alloc::Global;

/// Whether all bytes are from 0x21 to 0x7E.
fn all_visible(word: &[u8]) -> bool
    ensures { result ≡ list_all (is_between 0x21 0x7E) word.now }
{
    word.iter().all(|byte| *byte >= 0x21 && *byte <= 0x7E)
}

/// Whether a word may be the name of a type: one or more bytes of 0x21 to 0x7E.
fn is_name(word: &[u8]) -> bool
    ensures { result ≡ is_name word.now }
{
    !word.is_empty() && all_visible(word)
}

/// The words before and behind this one, where they are three.
fn around<'a>(middle: &[u8], mut words: Pieces<'a>) -> Option<(&'a [u8], &'a [u8])>
    ensures { option_map (λ pair. (pair.0.now, pair.1.now)) result ≡ around middle.now words.entry }
{
    let before = words.next()?;
    let word = words.next()?;
    let behind = words.next()?;
    if words.next().is_some() || word != middle {
        return None;
    }
    Some((before, behind))
}

/// Two numbers with this word between them.
fn numbers_around(middle: &[u8], words: Pieces) -> Option<(u32, u32)>
    ensures { result ≡ numbers_around middle.now words.entry }
{
    let (one, other) = around(middle, words)?;
    Some((number(one)?, number(other)?))
}

/// `remove N`
#[tactic(auto, unfolding(crate::specs::Forms::remove_of))]
fn remove(mut words: Pieces) -> Option<Edit>
    ensures { result ≡ remove_of words.entry }
{
    let block = words.next()?;
    if words.next().is_some() {
        return None;
    }
    Some(Edit::Remove {
        block: number(block)?,
    })
}

/// `copy N at P`
#[tactic(auto, unfolding(crate::specs::Forms::copy_of))]
fn copy(words: Pieces) -> Option<Edit>
    ensures { result ≡ copy_of words.entry }
{
    let (block, place) = numbers_around(b"at", words)?;
    Some(Edit::Copy { block, place })
}

/// `replace N with M`
#[tactic(auto, unfolding(crate::specs::Forms::replace_of))]
fn replace(words: Pieces) -> Option<Edit>
    ensures { result ≡ replace_of words.entry }
{
    let (block, by) = numbers_around(b"with", words)?;
    Some(Edit::Replace { block, by })
}

/// `move N to P`
#[tactic(auto, unfolding(crate::specs::Forms::move_of))]
fn move_to(words: Pieces) -> Option<Edit>
    ensures { result ≡ move_of words.entry }
{
    let (block, place) = numbers_around(b"to", words)?;
    Some(Edit::Move { block, place })
}

/// `insert T at P`
#[tactic(auto, unfolding(crate::specs::Forms::insert_of))]
fn insert(alloc: Global, words: Pieces) -> Result<Option<Edit>, NoMemory>
    ensures { IfOk result (λ edit. edit ≡ insert_of words.entry) }
{
    let Some((kind, place)) = around(b"at", words) else {
        return Ok(None);
    };
    if !is_name(kind) {
        return Ok(None);
    }
    let Some(place) = number(place) else {
        return Ok(None);
    };
    match Word::from_bytes(alloc, kind) {
        Ok(kind) => Ok(Some(Edit::Insert { kind, place })),
        Err(NoMemory) => Err(NoMemory),
    }
}

/// `reorder`, then zero or more N
#[tactic(auto, unfolding(crate::specs::Forms::reorder_of))]
fn reorder(alloc: Global, words: Pieces) -> Result<Option<Edit>, NoMemory>
    requires { length words < 2 ^ 32 }
    ensures { IfOk result (λ edit. edit ≡ reorder_of words.entry) }
{
    match numbers(alloc, words) {
        Ok(Some(blocks)) => Ok(Some(Edit::Reorder { blocks })),
        Ok(None) => Ok(None),
        Err(NoMemory) => Err(NoMemory),
    }
}

/// `point N K to M`, where `roots` may stand for N, and `none` for M
#[tactic(auto, unfolding(crate::specs::Forms::point_of))]
fn point(mut words: Pieces) -> Option<Edit>
    ensures { result ≡ point_of words.entry }
{
    let from = words.next()?;
    let (slot, to) = around(b"to", words)?;
    Some(Edit::Point {
        from: number_or(b"roots", from)?,
        slot: number(slot)?,
        to: number_or(b"none", to)?,
    })
}

/// The edit of a first word and those behind it, or none where they are of no form.
#[tactic(auto, unfolding(crate::specs::Forms::edit_of))]
pub(crate) fn edit(alloc: Global, verb: &[u8], words: Pieces) -> Result<Option<Edit>, NoMemory>
    requires { length words < 2 ^ 32 }
    ensures { IfOk result (λ edit. edit ≡ edit_of verb.now words.entry) }
{
    if verb == b"remove".as_slice() {
        return Ok(remove(words));
    }
    if verb == b"copy".as_slice() {
        return Ok(copy(words));
    }
    if verb == b"insert".as_slice() {
        return insert(alloc, words);
    }
    if verb == b"replace".as_slice() {
        return Ok(replace(words));
    }
    if verb == b"move".as_slice() {
        return Ok(move_to(words));
    }
    if verb == b"reorder".as_slice() {
        return reorder(alloc, words);
    }
    if verb == b"point".as_slice() {
        return Ok(point(words));
    }
    Ok(None)
}
