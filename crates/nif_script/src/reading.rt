//! Scripts.
ghost use Rattle.std.specs.Prelude.{◌≡◌, ℕ, ◌+◌, ◌-◌, ◌^◌, ◌<◌, ◌≤◌, [], length, Some, IfOk, OnOk, IfErr, ◌≢◌};
ghost use Rattle.nif_script.specs.Scripts.{most_script_bytes, edit_of_words, edits_of, IsRefused};
ghost use Rattle.nif_script.specs.Forms.{pieces};
ghost use Rattle.nif_script.specs.Kept.{Adds, IsRefusedAt};

use crate::faults::ScriptFault;
use crate::forms::edit;
use crate::pieces::Pieces;
use nif_base::NoMemory;
use nif_edit::{Edit, Edits};
use std::alloc::Global;

/// The most bytes of a script: 2^20.
pub const MOST_SCRIPT_BYTES: u32 = 1 << 20;

/// The edit of the words of a line, or none where they are of no form.
fn edit_of_words(alloc: Global, line: &[u8]) -> Result<Option<Edit>, NoMemory>
    requires { length line.now ≤ most_script_bytes }
    ensures { IfOk result (λ edit. edit ≡ edit_of_words (pieces 32 line.now)) }
{
    let mut words = Pieces::of(b' ', line);
    match words.next() {
        Some(verb) => edit(alloc, verb, words),
        None => Ok(None),
    }
}

/// Puts the edit of a line behind the others, where the line is not empty.
#[tactic(auto, unfolding(crate::specs::Scripts::line_of))]
fn read_line(alloc: Global, number: u32, line: &[u8], edits: &mut Edits) -> Result<(), ScriptFault>
    requires short { length line.now ≤ most_script_bytes }
    requires room { length edits.old < 2 ^ 32 - 1 }
    ensures ok { OnOk result (Adds line.now edits.old edits.new) }
    ensures few { OnOk result (length edits.new ≤ length edits.old + 1) }
    ensures err { IfErr result (IsRefusedAt number line.now) }
{
    if line.is_empty() {
        return Ok(());
    }
    match edit_of_words(alloc, line) {
        Ok(Some(edit)) => match edits.push(edit) {
            Ok(()) => Ok(()),
            Err(NoMemory) => Err(ScriptFault::NoMemory),
        },
        Ok(None) => Err(ScriptFault::NotALine { line: number }),
        Err(NoMemory) => Err(ScriptFault::NoMemory),
    }
}

/// Puts the edits of all lines into an empty list, up to the first line of no form.
fn read_lines(alloc: Global, bytes: &[u8], edits: &mut Edits) -> Result<(), ScriptFault>
    requires short { length bytes.now ≤ most_script_bytes }
    requires empty { edits.old ≡ [] }
    ensures ok { OnOk result (edits_of bytes.now ≡ Some edits.new) }
    ensures err { IfErr result (IsRefused bytes.now) }
{
    let mut lines = Pieces::of(b'\n', bytes);
    let mut number = 0;
    while let Some(line) = lines.next() {
        number += 1;
        match read_line(alloc, number, line, edits) {
            Ok(()) => {}
            Err(fault) => return Err(fault),
        }
    }
    Ok(())
}

/// The edits of a script of at most 2^20 bytes, in the order of its lines. A line ends with 0x0A, which the last may
/// lack, and an empty line is no edit. `NotALine` comes where a line is of no form, and names the first such line,
/// counted from 1. `ScriptTooLong` is for the caller, who looks at the length: it never comes from here. The time is
/// linear in the script.
pub fn read_script(alloc: Global, bytes: &[u8]) -> Result<Edits, ScriptFault>
    requires { length bytes.now ≤ most_script_bytes }
    // The script spells the edits,
    ensures edits { IfOk result (λ edits. edits_of bytes.now ≡ Some edits) }
    // or it has a first line of no form, and this is it.
    ensures fault { IfErr result (IsRefused bytes.now) }
    ensures within { result ≢ Err ScriptFault.ScriptTooLong }
{
    let mut edits = Edits::new(alloc);
    match read_lines(alloc, bytes, &mut edits) {
        Ok(()) => Ok(edits),
        Err(fault) => Err(fault),
    }
}
