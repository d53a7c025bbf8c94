//! What is kept of members, one behind another.
ghost use Rattle.std.specs.Prelude.{◌≡◌, [], ◌∷◌, ◌++◌, length, OnOk};
ghost use Rattle.nif_base.specs.Node as node;
ghost use Rattle.nif_scope.specs.Told.{array_told, bytes_told};
ghost use Rattle.nif_scope.specs.Keeping.{items_behind, plain, without_items};
ghost use Rattle.nif_scope.specs.declared.entries.Entry.TheVariants as entry;

use crate::entries::Entry;
use crate::scopes::number;
use nif_base::NoMemory;

impl Entry {
    /// The entry without its items.
    fn plain(self) -> Entry
        ensures { result ≡ plain self }
    {
        match self {
            Entry::Items { .. } => Entry::Nothing,
            _ => self,
        }
    }

    /// How many entries of items stand behind it.
    fn items_behind(self) -> usize
        ensures { result ≡ items_behind self }
    {
        match self {
            Entry::Items { entries } => entries,
            _ => 0,
        }
    }
}

/// Puts an entry behind the others.
fn tell(entries: &mut Vec<Entry>, entry: Entry) -> Result<(), NoMemory>
    ensures { OnOk result (entries.new.items ≡ entries.old.items ++ entry ∷ []) }
{
    match entries.push(entry) {
        Ok(()) => Ok(()),
        Err(_) => Err(NoMemory),
    }
}

/// How many entries there are without the items of arrays.
fn count_without_items(inner: &[Entry]) -> usize
    ensures { result ≡ length (without_items 0 inner.now) }
{
    let mut count = 0;
    let mut passed = 0usize;
    for place in 0..inner.len() {
        if passed > 0 {
            passed -= 1;
        } else {
            count += 1;
            passed = inner[place].items_behind();
        }
    }
    count
}

/// Puts entries behind the others, without the items of arrays.
fn tell_without_items(entries: &mut Vec<Entry>, inner: &[Entry]) -> Result<(), NoMemory>
    ensures { OnOk result (entries.new.items ≡ entries.old.items ++ without_items 0 inner.now) }
{
    let mut passed = 0usize;
    for entry in inner {
        if passed > 0 {
            passed -= 1;
        } else {
            match tell(entries, entry.plain()) {
                Ok(()) => (),
                Err(fault) => return Err(fault),
            }
            passed = entry.items_behind();
        }
    }
    Ok(())
}

/// Puts what is kept of a group behind the others: `inner` is what was kept of its members while they were read.
pub fn tell_group(entries: &mut Vec<Entry>, inner: &[Entry]) -> Result<(), NoMemory>
    ensures { OnOk result (entries.new.items ≡ entries.old.items
        ++ entry.Group (length (without_items 0 inner.now)) ∷ without_items 0 inner.now) }
{
    let count = count_without_items(inner);
    match tell(entries, Entry::Group { entries: count }) {
        Ok(()) => tell_without_items(entries, inner),
        Err(fault) => Err(fault),
    }
}

/// Puts entries behind the others.
fn tell_all(entries: &mut Vec<Entry>, items: &[Entry]) -> Result<(), NoMemory>
    ensures { OnOk result (entries.new.items ≡ entries.old.items ++ items.now) }
{
    for item in items {
        match tell(entries, *item) {
            Ok(()) => (),
            Err(fault) => return Err(fault),
        }
    }
    Ok(())
}

/// Puts an array behind the others whose items are asked for, with what is kept of them.
pub fn tell_items(entries: &mut Vec<Entry>, items: &[Entry]) -> Result<(), NoMemory>
    ensures { OnOk result (entries.new.items ≡ entries.old.items ++ entry.Items (length items.now) ∷ items.now) }
{
    let count = items.len();
    match tell(entries, Entry::Items { entries: count }) {
        Ok(()) => tell_all(entries, items),
        Err(fault) => Err(fault),
    }
}

/// Puts a run of bytes behind the others whose items are asked for, with what is kept of them.
pub fn tell_bytes(entries: &mut Vec<Entry>, bytes: &[u8]) -> Result<(), NoMemory>
    ensures { OnOk result (entries.new.items ≡ entries.old.items ++ array_told (node.Bytes bytes.now)) }
{
    let count = bytes.len();
    match tell(entries, Entry::Items { entries: count }) {
        Ok(()) => tell_numbers(entries, bytes),
        Err(fault) => Err(fault),
    }
}

/// Puts the numbers that bytes are behind the others.
fn tell_numbers(entries: &mut Vec<Entry>, bytes: &[u8]) -> Result<(), NoMemory>
    ensures { OnOk result (entries.new.items ≡ entries.old.items ++ bytes_told bytes.now) }
{
    for byte in bytes {
        match tell(entries, number(1, u64::from(*byte))) {
            Ok(()) => (),
            Err(fault) => return Err(fault),
        }
    }
    Ok(())
}
