//! Runs of bytes, groups and rows, begun and ended.
ghost use Rattle.std.specs.Prelude.{IsSomeAnd, OnOk, IfErr, ◌≡◌, ◌+◌, ◌-◌, ◌<◌, ◌≤◌, ℕ, List, [], ◌∷◌, ◌++◌, length};
ghost use Rattle.nif_base.specs.Limits.{most_nodes};
ghost use Rattle.nif_base.specs.Node as node;
ghost use Rattle.nif_base.specs.Node.{Node};
ghost use Rattle.nif_cells.specs.Building.{InBytes, InGroup, InRow, TakesAbsent};
ghost use Rattle.nif_scope.specs.declared.entries.Entry.TheVariants as entry;
ghost use Rattle.nif_scope.specs.Told as kept;
ghost use Rattle.nif_scope.specs.Told.{item_told};
ghost use Rattle.nif_decode.specs.Kept.{item_kept, row_head};
ghost use Rattle.nif_decode.specs.Answers.{IsReady, stand};
ghost use Rattle.nif_decode.specs.Begins.{Begins, LeavesOut};

use crate::faults::{ValueFault, count};
use nif_base::{NoMemory, Source};
use nif_scope::Entry;
use nif_stream::Taker;
use nif_value::Store;

/// Keeps one more entry.
fn keep(told: &mut Vec<Entry>, entry: Entry) -> Result<(), ValueFault>
    ensures ok { OnOk result (told.new.items ≡ told.old.items ++ entry ∷ []) }
    ensures err { IfErr result (λ fault. fault ≡ ValueFault.NoMemory) }
{
    match told.push(entry) {
        Ok(()) => Ok(()),
        Err(_) => Err(ValueFault::NoMemory),
    }
}

/// Counts a run of bytes, and begins it.
pub(crate) fn begin_run<S: Source>(
    taker: &Taker<'_, S>,
    store: &mut Store,
    nodes: &mut u32,
    told: &mut Vec<Entry>,
) -> Result<(), ValueFault>
    requires { IsReady (stand taker.now nodes.old store.old told.old.items) 1 }
    ensures trees { store.new.trees ≡ store.old.trees }
    ensures begins { Begins (InBytes []) (entry.Nothing ∷ []) (stand taker.now nodes.old store.old told.old.items)
        (stand taker.now nodes.new store.new told.new.items) result }
    ensures counted { nodes.new ≤ most_nodes }
{
    match count(taker.place(), nodes) {
        Ok(()) => {}
        Err(fault) => return Err(fault),
    }
    match store.open_bytes() {
        Ok(()) => {}
        Err(NoMemory) => return Err(ValueFault::NoMemory),
    }
    keep(told, Entry::Nothing)
}

/// Counts a group, and begins it. Nothing is kept of it yet.
pub(crate) fn begin_group<S: Source>(
    taker: &Taker<'_, S>,
    store: &mut Store,
    nodes: &mut u32,
) -> Result<(), ValueFault>
    requires { IsReady (stand taker.now nodes.old store.old []) 1 }
    ensures trees { store.new.trees ≡ store.old.trees }
    ensures begins { Begins (InGroup node.End) [] (stand taker.now nodes.old store.old [])
        (stand taker.now nodes.new store.new []) result }
    ensures counted { nodes.new ≤ most_nodes }
{
    match count(taker.place(), nodes) {
        Ok(()) => {}
        Err(fault) => return Err(fault),
    }
    match store.open_group() {
        Ok(()) => Ok(()),
        Err(NoMemory) => Err(ValueFault::NoMemory),
    }
}

/// Counts a row, and begins it.
pub(crate) fn begin_row<S: Source>(
    taker: &Taker<'_, S>,
    store: &mut Store,
    nodes: &mut u32,
    told: &mut Vec<Entry>,
) -> Result<(), ValueFault>
    requires { IsReady (stand taker.now nodes.old store.old told.old.items) 1 }
    ensures trees { store.new.trees ≡ store.old.trees }
    ensures begins { Begins (InRow node.End) (entry.Nothing ∷ []) (stand taker.now nodes.old store.old told.old.items)
        (stand taker.now nodes.new store.new told.new.items) result }
    ensures counted { nodes.new ≤ most_nodes }
{
    match count(taker.place(), nodes) {
        Ok(()) => {}
        Err(fault) => return Err(fault),
    }
    match store.open_row() {
        Ok(()) => {}
        Err(NoMemory) => return Err(ValueFault::NoMemory),
    }
    keep(told, Entry::Nothing)
}

/// Says in the entry of an array how many entries of its items stand behind it, where its items are asked for.
pub(crate) fn end_items(asked: bool, start: usize, told: &mut Vec<Entry>)
    requires { start < length told.old.items }
    ensures { (front more : List Entry) → told.old.items ≡ front ++ entry.Nothing ∷ more → length front ≡ start
        → told.new.items ≡ front ++ row_head asked more ∷ more }
{
    if asked {
        let entries = told.len() - start - 1;
        told[start] = Entry::Items { entries };
    }
}

/// What is kept of an item, by the first entry of it as a value.
fn item_of(entry: Entry) -> Entry
    ensures { (node : Node) (more : List Entry) → kept.told node ≡ entry ∷ more → item_told node ≡ result }
{
    match entry {
        Entry::Number { bits, signed } => Entry::Number { bits, signed },
        _ => Entry::Nothing,
    }
}

/// Keeps of an item, whose entries stand from a place on, its number where items are asked for, and nothing else.
pub(crate) fn settle_item(asked: bool, start: usize, told: &mut Vec<Entry>)
    requires { start < length told.old.items }
    ensures { (front : List Entry) (node : Node) → told.old.items ≡ front ++ kept.told node → length front ≡ start
        → told.new.items ≡ front ++ item_kept asked node }
{
    if asked {
        told[start] = item_of(told[start]);
        told.truncate(start + 1);
    } else {
        told.truncate(start);
    }
}

/// Leaves a member of the group that is open out, and keeps that it is absent.
pub(crate) fn leave_out<S: Source>(
    taker: &Taker<'_, S>,
    store: &mut Store,
    nodes: &mut u32,
    told: &mut Vec<Entry>,
) -> Result<(), ValueFault>
    requires ready { IsReady (stand taker.now nodes.old store.old told.old.items) 0 }
    requires group { IsSomeAnd store.old.building (λ b. TakesAbsent b.levels) }
    ensures trees { store.new.trees ≡ store.old.trees }
    ensures answers { LeavesOut (stand taker.now nodes.old store.old told.old.items)
        (stand taker.now nodes.new store.new told.new.items) result }
    ensures counted { nodes.new ≤ most_nodes }
{
    match count(taker.place(), nodes) {
        Ok(()) => {}
        Err(fault) => return Err(fault),
    }
    match store.absent() {
        Ok(()) => {}
        Err(NoMemory) => return Err(ValueFault::NoMemory),
    }
    keep(told, Entry::Absent)
}
