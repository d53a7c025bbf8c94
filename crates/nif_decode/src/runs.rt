//! Runs of bytes, read in pieces.
ghost use Rattle.std.specs.Prelude.{◌≡◌, ◌+◌, ◌<◌, ◌≤◌, ℕ, List, [], ◌∷◌, ◌++◌, length, map, OnOk, OnErr, IsSome};
ghost use Rattle.nif_base.specs.Limits.{most_nodes};
ghost use Rattle.nif_cells.specs.Building.{TakesBytes, lengthened};
ghost use Rattle.nif_value.specs.Trees.{Takes, after};
ghost use Rattle.nif_layout.specs.Leaf.{AreBytes};
ghost use Rattle.nif_scope.specs.Told.{member_told};
ghost use Rattle.nif_decode.specs.Answers.{Answers, IsReady, stand};
ghost use Rattle.nif_decode.specs.Begins.{IsRun, RunFails};
ghost use Rattle.nif_decode.specs.Runs.{bytes_kept, HasRun, RunAnswers};

use crate::faults::{ValueFault, fault_at};
use crate::opens::{begin_run, end_items};
use nif_base::{NoMemory, Order, Source};
use nif_scope::{Entry, scopes};
use nif_stream::Taker;
use nif_value::Store;

/// How many bytes of a short run are taken at once, and of a long one.
const SHORT_PIECE: usize = 64;

const LONG_PIECE: usize = 4096;

/// Keeps bytes as items, where items are asked for.
fn keep_bytes(asked: bool, bytes: &[u8], told: &mut Vec<Entry>) -> Result<(), NoMemory>
    ensures { OnOk result (told.new.items ≡ told.old.items ++ bytes_kept asked bytes.now) }
{
    if !asked {
        return Ok(());
    }
    for byte in bytes {
        match told.push(scopes::number(1, *byte as u64)) {
            Ok(()) => {}
            Err(_) => return Err(NoMemory),
        }
    }
    Ok(())
}

/// Adds a piece to the run of bytes that is open.
fn add_piece(
    asked: bool,
    piece: &[u8],
    store: &mut Store,
    told: &mut Vec<Entry>,
) -> Result<(), NoMemory>
    requires { Takes store.old.building (λ b. TakesBytes b.levels) (lengthened piece.now) }
    ensures bytes { AreBytes piece.now }
    ensures trees { store.new.trees ≡ store.old.trees }
    ensures building { IsSome store.new.building }
    ensures ok { OnOk result (store.new.building ≡ after store.old.building (lengthened piece.now)) }
    ensures told { OnOk result (told.new.items ≡ told.old.items ++ bytes_kept asked piece.now) }
{
    match store.more_bytes(piece) {
        Ok(()) => keep_bytes(asked, piece, told),
        Err(NoMemory) => Err(NoMemory),
    }
}

/// Takes the bytes of a run that is open, in pieces that go through a buffer.
fn take_through<S: Source>(
    buffer: &mut [u8],
    asked: bool,
    count: u64,
    taker: &mut Taker<'_, S>,
    store: &mut Store,
    told: &mut Vec<Entry>,
) -> Result<(), ValueFault>
    requires buffer { 1 ≤ length buffer.old }
    requires run { (nodes : ℕ) → HasRun (stand taker.old nodes store.old told.old.items) }
    ensures trees { store.new.trees ≡ store.old.trees }
    ensures answers { (nodes : ℕ) → RunAnswers S.left S.still S.read_faults asked count
        (stand taker.old nodes store.old told.old.items) (stand taker.new nodes store.new told.new.items) result }
{
    let at = taker.place();
    let mut left = count;
    while left > 0 {
        let length = left.min(buffer.len() as u64) as usize;
        let piece = &mut buffer[..length];
        match taker.take(piece) {
            Ok(()) => {}
            Err(fault) => return Err(fault_at(at, fault)),
        }
        match add_piece(asked, piece, store, told) {
            Ok(()) => {}
            Err(NoMemory) => return Err(ValueFault::NoMemory),
        }
        left -= length as u64;
    }
    Ok(())
}

/// Takes the bytes of a run that is open. The large array of a long run stands here alone, since it is cleared at each
/// call.
#[inline(never)]
fn take_long_run<S: Source>(
    asked: bool,
    count: u64,
    taker: &mut Taker<'_, S>,
    store: &mut Store,
    told: &mut Vec<Entry>,
) -> Result<(), ValueFault>
    requires { (nodes : ℕ) → HasRun (stand taker.old nodes store.old told.old.items) }
    ensures trees { store.new.trees ≡ store.old.trees }
    ensures answers { (nodes : ℕ) → RunAnswers S.left S.still S.read_faults asked count
        (stand taker.old nodes store.old told.old.items) (stand taker.new nodes store.new told.new.items) result }
{
    let mut array = [0; LONG_PIECE];
    take_through(&mut array, asked, count, taker, store, told)
}

/// Takes the bytes of a run that is open, in pieces.
fn take_run<S: Source>(
    asked: bool,
    count: u64,
    taker: &mut Taker<'_, S>,
    store: &mut Store,
    told: &mut Vec<Entry>,
) -> Result<(), ValueFault>
    requires { (nodes : ℕ) → HasRun (stand taker.old nodes store.old told.old.items) }
    ensures trees { store.new.trees ≡ store.old.trees }
    ensures answers { (nodes : ℕ) → RunAnswers S.left S.still S.read_faults asked count
        (stand taker.old nodes store.old told.old.items) (stand taker.new nodes store.new told.new.items) result }
{
    if count > SHORT_PIECE as u64 {
        return take_long_run(asked, count, taker, store, told);
    }
    let mut array = [0; SHORT_PIECE];
    take_through(&mut array, asked, count, taker, store, told)
}

/// Reads a run of so many bytes.
pub(crate) fn read_run<S: Source>(
    order: Order,
    asked: bool,
    count: u64,
    taker: &mut Taker<'_, S>,
    store: &mut Store,
    nodes: &mut u32,
    told: &mut Vec<Entry>,
) -> Result<(), ValueFault>
    requires { IsReady (stand taker.old nodes.old store.old told.old.items) 1 }
    ensures trees { store.new.trees ≡ store.old.trees }
    ensures answers { Answers S.left S.still S.read_faults order (IsRun count) (RunFails count) (member_told asked)
        (stand taker.old nodes.old store.old told.old.items)
        (stand taker.new nodes.new store.new told.new.items) result }
    ensures counted { nodes.new ≤ most_nodes }
{
    let start = told.len();
    match begin_run(taker, store, nodes, told) {
        Ok(()) => {}
        Err(fault) => return Err(fault),
    }
    match take_run(asked, count, taker, store, told) {
        Ok(()) => {}
        Err(fault) => return Err(fault),
    }
    store.close();
    end_items(asked, start, told);
    Ok(())
}
