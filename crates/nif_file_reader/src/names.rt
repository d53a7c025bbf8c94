//! The name of the type that stands before a block, where the file isn't indexed.
ghost use Rattle.std.specs.Prelude.{◌≡◌, ◌+◌, List, ℕ, length, IfOk, IfErr};
ghost use Rattle.nif_stream.specs.declared.takers.Taker as takers;
ghost use Rattle.nif_stream.specs.Taking.{place_of, Takes};
ghost use Rattle.nif_layout.specs.LeafFault.{shortage};
ghost use Rattle.nif_decode.specs.Answers.{Ends, IsReadyTaker};
ghost use Rattle.nif_decode.specs.Faults.{cause};
ghost use Rattle.nif_file.specs.Files.{sized_string};
ghost use Rattle.nif_file.specs.FileFails.{PartFails, sized_needs};
ghost use Rattle.nif_file_reader.specs.Halting.{Halts};

use nif_base::{Order, Source};
use nif_decode::{ValueFault, fault_at, take_number};
use nif_file::{FileFault, of_value};
use nif_stream::Taker;
use std::alloc::Global;

/// How many bytes of a name are taken at once.
const PIECE: usize = 256;

/// Takes so many bytes, in pieces. They belong to a part that begins at `at`.
fn take_bytes<S: Source>(
    alloc: Global,
    at: u64,
    count: u32,
    taker: &mut Taker<'_, S>,
) -> Result<Vec<u8>, ValueFault>
    requires { IsReadyTaker taker.old }
    ensures ok { IfOk result (λ bytes. Takes S.left S.still S.read_faults taker.old bytes.items taker.new) }
    ensures count { IfOk result (λ bytes. length bytes.items ≡ count) }
    ensures err { IfErr result (λ fault. (start : takers.Taker S) (front : List ℕ)
        → Takes S.left S.still S.read_faults start front taker.old → place_of start ≡ at
        → Ends S.left S.still S.read_faults (shortage (length front + count)) start taker.new (cause fault)) }
{
    let mut bytes = Vec::new(alloc);
    let mut array = [0; PIECE];
    let mut left = count as usize;
    while left > 0 {
        let length = left.min(PIECE);
        let piece = &mut array[..length];
        match taker.take(piece) {
            Ok(()) => {}
            Err(fault) => return Err(fault_at(at, fault)),
        }
        match bytes.extend_from_slice(piece) {
            Ok(()) => {}
            Err(_) => return Err(ValueFault::NoMemory),
        }
        left -= length;
    }
    Ok(bytes)
}

/// Takes a sized string: its length, and so many bytes.
pub(crate) fn take_sized<S: Source>(
    alloc: Global,
    order: Order,
    taker: &mut Taker<'_, S>,
) -> Result<Vec<u8>, FileFault>
    requires { IsReadyTaker taker.old }
    ensures ok { IfOk result (λ name. Takes S.left S.still S.read_faults taker.old
        (sized_string order name.items) taker.new) }
    ensures err { IfErr result (λ fault. (nodes : ℕ)
        → Halts S.left S.still S.read_faults (λ total at stop. PartFails total
        (sized_needs order at.left) at stop) nodes taker.old taker.new fault) }
{
    let at = taker.place();
    let length = match take_number(order == Order::Little, 4, taker) {
        Ok(length) => length as u32,
        Err(fault) => return Err(of_value(fault)),
    };
    match take_bytes(alloc, at, length, taker) {
        Ok(name) => Ok(name),
        Err(fault) => Err(of_value(fault)),
    }
}
