//! A line as the first member of a group.
ghost use Rattle.std.specs.Prelude.{◌≡◌, ◌≤◌, IsSome, Some, None, [], ◌∷◌};
ghost use Rattle.nif_base.specs.Node as node;
ghost use Rattle.nif_cells.specs.Building.{InGroup};
ghost use Rattle.nif_base.specs.Limits.{most_nodes};
ghost use Rattle.nif_stream.specs.Taking as taking;
ghost use Rattle.nif_decode.specs.Answers.{stand};
ghost use Rattle.nif_decode.specs.Lines.{AddsLine, DecodesLine};

use crate::faults::{Bounds, ValueFault, count};
use crate::leaves::add_line;
use crate::scope::Scope;
use crate::takes::{take_line, take_nothing};
use nif_base::{NoMemory, Source};
use nif_scope::Entry;
use nif_stream::Taker;
use nif_value::Store;

/// Reads a line as the first member of the group that is open at the top, and keeps that something stands there.
fn read_first_line<S: Source>(
    into: &mut [u8; 255],
    taker: &mut Taker<'_, S>,
    store: &mut Store,
    nodes: &mut u32,
    told: &mut Vec<Entry>,
) -> Result<usize, ValueFault>
    requires room { 1 ≤ nodes.old }
    requires counted { nodes.old ≤ most_nodes }
    requires sound { taking.IsSound taker.old }
    requires building { store.old.building ≡ Some (record { top = None; levels = InGroup node.End ∷ [] }) }
    requires told { told.old.items ≡ [] }
    ensures trees { store.new.trees ≡ store.old.trees }
    ensures answers { AddsLine S.left S.still S.read_faults into.new
        (stand taker.old nodes.old store.old told.old.items)
        (stand taker.new nodes.new store.new told.new.items) result }
    ensures counted { nodes.new ≤ most_nodes }
{
    match take_nothing(taker) {
        Ok(()) => {}
        Err(fault) => return Err(fault),
    }
    match count(taker.place(), nodes) {
        Ok(()) => {}
        Err(fault) => return Err(fault),
    }
    let length = match take_line(into, taker) {
        Ok(length) => length,
        Err(fault) => return Err(fault),
    };
    match add_line(&into[..length], store, told) {
        Ok(()) => Ok(length),
        Err(NoMemory) => Err(ValueFault::NoMemory),
    }
}

/// Reads a line as the first member of the group that is open at the top of the tree that is being built, and answers
/// how many bytes it has without the 0x0A at its end, which stand in `into`. A fault lets this tree go, and changes no
/// other; the taker may then have moved.
pub fn decode_line<S: Source>(
    scope: &mut Scope,
    into: &mut [u8; 255],
    taker: &mut Taker<'_, S>,
    store: &mut Store,
    bounds: &mut Bounds,
) -> Result<usize, ValueFault>
    requires room { 1 ≤ bounds.old.nodes }
    requires counted { bounds.old.nodes ≤ most_nodes }
    requires sound { taking.IsSound taker.old }
    requires building { store.old.building ≡ Some (record { top = None; levels = InGroup node.End ∷ [] }) }
    requires scope { scope.old ≡ [] }
    ensures blocks { bounds.new.blocks ≡ bounds.old.blocks }
    ensures strings { bounds.new.strings ≡ bounds.old.strings }
    ensures trees { store.new.trees ≡ store.old.trees }
    ensures answers { DecodesLine S.left S.still S.read_faults taker.old taker.new bounds.old.nodes bounds.new.nodes into.new scope.new store.new result }
    ensures counted { bounds.new.nodes ≤ most_nodes }
{
    match read_first_line(into, taker, store, &mut bounds.nodes, &mut scope.entries) {
        Ok(length) => Ok(length),
        Err(fault) => {
            store.abandon();
            return Err(fault);
        }
    }
}
