//! Values without members.
ghost use Rattle.std.specs.Prelude.{◌||◌, ◌-◌, ◌≡◌, ◌≢◌, ◌+◌, ◌^◌, ◌<◌, ◌≤◌, ℕ, length, take, [], ◌∷◌, ◌++◌, IfOk, IfErr, OnOk, OnErr, All, IfSome};
ghost use Rattle.nif_base.specs.Limits.{most_nodes};
ghost use Rattle.nif_base.specs.Node as node;
ghost use Rattle.nif_base.specs.Node.{place_or_none, is_little};
ghost use Rattle.nif_cells.specs.Building.{TakesNode, placed};
ghost use Rattle.nif_value.specs.Trees.{Takes, IsWidth};
ghost use Rattle.nif_layout.specs.Kind as kind;
ghost use Rattle.nif_layout.specs.Leaf.{IsLeaf, IsBelow, AreInLine};
ghost use Rattle.nif_layout.specs.Fails.{LeafFails};
ghost use Rattle.nif_scope.specs.Scope.{context_of};
ghost use Rattle.nif_scope.specs.Told as kept;
ghost use Rattle.nif_decode.specs.Answers.{Adds, Answers, IsReady, stand};

use crate::faults::{ValueFault, count};
use crate::takes::{take_line, take_number};
use nif_base::{NoMemory, Order, Source};
use nif_scope::{Entry, ValueContext, scopes};
use nif_stream::Taker;
use nif_value::{RefView, Store};

/// Adds a number, and keeps it.
fn add_number(
    width: u8,
    little: bool,
    bits: u64,
    store: &mut Store,
    told: &mut Vec<Entry>,
) -> Result<(), NoMemory>
    requires takes { Takes store.old.building TakesNode (placed (node.Num width little bits)) }
    requires width { IsWidth width }
    requires bits { bits < 256 ^ width }
    ensures trees { store.new.trees ≡ store.old.trees }
    ensures adds { Adds (node.Num width little bits)
        (kept.told (node.Num width little bits)) store.old told.old.items store.new told.new.items result }
{
    match store.num(width, little, bits) {
        Ok(()) => {}
        Err(NoMemory) => return Err(NoMemory),
    }
    match told.push(scopes::number(width, bits)) {
        Ok(()) => Ok(()),
        Err(_) => Err(NoMemory),
    }
}

/// Adds a line, given without the 0x0A at its end, and keeps that something stands there.
pub(crate) fn add_line(
    bytes: &[u8],
    store: &mut Store,
    told: &mut Vec<Entry>,
) -> Result<(), NoMemory>
    requires takes { Takes store.old.building TakesNode (placed (node.Line bytes.now)) }
    requires length { length bytes.now ≤ 255 }
    requires one_line { All (λ byte. byte ≢ 0x0A) bytes.now }
    ensures in_line { AreInLine bytes.now }
    ensures trees { store.new.trees ≡ store.old.trees }
    ensures adds { Adds (node.Line bytes.now) (kept.told
        (node.Line bytes.now)) store.old told.old.items store.new told.new.items result }
{
    match store.line(bytes) {
        Ok(()) => {}
        Err(NoMemory) => return Err(NoMemory),
    }
    match told.push(Entry::Nothing) {
        Ok(()) => Ok(()),
        Err(_) => Err(NoMemory),
    }
}

/// Adds a reference, and keeps that something stands there.
fn add_ref(view: RefView, store: &mut Store, told: &mut Vec<Entry>) -> Result<(), NoMemory>
    requires takes { Takes store.old.building TakesNode (placed (node.Ref view.strong view.wanted view.target)) }
    requires target { IfSome view.target (λ target. target < 2 ^ 32 - 1) }
    ensures trees { store.new.trees ≡ store.old.trees }
    ensures adds { Adds (node.Ref view.strong view.wanted view.target) (kept.told (node.Ref view.strong view.wanted view.target)) store.old told.old.items store.new told.new.items result }
{
    match store.refer(view) {
        Ok(()) => {}
        Err(NoMemory) => return Err(NoMemory),
    }
    match told.push(Entry::Nothing) {
        Ok(()) => Ok(()),
        Err(_) => Err(NoMemory),
    }
}

/// Adds the index of a text, and keeps that something stands there.
fn add_text(index: Option<u32>, store: &mut Store, told: &mut Vec<Entry>) -> Result<(), NoMemory>
    requires takes { Takes store.old.building TakesNode (placed (node.Text index)) }
    requires index { IfSome index (λ index. index < 2 ^ 32 - 1) }
    ensures trees { store.new.trees ≡ store.old.trees }
    ensures adds { Adds (node.Text index) (kept.told
        (node.Text index)) store.old told.old.items store.new told.new.items result }
{
    match store.text(index) {
        Ok(()) => {}
        Err(NoMemory) => return Err(NoMemory),
    }
    match told.push(Entry::Nothing) {
        Ok(()) => Ok(()),
        Err(_) => Err(NoMemory),
    }
}

/// Whether the lowest byte of a number comes first.
fn is_low_first(order: Order, little: bool) -> bool
    ensures { result ≡ (little || is_little order) }
{
    if little {
        return true;
    }
    match order {
        Order::Little => true,
        Order::Big => false,
    }
}

/// The place that a number of four bytes stands for, or none; or the number, where it is neither none nor below a
/// bound.
fn place_below(most: u32, value: u64) -> Result<Option<u32>, u32>
    requires { value < 256 ^ 4 }
    ensures below { IfOk result (λ place. IsBelow most place) }
    ensures spelled { IfOk result (λ place. place_or_none place ≡ value) }
    ensures small { IfOk result (λ place. IfSome place (λ k. k < 2 ^ 32 - 1)) }
    ensures value { IfErr result (λ other. other ≡ value) }
    ensures some { OnErr result (value ≢ 0xFFFFFFFF) }
    ensures above { OnErr result (most ≤ value) }
{
    if value == 0xFFFFFFFF {
        return Ok(None);
    }
    if value < most as u64 {
        return Ok(Some(value as u32));
    }
    Err(value as u32)
}

/// Reads a number.
pub(crate) fn read_number<S: Source>(
    context: &ValueContext,
    width: u8,
    little: bool,
    taker: &mut Taker<'_, S>,
    store: &mut Store,
    nodes: &mut u32,
    told: &mut Vec<Entry>,
) -> Result<(), ValueFault>
    requires width { IsWidth width }
    requires ready { IsReady (stand taker.old nodes.old store.old told.old.items) 0 }
    ensures trees { store.new.trees ≡ store.old.trees }
    ensures answers { Answers S.left S.still S.read_faults context.now.context.order
        (IsLeaf (context_of context.now) (kind.Number width little))
        (LeafFails (context_of context.now) (kind.Number width little)) kept.told
        (stand taker.old nodes.old store.old told.old.items)
        (stand taker.new nodes.new store.new told.new.items) result }
    ensures counted { nodes.new ≤ most_nodes }
{
    match count(taker.place(), nodes) {
        Ok(()) => {}
        Err(fault) => return Err(fault),
    }
    let first = is_low_first(context.context.order, little);
    let bits = match take_number(first, width, taker) {
        Ok(bits) => bits,
        Err(fault) => return Err(fault),
    };
    match add_number(width, little, bits, store, told) {
        Ok(()) => Ok(()),
        Err(NoMemory) => Err(ValueFault::NoMemory),
    }
}

/// Reads a line.
pub(crate) fn read_line<S: Source>(
    context: &ValueContext,
    taker: &mut Taker<'_, S>,
    store: &mut Store,
    nodes: &mut u32,
    told: &mut Vec<Entry>,
) -> Result<(), ValueFault>
    requires ready { IsReady (stand taker.old nodes.old store.old told.old.items) 0 }
    ensures trees { store.new.trees ≡ store.old.trees }
    ensures answers { Answers S.left S.still S.read_faults context.now.context.order
        (IsLeaf (context_of context.now) kind.Line) (LeafFails (context_of context.now) kind.Line) kept.told
        (stand taker.old nodes.old store.old told.old.items)
        (stand taker.new nodes.new store.new told.new.items) result }
    ensures counted { nodes.new ≤ most_nodes }
{
    match count(taker.place(), nodes) {
        Ok(()) => {}
        Err(fault) => return Err(fault),
    }
    let mut bytes = [0; 255];
    let length = match take_line(&mut bytes, taker) {
        Ok(length) => length,
        Err(fault) => return Err(fault),
    };
    match add_line(&bytes[..length], store, told) {
        Ok(()) => Ok(()),
        Err(NoMemory) => Err(ValueFault::NoMemory),
    }
}

/// Reads a reference.
pub(crate) fn read_ref<S: Source>(
    context: &ValueContext,
    strong: bool,
    wanted: Option<u32>,
    taker: &mut Taker<'_, S>,
    store: &mut Store,
    nodes: &mut u32,
    told: &mut Vec<Entry>,
) -> Result<(), ValueFault>
    requires ready { IsReady (stand taker.old nodes.old store.old told.old.items) 0 }
    ensures trees { store.new.trees ≡ store.old.trees }
    ensures answers { Answers S.left S.still S.read_faults context.now.context.order
        (IsLeaf (context_of context.now) (kind.Ref strong wanted))
        (LeafFails (context_of context.now) (kind.Ref strong wanted)) kept.told
        (stand taker.old nodes.old store.old told.old.items)
        (stand taker.new nodes.new store.new told.new.items) result }
    ensures counted { nodes.new ≤ most_nodes }
{
    let at = taker.place();
    match count(at, nodes) {
        Ok(()) => {}
        Err(fault) => return Err(fault),
    }
    let first = is_low_first(context.context.order, false);
    let value = match take_number(first, 4, taker) {
        Ok(value) => value,
        Err(fault) => return Err(fault),
    };
    let place = match place_below(context.blocks, value) {
        Ok(place) => place,
        Err(value) => return Err(ValueFault::RefRange { at, value }),
    };
    match add_ref(
        RefView {
            strong,
            wanted,
            target: place,
        },
        store,
        told,
    ) {
        Ok(()) => Ok(()),
        Err(NoMemory) => Err(ValueFault::NoMemory),
    }
}

/// Reads the index of a text.
pub(crate) fn read_text<S: Source>(
    context: &ValueContext,
    taker: &mut Taker<'_, S>,
    store: &mut Store,
    nodes: &mut u32,
    told: &mut Vec<Entry>,
) -> Result<(), ValueFault>
    requires ready { IsReady (stand taker.old nodes.old store.old told.old.items) 0 }
    ensures trees { store.new.trees ≡ store.old.trees }
    ensures answers { Answers S.left S.still S.read_faults context.now.context.order
        (IsLeaf (context_of context.now) kind.Text) (LeafFails (context_of context.now) kind.Text) kept.told
        (stand taker.old nodes.old store.old told.old.items)
        (stand taker.new nodes.new store.new told.new.items) result }
    ensures counted { nodes.new ≤ most_nodes }
{
    let at = taker.place();
    match count(at, nodes) {
        Ok(()) => {}
        Err(fault) => return Err(fault),
    }
    let first = is_low_first(context.context.order, false);
    let value = match take_number(first, 4, taker) {
        Ok(value) => value,
        Err(fault) => return Err(fault),
    };
    let place = match place_below(context.strings, value) {
        Ok(place) => place,
        Err(value) => return Err(ValueFault::StringRange { at, value }),
    };
    match add_text(place, store, told) {
        Ok(()) => Ok(()),
        Err(NoMemory) => Err(ValueFault::NoMemory),
    }
}
