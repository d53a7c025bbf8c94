//! The bytes of one step of a walk, and of one node.
ghost use Rattle.std.specs.Prelude.{◌≡◌, ◌++◌, ℕ, ◌+◌, ◌-◌, ◌^◌, ◌<◌, ◌∷◌, [], List, length, OnOk, OnErr, IsSome, option_and_then};
ghost use Rattle.nif_value.specs.Walking.{next_step};
ghost use Rattle.nif_stream.specs.Putting.{IsSound, Puts, Fails};
ghost use Rattle.nif_encode.specs.Texts.{given, placed, step_text, HasGiven, one_text, where_open, behind_one, depth_after};

use crate::numbers::put_number;
use nif_base::{Order, Sink, WriteFault};
use nif_stream::Putter;
use nif_value::{Step, Walk};

/// How trees are put whose targets are names: the byte order, and the place of each name by its number; none where no
/// block has it.
#[derive(Drop, Clone, Copy)]
pub struct Targets<'a> {
    pub order: Order,
    pub places: &'a [Option<u32>],
}

impl<'a> Targets<'a> {
    /// The place of a target, or none.
    fn place(&self, target: Option<u32>) -> Option<u32>
        ensures { result ≡ option_and_then (placed self.now.places.now) target }
    {
        let Some(name) = target else {
            return None;
        };
        match self.places.get(name as usize) {
            Some(place) => *place,
            None => None,
        }
    }
}

/// What 0xFFFFFFFF stands for in a file: no place.
const NONE: u32 = 0xFFFFFFFF;

/// Puts the bytes of the line or run of bytes that a walk met last.
fn put_bytes<K: Sink>(walk: &mut Walk<'_>, out: &mut Putter<'_, K>) -> Result<(), WriteFault>
    requires bytes { IsSome walk.old.bytes }
    requires sound { IsSound out.old }
    ensures ahead { walk.new.ahead ≡ walk.old.ahead }
    ensures ok { OnOk result (Puts K.grew K.write_faults out.old (given walk.old.bytes) out.new) }
    ensures err { OnErr result (Fails K.grew K.write_faults out.old (given walk.old.bytes) out.new) }
{
    let mut piece = [0u8; 256];
    loop {
        let count = walk.bytes(&mut piece);
        if count == 0 {
            return Ok(());
        }
        match out.put(&piece[..count]) {
            Ok(()) => {}
            Err(WriteFault) => return Err(WriteFault),
        }
    }
}

/// Puts the bytes of a line that a walk met last, and the 0x0A behind them.
#[tactic(auto, using(nif_stream::specs::PutterLaws::puts))]
fn put_line<K: Sink>(walk: &mut Walk<'_>, out: &mut Putter<'_, K>) -> Result<(), WriteFault>
    requires bytes { IsSome walk.old.bytes }
    requires sound { IsSound out.old }
    ensures ahead { walk.new.ahead ≡ walk.old.ahead }
    ensures ok { OnOk result (Puts K.grew K.write_faults out.old (given walk.old.bytes ++ 0x0A ∷ []) out.new) }
    ensures err { OnErr result (Fails K.grew K.write_faults out.old (given walk.old.bytes ++ 0x0A ∷ []) out.new) }
{
    put_bytes(walk, out)?;
    out.put(b"\n")
}

/// Puts the bytes of the step that a walk gave last.
#[tactic(auto, using(nif_stream::specs::PutterLaws::puts))]
fn put_step<K: Sink>(
    walk: &mut Walk<'_>,
    step: Step,
    to: &Targets<'_>,
    out: &mut Putter<'_, K>,
) -> Result<(), WriteFault>
    requires given { HasGiven step walk.old.bytes }
    requires sound { IsSound out.old }
    ensures ahead { walk.new.ahead ≡ walk.old.ahead }
    ensures ok { OnOk result (Puts K.grew K.write_faults out.old (step_text to.now step walk.old.bytes) out.new) }
    ensures err { OnErr result (Fails K.grew K.write_faults out.old (step_text to.now step walk.old.bytes) out.new) }
{
    match step {
        Step::Num {
            width,
            little,
            bits,
        } => put_number(little || to.order == Order::Little, width, bits, out),
        Step::Line { .. } => put_line(walk, out),
        Step::Ref { view } => put_number(
            to.order == Order::Little,
            4,
            to.place(view.target).unwrap_or(NONE) as u64,
            out,
        ),
        Step::Text { index } => put_number(
            to.order == Order::Little,
            4,
            index.unwrap_or(NONE) as u64,
            out,
        ),
        Step::Bytes { .. } => put_bytes(walk, out),
        Step::Group { .. } | Step::Row { .. } | Step::Absent | Step::End => Ok(()),
    }
}

/// How many groups and rows are open after a step.
pub fn step_depth(depth: u32, step: Step) -> u32
    requires { depth < 2 ^ 32 - 1 }
    ensures { result ≡ depth_after depth step }
{
    match step {
        Step::Group { .. } | Step::Row { .. } => depth + 1,
        Step::End => depth.saturating_sub(1),
        _ => depth,
    }
}

/// Puts the bytes of the node that a walk meets next, all that it holds among them, or nothing of an absent member.
pub fn put_one<K: Sink>(
    walk: &mut Walk<'_>,
    to: &Targets<'_>,
    out: &mut Putter<'_, K>,
) -> Result<(), WriteFault>
    requires { IsSound out.old }
    ensures ahead { OnOk result (walk.new.ahead ≡ behind_one 0 walk.old.ahead) }
    ensures ok { OnOk result (Puts K.grew K.write_faults out.old (one_text to.now 0 walk.old.ahead) out.new) }
    ensures err { OnErr result (Fails K.grew K.write_faults out.old (one_text to.now 0 walk.old.ahead) out.new) }
{
    let mut depth = 0u32;
    while let Some(step) = walk.next() {
        match put_step(walk, step, to, out) {
            Ok(()) => {}
            Err(WriteFault) => return Err(WriteFault),
        }
        depth = step_depth(depth, step);
        if depth == 0 {
            return Ok(());
        }
    }
    Ok(())
}

/// Passes over the node that a walk meets next, with all that it holds, or over an absent member.
pub fn pass_one(walk: &mut Walk<'_>)
    ensures { walk.new.ahead ≡ behind_one 0 walk.old.ahead }
{
    let mut depth = 0u32;
    while let Some(step) = walk.next() {
        depth = step_depth(depth, step);
        if depth == 0 {
            return;
        }
    }
}

/// The first step of the node that a walk meets next, or that of an absent member. It passes over all that the node
/// holds.
pub fn member_step(walk: &mut Walk<'_>) -> Option<Step>
    ensures step { result ≡ next_step walk.old.ahead }
    ensures ahead { walk.new.ahead ≡ behind_one 0 walk.old.ahead }
{
    let first = walk.next();
    let Some(step) = first else {
        return None;
    };
    pass_rest(walk, step_depth(0, step));
    first
}

/// Passes over what is left of a node, where so many groups and rows are open.
fn pass_rest(walk: &mut Walk<'_>, levels: u32)
    requires { levels + length walk.old.ahead < 2 ^ 32 }
    ensures { walk.new.ahead ≡ where_open levels (behind_one levels walk.old.ahead) walk.old.ahead }
{
    let mut depth = levels;
    while depth != 0 {
        let Some(step) = walk.next() else {
            return;
        };
        depth = step_depth(depth, step);
    }
}
