//! Trees to bytes.
ghost use Rattle.std.specs.Prelude.{◌≡◌, OnOk, OnErr, IsErr, IfSome, IsSomeAnd};
ghost use Rattle.nif_region.specs.Contents.{find};
ghost use Rattle.nif_value.specs.Trees.{IsLive};
ghost use Rattle.nif_stream.specs.Putting.{sink_of, HasFailed, IsSound, Puts, Fails};
ghost use Rattle.nif_encode.specs.Texts.{HasMember, member_text, spelled};

use crate::steps::{Targets, pass_one, put_one};
use nif_base::{Sink, WriteFault};
use nif_stream::Putter;
use nif_value::{Store, TreeId};

/// Puts the bytes that spell a tree, each target as its place. A putter that has failed answers its fault, also where
/// there are none.
pub fn encode_value<K: Sink>(
    store: &Store,
    tree: TreeId,
    to: &Targets<'_>,
    out: &mut Putter<'_, K>,
) -> Result<(), WriteFault>
    requires { IsLive store.now tree.run.key }
    ensures ok { OnOk result (IfSome (find store.now.trees tree.run.key)
        (λ node. Puts K.grew K.write_faults out.old (spelled to.now node) out.new)) }
    ensures err { OnErr result (IfSome (find store.now.trees tree.run.key)
        (λ node. Fails K.grew K.write_faults out.old (spelled to.now node) out.new)) }
    ensures stays { HasFailed out.old → IsErr result × (sink_of out.new ≡ sink_of out.old) }
{
    match out.put(b"") {
        Ok(()) => {}
        Err(WriteFault) => return Err(WriteFault),
    }
    let mut walk = store.walk(tree);
    put_one(&mut walk, to, out)
}

/// Puts the bytes that spell a member of a group, counted from 0, or none where it is absent. Each target is put as its
/// place.
pub fn encode_member<K: Sink>(
    store: &Store,
    tree: TreeId,
    member: u32,
    to: &Targets<'_>,
    out: &mut Putter<'_, K>,
) -> Result<(), WriteFault>
    requires { IsSomeAnd (find store.now.trees tree.run.key) (HasMember member) }
    ensures ok { OnOk result (IfSome (find store.now.trees tree.run.key)
        (λ node. Puts K.grew K.write_faults out.old (member_text to.now member node) out.new)) }
    ensures err { OnErr result (IfSome (find store.now.trees tree.run.key)
        (λ node. Fails K.grew K.write_faults out.old (member_text to.now member node) out.new)) }
    ensures stays { HasFailed out.old → IsErr result × (sink_of out.new ≡ sink_of out.old) }
{
    match out.put(b"") {
        Ok(()) => {}
        Err(WriteFault) => return Err(WriteFault),
    }
    let mut walk = store.walk(tree);
    let _ = walk.next();
    for _ in 0..member {
        pass_one(&mut walk);
    }
    put_one(&mut walk, to, out)
}
