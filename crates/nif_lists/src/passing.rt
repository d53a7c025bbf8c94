//! A walk over one node after another.
ghost use Rattle.std.specs.Prelude.{◌≡◌, ℕ, IsSome, IfOk, OnOk};
ghost use Rattle.nif_encode.specs.Texts.{given, HasGiven, behind_one};
ghost use Rattle.nif_lists.specs.Passing.{run_ahead, kept_one};
ghost use Rattle.nif_lists.specs.Lists.{kept};
ghost use Rattle.nif_lists.specs.declared.roles.Role.TheVariants as role;

use crate::lists::Lists;
use crate::roles::Role;
use nif_base::{NoMemory, Word};
use nif_encode::step_depth;
use nif_schema::Schema;
use nif_value::{Step, Walk};
use std::alloc::Global;

/// Reads the bytes of the line or run of bytes that a walk met last, in place of those that were read before.
fn read_bytes(walk: &mut Walk<'_>, bytes: &mut Vec<u8>) -> Result<(), NoMemory>
    requires { IsSome walk.old.bytes }
    ensures ahead { walk.new.ahead ≡ walk.old.ahead }
    ensures bytes { OnOk result (bytes.new.items ≡ given walk.old.bytes) }
{
    bytes.clear();
    let mut piece = [0u8; 256];
    loop {
        let count = walk.bytes(&mut piece);
        if count == 0 {
            return Ok(());
        }
        match bytes.extend_from_slice(&piece[..count]) {
            Ok(()) => {}
            Err(_) => return Err(NoMemory),
        }
    }
}

/// The run of bytes that a walk meets next, or an empty word where it meets something else.
pub(crate) fn read_run(alloc: Global, walk: &mut Walk<'_>) -> Result<Word, NoMemory>
    ensures { IfOk result (λ word. word ≡ run_ahead walk.old.ahead) }
{
    let mut bytes = Vec::new(alloc);
    match walk.next() {
        Some(Step::Bytes { .. }) => read_bytes(walk, &mut bytes)?,
        _ => {}
    }
    Word::from_bytes(alloc, bytes.as_slice())
}

/// Keeps the block type of a run of bytes.
fn keep_name(
    walk: &mut Walk<'_>,
    schema: &Schema,
    step: Step,
    name: &mut Vec<u8>,
    lists: &mut Lists,
) -> Result<(), NoMemory>
    requires { HasGiven step walk.old.bytes }
    ensures ahead { walk.new.ahead ≡ walk.old.ahead }
    ensures lists { OnOk result (lists.new ≡ kept schema.now role.Types step (given walk.old.bytes) lists.old) }
{
    let Step::Bytes { .. } = step else {
        return Ok(());
    };
    match read_bytes(walk, name) {
        Ok(()) => lists.keep_type(schema, name.as_slice()),
        Err(NoMemory) => Err(NoMemory),
    }
}

/// Keeps what the step that a walk gave last gives to one of the lists. Bytes are read for the types alone.
fn keep_step(
    walk: &mut Walk<'_>,
    schema: &Schema,
    member: Role,
    step: Step,
    name: &mut Vec<u8>,
    lists: &mut Lists,
) -> Result<(), NoMemory>
    requires { HasGiven step walk.old.bytes }
    ensures ahead { walk.new.ahead ≡ walk.old.ahead }
    ensures lists { OnOk result (lists.new ≡ kept schema.now member step (given walk.old.bytes) lists.old) }
{
    match member {
        Role::Types => keep_name(walk, schema, step, name, lists),
        Role::Index => lists.keep_word(step),
        Role::Sizes => lists.keep_size(step),
        Role::Other => Ok(()),
    }
}

/// Keeps what the node that a walk meets next, or an absent member, gives to one of the lists.
pub(crate) fn keep_one(
    alloc: Global,
    walk: &mut Walk<'_>,
    schema: &Schema,
    member: Role,
    lists: &mut Lists,
) -> Result<(), NoMemory>
    ensures ahead { OnOk result (walk.new.ahead ≡ behind_one 0 walk.old.ahead) }
    ensures lists { OnOk result (lists.new ≡ kept_one (kept schema.now member) 0 walk.old.ahead lists.old) }
{
    let mut name = Vec::new(alloc);
    let mut depth = 0u32;
    while let Some(step) = walk.next() {
        match keep_step(walk, schema, member, step, &mut name, lists) {
            Ok(()) => {}
            Err(NoMemory) => return Err(NoMemory),
        }
        depth = step_depth(depth, step);
        if depth == 0 {
            return Ok(());
        }
    }
    Ok(())
}
