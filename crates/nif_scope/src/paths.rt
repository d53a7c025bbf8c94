//! The values of paths.
ghost use Rattle.std.specs.Prelude.{◌≡◌, [], ◌∷◌};
ghost use Rattle.std.specs.Option.{option_map};
ghost use Rattle.nif_schema.specs.Declaration.{field};
ghost use Rattle.nif_schema.specs.Schema.{line};
ghost use Rattle.nif_layout.specs.PathValue.{fields_in, header_value};
ghost use Rattle.nif_scope.specs.Lookup.{last_told, told_at, told_bits, member_step, step_told, number_told, value_told, follow_told};
ghost use Rattle.nif_scope.specs.Kept.{member_of, told_of, IsOpenField, IsOpenTold};
ghost use Rattle.nif_scope.specs.Scope.{IsSetting, context_of};
ghost use Rattle.nif_scope.specs.Values.{path_at, number_at};
ghost use Rattle.std.specs.Prelude.{None, drop};

use crate::bits::bits_inside;
use crate::entries::Entry;
use crate::members::{Member, last_told, name_told};
use crate::numbers::is_signed;
use crate::settings::{Setting, ValueContext};
use nif_schema::{Field, Path, Schema};
use nif_uses::named;

/// What a path has led to: nothing that is present, a member, or the bits of a member of a bitfield.
#[derive(Drop, Clone, Copy)]
pub(crate) enum Told<'a> {
    Nowhere,
    At { member: Member<'a> },
    Bits { value: u64 },
}

/// What a member that may have been found is.
fn told_at(found: Option<Member<'_>>) -> Told<'_>
    ensures { told_of result ≡ told_at (option_map member_of found.entry) }
{
    match found {
        Some(member) => Told::At { member },
        None => Told::Nowhere,
    }
}

/// What bits that may have been found are.
fn told_bits<'a>(found: Option<u64>) -> Told<'a>
    ensures { told_of result ≡ told_bits found }
{
    match found {
        Some(value) => Told::Bits { value },
        None => Told::Nowhere,
    }
}

/// The last member of a name that is present in a group that is the value of a field.
fn last_inside<'a>(
    schema: &'a Schema,
    name: &[u8],
    of: &Field,
    own: &'a [Entry],
) -> Option<Member<'a>>
    requires { IsOpenField schema.now (field of.now) }
    ensures { option_map member_of result ≡ last_told name.now None (fields_in schema.now (field of.now)) own.now }
{
    let number = named(schema, &of.kind)?;
    last_told(schema, number, name, own)
}

/// Where a name leads from a member.
fn member_step<'a>(
    schema: &'a Schema,
    name: &[u8],
    of: &Field,
    entry: Entry,
    own: &'a [Entry],
) -> Told<'a>
    requires { IsOpenField schema.now (field of.now) }
    ensures { told_of result ≡ member_step schema.now name.now (field of.now) entry own.now }
{
    match entry {
        Entry::Group { .. } => told_at(last_inside(schema, name, of, own)),
        Entry::Number { bits, .. } => told_bits(bits_inside(schema, name, of, bits)),
        _ => Told::Nowhere,
    }
}

/// Where a name leads.
fn step<'a>(schema: &'a Schema, name: &[u8], at: Told<'a>) -> Told<'a>
    requires { IsOpenTold schema.now (told_of at) }
    ensures { told_of result ≡ step_told schema.now name.now (told_of at.entry) }
{
    match at {
        Told::At { member } => member_step(schema, name, member.field, member.entry, member.own),
        _ => Told::Nowhere,
    }
}

/// The number that an entry is, extended by its sign where it is signed, and 0 where it is none.
pub(crate) fn number_told(is_signed: bool, entry: Entry) -> u64
    ensures { result ≡ number_told is_signed entry }
{
    match entry {
        Entry::Number { signed, .. } if is_signed => signed,
        Entry::Number { bits, .. } => bits,
        _ => 0,
    }
}

/// The number that a path has led to, 0 where there is none.
fn value_told(schema: &Schema, at: Told<'_>) -> u64
    ensures { result ≡ value_told schema.now (told_of at.entry) }
{
    match at {
        Told::Nowhere => 0,
        Told::At { member } => number_told(is_signed(schema, member.field), member.entry),
        Told::Bits { value } => value,
    }
}

/// The number that a path leads to behind its first name.
fn follow(schema: &Schema, first: Told<'_>, path: &Path) -> u64
    requires { IsOpenTold schema.now (told_of first) }
    ensures { result ≡ follow_told schema.now (told_of first.entry) (drop 1 path.now) }
{
    let mut at = first;
    for place in 1..path.len() {
        at = step(schema, path.get(place).bytes(), at);
    }
    value_told(schema, at)
}

/// The value of a path that is a name of the header.
fn header_value(context: &ValueContext, path: &Path) -> Option<u64>
    ensures { result ≡ header_value (context_of context.now) path.now }
{
    match path.len() {
        1 => header_name(context, path.get(0).bytes()),
        2 => header_pair(context, path.get(0).bytes(), path.get(1).bytes()),
        _ => None,
    }
}

/// The value of two names of the header.
fn header_pair(context: &ValueContext, name: &[u8], next: &[u8]) -> Option<u64>
    ensures { result ≡ header_value (context_of context.now) (name.now ∷ next.now ∷ []) }
{
    if name == b"BS Header".as_slice() && next == b"BS Version".as_slice() {
        return Some(u64::from(context.context.bs));
    }
    None
}

/// The value of a name of the header.
fn header_name(context: &ValueContext, name: &[u8]) -> Option<u64>
    ensures { result ≡ header_value (context_of context.now) (name.now ∷ []) }
{
    if name == b"Version".as_slice() {
        return Some(u64::from(context.context.version.number));
    }
    if name == b"User Version".as_slice() {
        return Some(u64::from(context.context.user));
    }
    if name == b"User Version 2".as_slice() {
        return Some(u64::from(context.context.bs));
    }
    None
}

/// The value of a path, or none.
#[tactic(auto, using(crate::proofs::OpenLine::open_ends))]
pub(crate) fn path_told(at: &Setting<'_>, entries: &[Entry], path: &Path) -> Option<u64>
    requires { IsSetting at.now }
    ensures { result ≡ path_at at.now entries.now path.now }
{
    prove!(path.len() > 0);
    let name = path.get(0).bytes();
    if let Some(member) = last_told(at.schema, at.number, name, entries) {
        return Some(follow(at.schema, Told::At { member }, path));
    }
    if name_told(at.schema, at.number, name, entries) {
        return Some(follow(at.schema, Told::Nowhere, path));
    }
    header_value(at.context, path)
}

/// The value of a path, 0 where it has none.
pub(crate) fn number_at(at: &Setting<'_>, entries: &[Entry], path: &Path) -> u64
    requires { IsSetting at.now }
    ensures { result ≡ number_at at.now entries.now path.now }
{
    match path_told(at, entries, path) {
        Some(value) => value,
        None => 0,
    }
}
