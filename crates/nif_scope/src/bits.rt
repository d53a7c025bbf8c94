//! The bits of members of bitfields.
ghost use Rattle.std.specs.Prelude.{◌≡◌, ◌/◌, ◌%◌, ◌^◌};
ghost use Rattle.nif_schema.specs.Declaration.{field};
ghost use Rattle.nif_layout.specs.PathValue.{member_bits};
ghost use Rattle.nif_scope.specs.Lookup.{bits_named, bits_inside};

use nif_schema::{BitMember, BitMembers, Field, Schema, What};
use nif_uses::named;

/// The number without its lowest bits.
fn bits_above(bits: u64, pos: u8) -> u64
    ensures { result ≡ bits / 2 ^ pos }
{
    if pos < 64 {
        return bits >> pos;
    }
    0
}

/// The lowest bits of a number.
fn lowest(bits: u64, width: u8) -> u64
    ensures { result ≡ bits % 2 ^ width }
{
    if width < 64 {
        return bits % (1 << width);
    }
    bits
}

/// The bits of a member, of all bits of its number.
fn member_bits(bits: u64, member: &BitMember) -> u64
    ensures { result ≡ member_bits bits member.now }
{
    lowest(bits_above(bits, member.pos), member.width)
}

/// The bits of the first member of a name.
fn bits_named(members: &BitMembers, name: &[u8], bits: u64) -> Option<u64>
    ensures { result ≡ bits_named name.now bits members.now }
{
    for place in 0..members.len() {
        let member = members.get(place);
        if name == member.name.bytes() {
            return Some(member_bits(bits, member));
        }
    }
    None
}

/// The bits of the first member of a name, where the type of the field is a bitfield.
pub(crate) fn bits_inside(schema: &Schema, name: &[u8], of: &Field, bits: u64) -> Option<u64>
    ensures { result ≡ bits_inside schema.now name.now (field of.now) bits }
{
    let number = named(schema, &of.kind)?;
    match &schema.decl(number).what {
        What::Stored { members, .. } => bits_named(members, name, bits),
        _ => None,
    }
}
