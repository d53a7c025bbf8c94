//! Members of bitfields.
ghost use Rattle.std.specs.Prelude.{◌≡◌, ◌^◌, ◌<◌, ◌≤◌, false, None, Some, length, IfOk, IfSome, MatchOption, option_and_then};
ghost use Rattle.std.specs.Option.{option_map};
ghost use Rattle.nif_attributes.specs.Attributes.{given};
ghost use Rattle.nif_attributes.specs.Texts.{decimal};
ghost use Rattle.nif_read.specs.Declarations.{is_member, name_in, member_of};
ghost use Rattle.nif_read.specs.Kept.{MembersRead};

use crate::elements::{attrs_of, name_of};
use nif_attributes::attributes::given;
use nif_attributes::numbers::decimal;
use nif_base::{NoMemory, Word};
use nif_schema::{BitMember, BitMembers};
use nif_text::{Attrs, Element};
use std::alloc::Global;

/// The number of an attribute, where it is one of at most `most`.
fn number(attrs: &Attrs, name: &[u8], most: u32) -> Option<u32>
    ensures value { result ≡ option_and_then (decimal most) (given attrs.now name.now) }
    ensures bound { IfSome result (λ n. n ≤ most) }
{
    let text = given(attrs, name)?;
    decimal(most, text)
}

/// The bit member of these attributes, or none where it lacks its name.
#[tactic(auto, unfolding(crate::specs::Declarations::member_of))]
fn member(alloc: Global, attrs: &Attrs) -> Result<Option<BitMember>, NoMemory>
    ensures { IfOk result (λ read. MatchOption read (name_in attrs.now ≡ None)
        (λ member. (name_in attrs.now ≡ Some member.name) × (member_of attrs.now ≡ member))) }
{
    let Some(name) = given(attrs, b"name") else {
        return Ok(None);
    };
    let name = Word::from_bytes(alloc, name)?;
    if let Some(pos) = number(attrs, b"pos", 63) {
        if let Some(width) = number(attrs, b"width", 64) {
            if 1 <= width {
                return Ok(Some(BitMember {
                    name,
                    pos: pos as u8,
                    width: width as u8,
                    bad: false,
                }));
            }
        }
    }
    Ok(Some(BitMember {
        name,
        pos: 0,
        width: 0,
        bad: true,
    }))
}

/// Whether a child of a bitfield is a bit member.
#[tactic(auto, unfolding(crate::specs::Declarations::is_member))]
fn is_member(child: &Element) -> bool
    ensures { result ≡ is_member child.now }
{
    name_of(child) == b"member".as_slice()
}

/// The bit members among these children, or none where one of them lacks its name.
pub(crate) fn members(alloc: Global, children: &[Element]) -> Result<Option<BitMembers>, NoMemory>
    requires { length children.now < 2 ^ 32 }
    ensures { IfOk result (λ read. MembersRead children.now read) }
{
    let mut members = BitMembers::new(alloc);
    for child in children {
        if is_member(child) {
            let Some(member) = member(alloc, attrs_of(child))? else {
                return Ok(None);
            };
            members.push(member)?;
        }
    }
    Ok(Some(members))
}
