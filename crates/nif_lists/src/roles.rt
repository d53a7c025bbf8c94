//! Which of the lists a member of the header is.
ghost use Rattle.std.specs.Prelude.{◌≡◌};
ghost use Rattle.nif_lists.specs.Lists.{is_at, role_at};

use nif_graph::RolePlaces;

/// A list of the header, or another member.
#[derive(Debug, Drop, Clone, Copy, PartialEq, Eq)]
pub(crate) enum Role {
    Types,
    Index,
    Sizes,
    Other,
}

/// Whether a place is there, and is this.
fn is_at(place: Option<u32>, member: u32) -> bool
    ensures { result ≡ is_at place member }
{
    match place {
        Some(place) => place == member,
        None => false,
    }
}

/// What the member at a place is.
pub(crate) fn role_at(places: &RolePlaces, member: u32) -> Role
    ensures { result ≡ role_at places.now member }
{
    if is_at(places.types, member) {
        Role::Types
    } else if is_at(places.index, member) {
        Role::Index
    } else if is_at(places.sizes, member) {
        Role::Sizes
    } else {
        Role::Other
    }
}
