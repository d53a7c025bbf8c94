//! Where the members of the header stand that say something of the blocks.
ghost use Rattle.std.specs.Prelude.{◌≡◌, Some, map, codes};
ghost use Rattle.nif_schema.specs.Declaration.{field};
ghost use Rattle.nif_schema.specs.Schema.{find};
ghost use Rattle.nif_schema.specs.Roles.{Roles};
ghost use Rattle.nif_file.specs.Heads.{ArePlaces, place_in};

use crate::heads::is_name;
use nif_graph::RolePlaces;
use nif_schema::{Fields, Schema};

/// The place of the first field of a name.
pub(crate) fn place_of(fields: &Fields, name: &[u8]) -> Option<u32>
    ensures { result ≡ place_in name.now (map field fields.now) }
{
    for place in 0..fields.len() {
        if is_name(name, fields.get(place).name.bytes()) {
            return Some(place);
        }
    }
    None
}

/// The places of the members that have a role, by the names of the fields.
pub(crate) fn role_places(schema: &Schema, header: u32) -> RolePlaces
    requires roles { Roles schema.now }
    requires header { find schema.now (codes "Header") ≡ Some header }
    ensures { ArePlaces schema.now result }
{
    let fields = &schema.decl(header).fields;
    let Some(num_blocks) = place_of(fields, b"Num Blocks".as_slice()) else {
        unreachable!()
    };
    RolePlaces {
        num_blocks,
        num_types: place_of(fields, b"Num Block Types".as_slice()),
        types: place_of(fields, b"Block Types".as_slice()),
        index: place_of(fields, b"Block Type Index".as_slice()),
        sizes: place_of(fields, b"Block Size".as_slice()),
        num_strings: place_of(fields, b"Num Strings".as_slice()),
        strings: place_of(fields, b"Strings".as_slice()),
    }
}
