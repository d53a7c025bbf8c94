//! The fields of a struct by their names.
ghost use Rattle.std.specs.Prelude.{◌≡◌, ◌<◌, map, length, drop, codes};
ghost use Rattle.std.specs.List.{list_any, list_all};
ghost use Rattle.nif_schema.specs.Declaration.{field};
ghost use Rattle.nif_schema.specs.Schema.{fields_of};
ghost use Rattle.nif_schema.specs.Roles.{is_named, of_name, before_name, is_after_version, is_never};
ghost use Rattle.nif_roles.specs.Named.{AreNamed};

use crate::attributes::is_never;
use nif_schema::{Field, Fields, Schema};

/// The fields of a name: none, one, or more.
#[derive(Drop)]
pub(crate) enum Named<'a> {
    No,
    One { of: &'a Field },
    More,
}

/// The own fields of a declaration.
pub(crate) fn fields_of(schema: &Schema, number: u32) -> &Fields
    requires { number < length schema.now }
    ensures { map field result.now ≡ fields_of schema.now number }
{
    &schema.decl(number).fields
}

pub(crate) fn is_named(of: &Field, name: &[u8]) -> bool
    ensures { result ≡ is_named name.now (field of.now) }
{
    name == of.name.bytes()
}

/// Whether there is a field of this name.
pub(crate) fn stands(fields: &Fields, name: &[u8]) -> bool
    ensures { result ≡ list_any (is_named name.now) (map field fields.now) }
{
    for place in 0..fields.len() {
        if is_named(fields.get(place), name) {
            return true;
        }
    }
    false
}

/// The fields of this name.
pub(crate) fn find_named<'a>(fields: &'a Fields, name: &[u8]) -> Named<'a>
    ensures { AreNamed (of_name name.now (map field fields.now)) result }
{
    let mut found = Named::No;
    for place in 0..fields.len() {
        let of = fields.get(place);
        if is_named(of, name) {
            match found {
                Named::No => found = Named::One { of },
                _ => return Named::More,
            }
        }
    }
    found
}

/// Whether no field of this name stands before `Version`.
pub(crate) fn is_after_version(fields: &Fields, name: &[u8]) -> bool
    ensures { result ≡ is_after_version name.now (map field fields.now) }
{
    for place in 0..fields.len() {
        let of = fields.get(place);
        if is_named(of, b"Version".as_slice()) {
            return true;
        }
        if is_named(of, name) {
            return false;
        }
    }
    true
}

/// Whether each field behind the first and before `Version` is present in no accepted version.
pub(crate) fn are_never_before_version(fields: &Fields) -> bool
    ensures { result ≡ list_all is_never (before_name (codes "Version") (drop 1 (map field fields.now))) }
{
    for place in 1..fields.len() {
        let of = fields.get(place);
        if is_named(of, b"Version".as_slice()) {
            return true;
        }
        if !is_never(of) {
            return false;
        }
    }
    true
}
