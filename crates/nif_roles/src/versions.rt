//! The line, the versions and the number of blocks.
ghost use Rattle.std.specs.Prelude.{◌≡◌, ◌<◌, ◌&&◌, ℕ, map, length, codes, slice_get, Some};
ghost use Rattle.nif_schema.specs.Declaration.{field};
ghost use Rattle.nif_schema.specs.Uses.{is_generic};
ghost use Rattle.nif_schema.specs.Roles.{has_line, has_version, has_count, has_user_versions, has_bs_version, is_bs_header, is_of_basic, is_named, is_bare, is_of_byte, is_once_behind};
ghost use Rattle.std.specs.List.{list_any};

use crate::attributes::{is_always, is_bare};
use crate::fields::{
    Named, are_never_before_version, fields_of, find_named, is_after_version, is_named, stands,
};
use crate::types::{is_of_basic, is_of_byte};
use nif_schema::{Field, Fields, Schema, What};
use nif_uses::named;

/// Rule 2: Header begins with `Header String` of the basic `HeaderString`, with no other attribute.
#[tactic(auto, using(crate::proofs::FieldLemmas::first_of), unfolding(nif_schema::specs::Roles::has_line))]
pub fn has_line(schema: &Schema, fields: &Fields) -> bool
    ensures { result ≡ has_line schema.now (map field fields.now) }
{
    if fields.len() == 0 {
        return false;
    }
    is_line(schema, fields.get(0))
}

fn is_line(schema: &Schema, first: &Field) -> bool
    ensures { result ≡ is_named (codes "Header String") (field first.now)
        && (is_of_basic schema.now (codes "HeaderString") (field first.now) && is_bare (field first.now)) }
{
    is_named(first, b"Header String".as_slice())
        && is_of_basic(schema, b"HeaderString".as_slice(), first)
        && is_bare(first)
}

/// Rule 3: Header has one `Version` of the basic `FileVersion`, present in all accepted versions, with no other attribute
/// than `since` and `until`; what stands between the line and it is present in none.
#[tactic(auto, unfolding(nif_schema::specs::Roles::has_version))]
pub fn has_version(schema: &Schema, fields: &Fields) -> bool
    ensures { result ≡ has_version schema.now (map field fields.now) }
{
    match find_named(fields, b"Version".as_slice()) {
        Named::One { of } => is_of_basic(schema, b"FileVersion".as_slice(), of)
            && is_always(of)
            && are_never_before_version(fields),
        _ => false,
    }
}

/// Rule 4: Header has one `Num Blocks` of the basic `ulittle32`, after `Version`, present in all accepted versions, with
/// no other attribute than `since` and `until`.
#[tactic(auto, unfolding(nif_schema::specs::Roles::has_count))]
pub fn has_count(schema: &Schema, fields: &Fields) -> bool
    ensures { result ≡ has_count schema.now (map field fields.now) }
{
    match find_named(fields, b"Num Blocks".as_slice()) {
        Named::One { of } => is_of_basic(schema, b"ulittle32".as_slice(), of)
            && is_always(of)
            && is_after_version(fields, b"Num Blocks".as_slice()),
        _ => false,
    }
}

/// `Endian Type` stands at most once, after `Version`, as an unsigned number of one byte.
fn has_endian_type(schema: &Schema, fields: &Fields) -> bool
    ensures { result ≡ is_once_behind (codes "Endian Type") (is_of_byte schema.now) (map field fields.now) }
{
    match find_named(fields, b"Endian Type".as_slice()) {
        Named::No => is_after_version(fields, b"Endian Type".as_slice()),
        Named::One { of } => of.length.is_none()
            && is_of_byte(schema, of)
            && is_after_version(fields, b"Endian Type".as_slice()),
        Named::More => false,
    }
}

/// A user version of this name stands at most once, after `Version`, of the basic `ulittle32`.
fn has_user_version(schema: &Schema, fields: &Fields, name: &[u8]) -> bool
    ensures { result ≡ is_once_behind name.now (is_of_basic schema.now (codes "ulittle32")) (map field fields.now) }
{
    match find_named(fields, name) {
        Named::No => is_after_version(fields, name),
        Named::One { of } => of.length.is_none()
            && is_of_basic(schema, b"ulittle32".as_slice(), of)
            && is_after_version(fields, name),
        Named::More => false,
    }
}

/// A struct that takes no template and has one field `BS Version`, of the basic `ulittle32` and no array.
fn has_bs_version(schema: &Schema, generic: &[bool], number: u32) -> bool
    requires within { number < length schema.now }
    requires generic_count { length generic.now ≡ length schema.now }
    requires generic { (number : ℕ) → number < length schema.now
        → slice_get generic.now number ≡ Some (is_generic schema.now number) }
    ensures { result ≡ has_bs_version schema.now number }
{
    if !matches!(schema.decl(number).what, What::Struct) || generic[number as usize] {
        return false;
    }
    match find_named(fields_of(schema, number), b"BS Version".as_slice()) {
        Named::One { of } => is_of_basic(schema, b"ulittle32".as_slice(), of)
            && of.length.is_none(),
        _ => false,
    }
}

#[tactic(auto, unfolding(nif_schema::specs::Roles::is_bs_header))]
fn is_bs_header(schema: &Schema, generic: &[bool], of: &Field) -> bool
    requires generic_count { length generic.now ≡ length schema.now }
    requires generic { (number : ℕ) → number < length schema.now
        → slice_get generic.now number ≡ Some (is_generic schema.now number) }
    ensures { result ≡ is_bs_header schema.now (field of.now) }
{
    match named(schema, &of.kind) {
        Some(number) => has_bs_version(schema, generic, number),
        None => false,
    }
}

/// `BS Header` stands at most once, after `Version`, as a struct with a BS version.
fn has_bs_header(schema: &Schema, generic: &[bool], fields: &Fields) -> bool
    requires generic_count { length generic.now ≡ length schema.now }
    requires generic { (number : ℕ) → number < length schema.now
        → slice_get generic.now number ≡ Some (is_generic schema.now number) }
    ensures { result ≡ is_once_behind (codes "BS Header") (is_bs_header schema.now) (map field fields.now) }
{
    match find_named(fields, b"BS Header".as_slice()) {
        Named::No => is_after_version(fields, b"BS Header".as_slice()),
        Named::One { of } => of.length.is_none()
            && is_bs_header(schema, generic, of)
            && is_after_version(fields, b"BS Header".as_slice()),
        Named::More => false,
    }
}

/// Rule 5: `Endian Type`, `User Version`, `User Version 2` and `BS Header` stand at most once each, after `Version`, no
/// arrays, and of their types; the last two don't both stand. `generic` says which structs are generic.
#[tactic(auto, unfolding(nif_schema::specs::Roles::has_user_versions))]
pub fn has_user_versions(schema: &Schema, generic: &[bool], fields: &Fields) -> bool
    requires generic_count { length generic.now ≡ length schema.now }
    requires generic { (number : ℕ) → number < length schema.now
        → slice_get generic.now number ≡ Some (is_generic schema.now number) }
    ensures { result ≡ has_user_versions schema.now (map field fields.now) }
{
    if !has_endian_type(schema, fields)
        || !has_user_version(schema, fields, b"User Version".as_slice())
    {
        return false;
    }
    if !has_user_version(schema, fields, b"User Version 2".as_slice())
        || !has_bs_header(schema, generic, fields)
    {
        return false;
    }
    !has_both(fields)
}

/// Whether `User Version 2` and `BS Header` both stand.
fn has_both(fields: &Fields) -> bool
    ensures { result ≡ list_any (is_named (codes "User Version 2")) (map field fields.now)
        && list_any (is_named (codes "BS Header")) (map field fields.now) }
{
    stands(fields, b"User Version 2".as_slice()) && stands(fields, b"BS Header".as_slice())
}
