//! The lists of the header.
ghost use Rattle.std.specs.Prelude.{◌≡◌, ◌&&◌, ◌||◌, [], ◌∷◌, map, codes};
ghost use Rattle.std.specs.List.{list_any};
ghost use Rattle.nif_schema.specs.Declaration.{field};
ghost use Rattle.nif_schema.specs.Schema.{find, fields_of};
ghost use Rattle.nif_schema.specs.Roles.{is_type_count, are_strings, are_numbers, sized_fields, has_type_lists, has_block_lists, has_string_lists, has_lists, has_sized_strings, are_sized, is_once, is_of_basic, is_of_struct, has_length, is_single, is_named, is_bare, is_plain, is_bare_name, has_no_bounds};

use crate::attributes::{has_length, has_no_bounds, is_bare, is_bare_name, is_plain, is_single};
use crate::fields::{Named, fields_of, find_named, is_named, stands};
use crate::types::{is_of_basic, is_of_struct};
use nif_schema::{Field, Fields, Schema};

#[tactic(auto, unfolding(nif_schema::specs::Roles::is_type_count))]
fn is_type_count(schema: &Schema, of: &Field) -> bool
    ensures { result ≡ is_type_count schema.now (field of.now) }
{
    (is_of_basic(schema, b"ushort".as_slice(), of) || is_of_basic(schema, b"uint".as_slice(), of))
        && is_single(of)
}

/// `Num Block Types` stands at most once, of the basic `ushort` or `uint`, no array.
fn has_type_count(schema: &Schema, fields: &Fields) -> bool
    ensures { result ≡ is_once (codes "Num Block Types") (is_type_count schema.now) (map field fields.now) }
{
    match find_named(fields, b"Num Block Types".as_slice()) {
        Named::No => true,
        Named::One { of } => is_type_count(schema, of),
        Named::More => false,
    }
}

/// `Num Strings` stands at most once, of the basic `uint`, no array.
fn has_string_count(schema: &Schema, fields: &Fields) -> bool
    ensures { result ≡ is_once (codes "Num Strings") (λ f. is_of_basic schema.now (codes "uint") f && is_single f)
        (map field fields.now) }
{
    match find_named(fields, b"Num Strings".as_slice()) {
        Named::No => true,
        Named::One { of } => is_of_basic(schema, b"uint".as_slice(), of) && is_single(of),
        Named::More => false,
    }
}

#[tactic(auto, unfolding(nif_schema::specs::Roles::are_strings))]
fn are_strings(schema: &Schema, of: &Field, length: &[u8]) -> bool
    ensures { result ≡ are_strings schema.now length.now (field of.now) }
{
    is_of_struct(schema, b"SizedString".as_slice(), of) && has_length(of, length)
}

#[tactic(auto, unfolding(nif_schema::specs::Roles::are_numbers))]
fn are_numbers(schema: &Schema, of: &Field, basic: &[u8]) -> bool
    ensures { result ≡ are_numbers schema.now basic.now (field of.now) }
{
    is_of_basic(schema, basic, of) && has_length(of, b"Num Blocks".as_slice())
}

/// A list of this name stands at most once, of the struct `SizedString` and with this length.
fn has_strings(schema: &Schema, fields: &Fields, name: &[u8], length: &[u8]) -> bool
    ensures { result ≡ is_once name.now (are_strings schema.now length.now) (map field fields.now) }
{
    match find_named(fields, name) {
        Named::No => true,
        Named::One { of } => are_strings(schema, of, length),
        Named::More => false,
    }
}

/// A list of this name stands at most once, of this basic and as long as there are blocks.
fn has_numbers(schema: &Schema, fields: &Fields, name: &[u8], basic: &[u8]) -> bool
    ensures { result ≡ is_once name.now (are_numbers schema.now basic.now) (map field fields.now) }
{
    match find_named(fields, name) {
        Named::No => true,
        Named::One { of } => are_numbers(schema, of, basic),
        Named::More => false,
    }
}

#[tactic(auto, unfolding(nif_schema::specs::Roles::has_type_lists))]
fn has_type_lists(schema: &Schema, fields: &Fields) -> bool
    ensures { result ≡ has_type_lists schema.now (map field fields.now) }
{
    has_type_count(schema, fields)
        && has_strings(
            schema,
            fields,
            b"Block Types".as_slice(),
            b"Num Block Types".as_slice(),
        )
}

#[tactic(auto, unfolding(nif_schema::specs::Roles::has_block_lists))]
fn has_block_lists(schema: &Schema, fields: &Fields) -> bool
    ensures { result ≡ has_block_lists schema.now (map field fields.now) }
{
    has_numbers(
        schema,
        fields,
        b"Block Type Index".as_slice(),
        b"BlockTypeIndex".as_slice(),
    ) && has_numbers(schema, fields, b"Block Size".as_slice(), b"uint".as_slice())
}

#[tactic(auto, unfolding(nif_schema::specs::Roles::has_string_lists))]
fn has_string_lists(schema: &Schema, fields: &Fields) -> bool
    ensures { result ≡ has_string_lists schema.now (map field fields.now) }
{
    has_string_count(schema, fields)
        && has_strings(
            schema,
            fields,
            b"Strings".as_slice(),
            b"Num Strings".as_slice(),
        )
}

/// Rule 6: the counts and the lists of block types, blocks and strings stand at most once each, of their types and
/// lengths, without `width` and `arg`.
#[tactic(auto, unfolding(nif_schema::specs::Roles::has_lists))]
pub fn has_lists(schema: &Schema, fields: &Fields) -> bool
    ensures { result ≡ has_lists schema.now (map field fields.now) }
{
    has_type_lists(schema, fields)
        && has_block_lists(schema, fields)
        && has_string_lists(schema, fields)
}

fn is_length(schema: &Schema, first: &Field) -> bool
    ensures { result ≡ is_named (codes "Length") (field first.now)
        && (is_of_basic schema.now (codes "uint") (field first.now) && is_bare (field first.now)) }
{
    is_named(first, b"Length".as_slice())
        && is_of_basic(schema, b"uint".as_slice(), first)
        && is_bare(first)
}

fn is_value(schema: &Schema, second: &Field) -> bool
    ensures { result ≡ is_named (codes "Value") (field second.now)
        && (is_of_basic schema.now (codes "char") (field second.now)
        && (is_bare_name (codes "Length") (field second.now).length && (is_plain (field second.now) && has_no_bounds (field second.now)))) }
{
    is_named(second, b"Value".as_slice())
        && is_of_basic(schema, b"char".as_slice(), second)
        && is_bare_name(&second.length, b"Length".as_slice())
        && is_plain(second)
        && has_no_bounds(second)
}

fn are_length_and_value(schema: &Schema, first: &Field, second: &Field) -> bool
    ensures { result ≡ are_sized schema.now (field first.now ∷ field second.now ∷ []) }
{
    is_length(schema, first) && is_value(schema, second)
}

/// Whether these are the fields of a string behind its length.
#[tactic(auto, using(crate::proofs::FieldLemmas::not_two))]
fn are_sized(schema: &Schema, fields: &Fields) -> bool
    ensures { result ≡ are_sized schema.now (map field fields.now) }
{
    if fields.len() != 2 {
        return false;
    }
    are_length_and_value(schema, fields.get(0), fields.get(1))
}

/// Whether `Block Types` or `Strings` stands.
fn has_sized(fields: &Fields) -> bool
    ensures { result ≡ list_any (is_named (codes "Block Types")) (map field fields.now)
        || list_any (is_named (codes "Strings")) (map field fields.now) }
{
    stands(fields, b"Block Types".as_slice()) || stands(fields, b"Strings".as_slice())
}

/// Rule 7: where `Block Types` or `Strings` stands, `SizedString` has exactly the fields `Length` of the basic `uint` and
/// `Value` of the basic `char` with that length, with no other attribute.
#[tactic(auto, unfolding(nif_schema::specs::Roles::has_sized_strings))]
pub fn has_sized_strings(schema: &Schema, fields: &Fields) -> bool
    ensures { result ≡ has_sized_strings schema.now (map field fields.now) }
{
    if !has_sized(fields) {
        return true;
    }
    has_sized_fields(schema)
}

/// Whether `SizedString` has the fields of a string behind its length.
fn has_sized_fields(schema: &Schema) -> bool
    ensures { result ≡ are_sized schema.now (sized_fields schema.now) }
{
    match schema.find(b"SizedString".as_slice()) {
        Some(number) => are_sized(schema, fields_of(schema, number)),
        None => false,
    }
}
