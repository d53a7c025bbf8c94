//! The types of fields.
ghost use Rattle.std.specs.Prelude.{◌≡◌, ◌<◌, length};
ghost use Rattle.nif_schema.specs.Declaration.{field};
ghost use Rattle.nif_schema.specs.Uses.{is_struct};
ghost use Rattle.nif_schema.specs.Roles.{is_basic, is_byte, is_stored_byte, declares, is_of_basic, is_of_struct, is_of_byte};

use nif_base::Word;
use nif_schema::{Field, Leaf, Schema, What};
use nif_uses::named;

fn declares_basic(schema: &Schema, name: &[u8]) -> bool
    ensures { result ≡ declares schema.now is_basic name.now }
{
    match schema.find(name) {
        Some(number) => matches!(schema.decl(number).what, What::Basic { .. }),
        None => false,
    }
}

fn declares_struct(schema: &Schema, name: &[u8]) -> bool
    ensures { result ≡ declares schema.now is_struct name.now }
{
    match schema.find(name) {
        Some(number) => matches!(schema.decl(number).what, What::Struct),
        None => false,
    }
}

/// Whether the type of a field is the basic of this name.
pub(crate) fn is_of_basic(schema: &Schema, name: &[u8], of: &Field) -> bool
    ensures { result ≡ is_of_basic schema.now name.now (field of.now) }
{
    of.kind.bytes() == name && declares_basic(schema, name)
}

/// Whether the type of a field is the struct of this name.
pub(crate) fn is_of_struct(schema: &Schema, name: &[u8], of: &Field) -> bool
    ensures { result ≡ is_of_struct schema.now name.now (field of.now) }
{
    of.kind.bytes() == name && declares_struct(schema, name)
}

/// Whether it is a number of one byte, not signed.
fn is_byte(what: &What) -> bool
    ensures { result ≡ is_byte what.now }
{
    match what {
        What::Basic {
            leaf: Leaf::Num {
                width,
                signed,
                float,
                ..
            },
        } => *width == 1 && !(*signed || *float),
        _ => false,
    }
}

fn declares_byte(schema: &Schema, name: &Word) -> bool
    ensures { result ≡ declares schema.now is_byte name.now }
{
    match schema.find(name.bytes()) {
        Some(number) => is_byte(&schema.decl(number).what),
        None => false,
    }
}

fn is_stored_byte(schema: &Schema, what: &What) -> bool
    ensures { result ≡ is_stored_byte schema.now what.now }
{
    match what {
        What::Basic { .. } => is_byte(what),
        What::Stored {
            storage: Some(storage),
            ..
        } => declares_byte(schema, storage),
        _ => false,
    }
}

/// Whether the type of a field is a number of one byte, not signed; a stored type is as its storage is.
pub(crate) fn is_of_byte(schema: &Schema, of: &Field) -> bool
    ensures { result ≡ is_of_byte schema.now (field of.now) }
{
    match named(schema, &of.kind) {
        Some(number) => is_stored_byte(schema, &schema.decl(number).what),
        None => false,
    }
}
