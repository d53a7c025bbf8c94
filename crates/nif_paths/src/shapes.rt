//! What the fields of a schema may stand for in a path.
ghost use Rattle.std.specs.Prelude.{◌≡◌, ◌<◌, length};
ghost use Rattle.nif_schema.specs.Declaration.{field};
ghost use Rattle.nif_schema.specs.Paths as spec;
ghost use Rattle.nif_paths.specs.Shaped.{AreMarks, with_names, field_shape};

use nif_base::Word;
use nif_names::Shape;
use nif_schema::{Field, Leaf, Schema, What};
use nif_uses::named;

fn integer_width(what: &What) -> Option<u8>
    ensures { result ≡ spec.integer_width what.now }
{
    match what {
        What::Basic {
            leaf: Leaf::Num {
                width,
                float: false,
                ..
            },
        } => Some(*width),
        _ => None,
    }
}

/// The bytes of the basic that a stored type names as its storage, if that is an integer.
pub fn storage_width(schema: &Schema, storage: &Option<Word>) -> Option<u8>
    ensures { result ≡ spec.storage_width schema.now storage.now }
{
    let Some(name) = storage else {
        return None;
    };
    let Some(number) = schema.find(name.bytes()) else {
        return None;
    };
    integer_width(&schema.decl(number).what)
}

fn is_number_type(schema: &Schema, what: &What) -> bool
    ensures { result ≡ spec.is_number_type schema.now what.now }
{
    match what {
        What::Basic { leaf } => match leaf {
            Leaf::Num { float, .. } => !*float,
            Leaf::Bool => true,
            _ => false,
        },
        What::Stored { storage, .. } => storage_width(schema, storage).is_some(),
        _ => false,
    }
}

/// Whether the names of a type may follow in a path.
fn has_names(schema: &Schema, generic: &[bool], number: u32, what: &What) -> bool
    requires within { number < length schema.now }
    requires marks { AreMarks schema.now generic.now }
    ensures { result ≡ spec.has_names schema.now number what.now }
{
    match what {
        What::Struct => !generic[number as usize],
        What::Stored { members, .. } => members.len() > 0,
        _ => false,
    }
}

/// Its own number, where the names of a type may follow in a path.
fn with_names(schema: &Schema, generic: &[bool], number: u32) -> Option<u32>
    requires within { number < length schema.now }
    requires marks { AreMarks schema.now generic.now }
    ensures { result ≡ with_names schema.now number }
{
    if has_names(schema, generic, number, &schema.decl(number).what) {
        return Some(number);
    }
    None
}

/// What a field may stand for.
pub fn field_shape(schema: &Schema, generic: &[bool], of: &Field) -> Shape
    requires { AreMarks schema.now generic.now }
    ensures { result ≡ field_shape schema.now (field of.now) }
{
    let Some(number) = named(schema, &of.kind) else {
        return Shape {
            number: false,
            row: false,
            inner: None,
        };
    };
    let is_number = is_number_type(schema, &schema.decl(number).what);
    if of.length.is_none() {
        return Shape {
            number: is_number,
            row: false,
            inner: with_names(schema, generic, number),
        };
    }
    Shape {
        number: false,
        row: is_number && of.width.is_none(),
        inner: None,
    }
}
