//! Which numbers are signed, and what they are then.
ghost use Rattle.std.specs.Prelude.{◌≡◌, ◌<◌, ◌^◌, true};
ghost use Rattle.nif_schema.specs.Declaration.{field};
ghost use Rattle.nif_layout.specs.PathValue.{basic_leaf, extended, is_signed, is_signed_leaf, leaf_of};

use nif_schema::{Field, Leaf, Schema, What};
use nif_uses::named;

/// Whether the numbers of a basic are signed.
fn is_signed_leaf(leaf: Leaf) -> bool
    ensures { result ≡ is_signed_leaf leaf }
{
    matches!(leaf, Leaf::Num { signed: true, .. })
}

/// How a basic is spelled.
fn basic_leaf(what: &What) -> Leaf
    ensures { result ≡ basic_leaf what.now }
{
    match what {
        What::Basic { leaf } => *leaf,
        _ => Leaf::Unread,
    }
}

/// How a basic, or the storage of a stored type, is spelled.
pub(crate) fn leaf_of(schema: &Schema, what: &What) -> Leaf
    ensures { result ≡ leaf_of schema.now what.now }
{
    match what {
        What::Basic { leaf } => *leaf,
        What::Stored {
            storage: Some(storage),
            ..
        } => match schema.find(storage.bytes()) {
            Some(number) => basic_leaf(&schema.decl(number).what),
            None => Leaf::Unread,
        },
        _ => Leaf::Unread,
    }
}

/// Whether the numbers of a field are signed.
pub(crate) fn is_signed(schema: &Schema, of: &Field) -> bool
    ensures { result ≡ is_signed schema.now (field of.now) }
{
    match named(schema, &of.kind) {
        Some(number) => is_signed_leaf(leaf_of(schema, &schema.decl(number).what)),
        None => false,
    }
}

/// A signed number of `width` bytes, extended by its sign to 64 bits.
pub(crate) fn extended(width: u8, bits: u64) -> u64
    requires { bits < 256 ^ width }
    ensures { result ≡ extended true width bits }
{
    if width == 0 || width >= 8 {
        return bits;
    }
    let half = 1u64 << (8 * width - 1);
    if bits < half {
        return bits;
    }
    bits + (u64::MAX - (half + (half - 1)))
}
