//! How basics are spelled in files.
ghost use Rattle.std.specs.Prelude.{◌≡◌, map, Option, Some, None, MatchOption, false};
ghost use Rattle.std.specs.Option.{option_map};
ghost use Rattle.nif_schema.specs.Basic.{listed_leaf, IsLeafOf};
ghost use Rattle.nif_schema.specs.Leaves.{sized, leaf_of};
ghost use Rattle.nif_schema.specs.Leaves.{row_of, leaf_in};

use crate::decls::Leaf;

/// The basics that go by their names.
const LEAVES: [(&[u8], Leaf); 22] = [
    (
        b"uint64",
        Leaf::Num {
            width: 8,
            signed: false,
            little: false,
            float: false,
        },
    ),
    (
        b"int64",
        Leaf::Num {
            width: 8,
            signed: true,
            little: false,
            float: false,
        },
    ),
    (
        b"uint",
        Leaf::Num {
            width: 4,
            signed: false,
            little: false,
            float: false,
        },
    ),
    (
        b"int",
        Leaf::Num {
            width: 4,
            signed: true,
            little: false,
            float: false,
        },
    ),
    (
        b"ulittle32",
        Leaf::Num {
            width: 4,
            signed: false,
            little: true,
            float: false,
        },
    ),
    (
        b"FileVersion",
        Leaf::Num {
            width: 4,
            signed: false,
            little: true,
            float: false,
        },
    ),
    (
        b"StringOffset",
        Leaf::Num {
            width: 4,
            signed: false,
            little: false,
            float: false,
        },
    ),
    (
        b"ushort",
        Leaf::Num {
            width: 2,
            signed: false,
            little: false,
            float: false,
        },
    ),
    (
        b"short",
        Leaf::Num {
            width: 2,
            signed: true,
            little: false,
            float: false,
        },
    ),
    (
        b"BlockTypeIndex",
        Leaf::Num {
            width: 2,
            signed: false,
            little: false,
            float: false,
        },
    ),
    (
        b"byte",
        Leaf::Num {
            width: 1,
            signed: false,
            little: false,
            float: false,
        },
    ),
    (
        b"sbyte",
        Leaf::Num {
            width: 1,
            signed: true,
            little: false,
            float: false,
        },
    ),
    (
        b"char",
        Leaf::Num {
            width: 1,
            signed: false,
            little: false,
            float: false,
        },
    ),
    (
        b"normbyte",
        Leaf::Num {
            width: 1,
            signed: false,
            little: false,
            float: false,
        },
    ),
    (b"bool", Leaf::Bool),
    (
        b"float",
        Leaf::Num {
            width: 4,
            signed: false,
            little: false,
            float: true,
        },
    ),
    (
        b"hfloat",
        Leaf::Num {
            width: 2,
            signed: false,
            little: false,
            float: true,
        },
    ),
    (b"HeaderString", Leaf::Line),
    (b"LineString", Leaf::Line),
    (b"Ref", Leaf::Ref),
    (b"Ptr", Leaf::Ptr),
    (b"NiFixedString", Leaf::Text),
];

/// A number of so many bytes.
fn unsigned(width: u8) -> Leaf
    ensures { result ≡ Leaf.Num width false false false }
{
    Leaf::Num {
        width,
        signed: false,
        little: false,
        float: false,
    }
}

/// The leaf of the first row that has this name.
fn find_leaf(table: &[(&[u8], Leaf)], name: &[u8]) -> Option<Leaf>
    ensures { leaf_in name.now (map row_of table.now) ≡ result }
{
    for (other, leaf) in table {
        if name == *other {
            return Some(*leaf);
        }
    }
    None
}

/// The leaf of a basic that goes by its name.
fn listed_leaf(name: &[u8]) -> Option<Leaf>
    ensures { listed_leaf name.now ≡ result }
{
    find_leaf(&LEAVES, name)
}

/// The leaf of another basic, by its size.
#[tactic(auto, unfolding(crate::specs::Leaves::sized))]
fn sized(size: &[u8]) -> Leaf
    ensures { result ≡ sized size.now }
{
    if size == b"1".as_slice() {
        return unsigned(1);
    }
    if size == b"2".as_slice() {
        return unsigned(2);
    }
    if size == b"4".as_slice() {
        return unsigned(4);
    }
    if size == b"8".as_slice() {
        return unsigned(8);
    }
    Leaf::Unread
}

/// The leaf of a basic, by its name where that is listed, and else by its size.
pub fn leaf_of(name: &[u8], size: Option<&[u8]>) -> Leaf
    ensures value { result ≡ leaf_of name.now (option_map (λ text. text.now) size.entry) }
    ensures own { IsLeafOf name.now result }
{
    match listed_leaf(name) {
        Some(leaf) => leaf,
        None => match size {
            Some(size) => sized(size),
            None => Leaf::Unread,
        },
    }
}
