//! Why a file is refused.
use nif_base::Word;
use nif_schema::Closed;
use std::fmt::{self, Formatter, Write};
use thiserror::Error;

/// Why a file is refused. The faults are F1 to F8 and F10 to F23 in this order; there is no F9. Places are counted in
/// bytes from the first byte of the file, blocks from 0.
#[derive(Drop, Error)]
pub enum FileFault {
    /// F1: the bytes end inside a node, a type name or a zero word that begins at `at`.
    #[error("the file ended too early")]
    Ended { at: u64 },
    /// F2: the footer ends at `at`, and a byte follows.
    #[error("bytes follow the footer")]
    Trailing { at: u64 },
    /// F3: a node, a type name or a zero word needs a byte past the most bytes of a file, and the file goes on there.
    #[error("the file is too long")]
    TooLong,
    /// F4: the line that begins at `at` is too long.
    #[error("a line is too long")]
    LineTooLong { at: u64 },
    /// F5: the first line has no form of a file's.
    #[error("the first line has another form")]
    BadLine,
    /// F6: the version of the first line is out of range.
    #[error("the version is out of range")]
    VersionRange { number: u32 },
    /// F7: `Version` is another version than that of the line.
    #[error("the version disagrees with the line")]
    VersionDisagrees { line: u32, field: u32 },
    /// F8: `Endian Type` is above 1.
    #[error("the byte order is unknown")]
    EndianValue { value: u8 },
    /// F10: the BS version is above 154.
    #[error("the BS version is out of range")]
    BsRange { value: u32 },
    /// F11: `Num Blocks` is above the most blocks of a file.
    #[error("the file has too many blocks")]
    TooManyBlocks { count: u32 },
    /// F12: the low 15 bits of the index word of a block, `index`, name no entry of `Block Types`.
    #[error("a type index is out of range")]
    TypeIndex { block: u32, index: u16 },
    /// F13: no block type has this name.
    #[error("a block is of an unknown type")]
    UnknownType { block: u32, name: Word },
    /// F14: the type of the block is abstract.
    #[error("a block is of an abstract type")]
    AbstractType { block: u32 },
    /// F15: the type of the block is closed.
    #[error("a block is of a closed type")]
    ClosedType { block: u32, reason: Closed },
    /// F16: the zero word before the value of the block isn't zero.
    #[error("a check word is not zero")]
    CheckWord { block: u32, value: u32 },
    /// F17: the value of the block has another length than `Block Size` says.
    #[error("a block has another size")]
    BlockSize { block: u32, stated: u32, used: u32 },
    /// F18: the reference at `at` is no block's number.
    #[error("a reference is out of range")]
    RefRange { at: u64, value: u32 },
    /// F19: the text index at `at` is no string's number.
    #[error("a text index is out of range")]
    StringRange { at: u64, value: u32 },
    /// F20: the group at `at` would lie too deep.
    #[error("groups lie too deep")]
    TooDeep { at: u64 },
    /// F21: the node or absent member at `at` would be one too many.
    #[error("the file has too many nodes")]
    TooManyNodes { at: u64 },
    /// F22: `Num Block Types` is above the most types of a file.
    #[error("the file has too many types")]
    TooManyTypes { count: u32 },
    /// F23: `Block Type Index` is present, and `Num Block Types` or `Block Types` isn't.
    #[error("the file has no list of types")]
    NoTypeList,
    /// Reading failed.
    #[error("reading failed")]
    ReadFault,
    /// Memory ran out.
    #[error("memory ran out")]
    NoMemory,
}

impl fmt::Debug for FileFault {
    fn fmt<W: Write>(&self, f: &mut Formatter<W>) -> fmt::Result {
        f.write_str(match self {
            FileFault::Ended { .. } => "Ended",
            FileFault::Trailing { .. } => "Trailing",
            FileFault::TooLong => "TooLong",
            FileFault::LineTooLong { .. } => "LineTooLong",
            FileFault::BadLine => "BadLine",
            FileFault::VersionRange { .. } => "VersionRange",
            FileFault::VersionDisagrees { .. } => "VersionDisagrees",
            FileFault::EndianValue { .. } => "EndianValue",
            FileFault::BsRange { .. } => "BsRange",
            FileFault::TooManyBlocks { .. } => "TooManyBlocks",
            FileFault::TypeIndex { .. } => "TypeIndex",
            FileFault::UnknownType { .. } => "UnknownType",
            FileFault::AbstractType { .. } => "AbstractType",
            FileFault::ClosedType { .. } => "ClosedType",
            FileFault::CheckWord { .. } => "CheckWord",
            FileFault::BlockSize { .. } => "BlockSize",
            FileFault::RefRange { .. } => "RefRange",
            FileFault::StringRange { .. } => "StringRange",
            FileFault::TooDeep { .. } => "TooDeep",
            FileFault::TooManyNodes { .. } => "TooManyNodes",
            FileFault::TooManyTypes { .. } => "TooManyTypes",
            FileFault::NoTypeList => "NoTypeList",
            FileFault::ReadFault => "ReadFault",
            FileFault::NoMemory => "NoMemory",
        })
    }
}
