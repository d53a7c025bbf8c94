//! Why a type is closed, and why a schema is refused.
use nif_base::Word;
use std::fmt::{self, Formatter, Write};
use thiserror::Error;

/// Why a type is closed: no file that uses it is read.
#[derive(Debug, Clone, Copy, PartialEq, Eq)]
pub enum Closed {
    /// It uses a closed type, and has no reason of its own.
    C0,
    /// A field's type is neither `#T#` nor a declared type other than a block.
    C1,
    /// It inherits from a name that is no declared block.
    C2,
    /// The walk of parents doesn't end.
    C3,
    /// A bad expression, or a bad user or BS version.
    C4,
    /// A name of a path is declared by no earlier field, and the path is no name of the header.
    C5,
    /// A path leads to, or through, something that isn't a number there.
    C6,
    /// A field's type is a generic struct, and it has no template.
    C7,
    /// A template is neither `#T#` nor a declared type that may stand there.
    C8,
    /// A width is the bare name of earlier fields that are neither all numbers nor all arrays of numbers.
    C9,
    /// A basic or a storage is no integer of a known width.
    C10,
    /// A bad version text.
    C11,
    /// It names no declared block as the only or the excluded type.
    C12,
    /// A bad bit member, or one past the bits of the storage.
    C13,
}

/// Why a schema is refused. The faults are S1 to S7 in this order.
#[derive(Drop, Error)]
pub enum SchemaFault {
    /// S1: the text is not in the XML subset. `after` whole children of the root could be read.
    #[error("the schema is not written as elements")]
    NotWritten { after: u32 },
    /// S2: the root element isn't named `niftoolsxml`.
    #[error("the schema has another root")]
    NoRoot,
    /// S3: a declaration, a field or a bit member of this child of the root lacks a name or a type.
    #[error("a name or type is missing")]
    MissingName { element: u32 },
    /// S4: two declarations have this name.
    #[error("a name is declared twice")]
    DuplicateName { name: Word },
    /// S5: a token in this child of the root lacks its name or its string.
    #[error("a token lacks its name or its string")]
    BadToken { element: u32 },
    /// S6: the header or the footer breaks this rule.
    #[error("the header or footer breaks a rule")]
    HeaderRole { rule: u8 },
    /// S7: the schema has more bytes than are read.
    #[error("the schema is too long")]
    SchemaTooLong,
    /// Memory ran out.
    #[error("memory ran out")]
    NoMemory,
}

impl fmt::Debug for SchemaFault {
    fn fmt<W: Write>(&self, f: &mut Formatter<W>) -> fmt::Result {
        f.write_str(match self {
            SchemaFault::NotWritten { .. } => "NotWritten",
            SchemaFault::NoRoot => "NoRoot",
            SchemaFault::MissingName { .. } => "MissingName",
            SchemaFault::DuplicateName { .. } => "DuplicateName",
            SchemaFault::BadToken { .. } => "BadToken",
            SchemaFault::HeaderRole { .. } => "HeaderRole",
            SchemaFault::SchemaTooLong => "SchemaTooLong",
            SchemaFault::NoMemory => "NoMemory",
        })
    }
}
