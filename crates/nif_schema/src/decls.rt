//! Declarations of types.
use crate::fields::Fields;
use crate::members::BitMembers;
use nif_base::Word;

/// How a basic is spelled in a file.
#[derive(Debug, Clone, Copy, PartialEq, Eq)]
pub enum Leaf {
    /// A number of `width` bytes. It is in the order of the file, unless it is `little` in every file. One that
    /// is `signed` is extended by its sign in expressions, and a `float` is a bit pattern and no number of them.
    Num {
        width: u8,
        signed: bool,
        little: bool,
        float: bool,
    },
    /// A number of 4 bytes below version 4.1.0.1, and of one byte from there on.
    Bool,
    /// At most 255 bytes without 0x0A, then 0x0A.
    Line,
    /// The number of a block, of 4 bytes, as a strong reference.
    Ref,
    /// The number of a block, of 4 bytes, as a weak reference.
    Ptr,
    /// The number of a string of the header, of 4 bytes.
    Text,
    /// Nothing that can be read.
    Unread,
}

/// What a declaration declares.
#[derive(Drop)]
pub enum What {
    /// A basic.
    Basic {
        leaf: Leaf,
    },
    /// An enum, bitflags or bitfield, stored as the basic that is named. Only a bitfield has members.
    Stored {
        storage: Option<Word>,
        members: BitMembers,
    },
    /// A struct.
    Struct,
    /// A block type, with the name of the block type that it inherits from.
    Block {
        parent: Option<Word>,
        is_abstract: bool,
    },
}

impl What {
    ghost use Rattle.std.specs.Prelude.{◌≡◌, option_copied};
    ghost use Rattle.nif_schema.specs.Declaration.{inherited, is_block};
    ghost use Rattle.nif_schema.specs.Uses.{is_struct, is_reference};

    /// The name that a block type inherits from.
    pub fn parent_name(&self) -> Option<&Word>
        ensures { option_copied result ≡ inherited self.now }
    {
        match self {
            What::Block { parent, .. } => parent.as_ref(),
            _ => None,
        }
    }

    /// Whether it is a block type.
    pub fn is_block(&self) -> bool
        ensures { result ≡ is_block self.now }
    {
        matches!(self, What::Block { .. })
    }

    /// Whether it is a struct.
    pub fn is_struct(&self) -> bool
        ensures { result ≡ is_struct self.now }
    {
        matches!(self, What::Struct)
    }

    /// Whether it is a basic that is spelled as a reference, strong or weak.
    pub fn is_reference(&self) -> bool
        ensures { result ≡ is_reference self.now }
    {
        match self {
            What::Basic { leaf: Leaf::Ref } => true,
            What::Basic { leaf: Leaf::Ptr } => true,
            _ => false,
        }
    }
}

/// A declaration of a type by its name. Only a struct or a block type has fields.
#[derive(Drop)]
pub struct Decl {
    pub name: Word,
    pub what: What,
    pub fields: Fields,
}
