//! Fields of structs and block types.
ghost use Rattle.std.specs.Prelude.{◌≡◌, ◌-◌, ◌^◌, ◌<◌, [], ◌∷◌, ◌++◌, length, OnOk, OnErr, slice_get, Some};

use crate::exprs::Expr;
use nif_base::{NoMemory, Version, Word};
use std::alloc::Global;
use std::marker::Model;

/// An attribute whose text is an expression.
#[derive(Drop)]
pub enum Formula {
    /// The expression that was read.
    Read { expr: Expr },
    /// The text is no expression.
    Bad,
}

/// An attribute whose text is a version.
#[derive(Debug, Clone, Copy, PartialEq, Eq)]
pub enum Bound {
    /// The version that was read.
    Read { version: Version },
    /// The text is no version.
    Bad,
}

/// An attribute whose text is a decimal number below 2^32.
#[derive(Debug, Clone, Copy, PartialEq, Eq)]
pub enum Exact {
    /// The number that was read.
    Is { value: u32 },
    /// The text is no such number.
    Bad,
}

/// A field of a struct or of a block type. An attribute that is missing or empty is None.
#[derive(Drop)]
pub struct Field {
    pub name: Word,
    /// The name of its type, or `#T#` for the template of the struct.
    pub kind: Word,
    /// The template of its type, or `#T#`.
    pub template: Option<Word>,
    /// The argument of the struct; 0 where it is missing.
    pub arg: Option<Formula>,
    /// The number of values in a row; one value where it is missing.
    pub length: Option<Formula>,
    /// The number of values in each row of a row of rows.
    pub width: Option<Formula>,
    /// Present only where this isn't 0.
    pub cond: Option<Formula>,
    /// Present only where this isn't 0.
    pub vercond: Option<Formula>,
    /// Present from this version on.
    pub since: Option<Bound>,
    /// Present up to and with this version.
    pub until: Option<Bound>,
    /// Present only at this user version.
    pub user: Option<Exact>,
    /// Present only at this BS version.
    pub bs: Option<Exact>,
    /// Present only in blocks of this type and of those that inherit it.
    pub only: Option<Word>,
    /// Absent from blocks of this type and of those that inherit it.
    pub exclude: Option<Word>,
}

/// A list of at most 2^32 - 1 fields.
#[derive(Drop)]
pub struct Fields {
    items: Vec<Field>,
}

impl Model for Fields {
    ghost use Rattle.std.specs.Prelude.{◌^◌, ◌<◌, List, vec_len};
    ghost use Rattle.std.specs.Coded.{coded_list};
    ghost use Rattle.nif_schema.specs.declared.fields.Field.{Field};
    ghost use Rattle.nif_schema.specs.contracts.fields.Field as field;

    ghost Value = { List Field };

    ghost coded = { coded_list field.the_row.coded };

    ghost view = { λ a. a.items.items };

    ghost invariant = { λ a. vec_len a.items < 2 ^ 32 };
}

impl Fields {
    /// A list of no fields. It takes no memory.
    pub fn new(alloc: Global) -> Fields
        ensures { result ≡ [] }
    {
        Fields {
            items: Vec::new(alloc),
        }
    }

    /// How many fields it has.
    pub fn len(&self) -> u32
        ensures { result ≡ length self.now }
    {
        self.items.len() as u32
    }

    /// The field at a place, counted from 0.
    pub fn get(&self, place: u32) -> &Field
        requires { place < length self.now }
        ensures { slice_get self.now place ≡ Some result.now }
    {
        &self.items[place as usize]
    }

    /// Puts a field behind the others; after want of memory the list is as before.
    pub fn push(&mut self, item: Field) -> Result<(), NoMemory>
        requires { length self.old < 2 ^ 32 - 1 }
        ensures ok { OnOk result (self.new ≡ self.old ++ item ∷ []) }
        ensures err { OnErr result (self.new ≡ self.old) }
    {
        match self.items.push(item) {
            Ok(()) => Ok(()),
            Err(_) => Err(NoMemory),
        }
    }
}
