//! What the value of a field is.

/// What one value is.
#[derive(Debug, Drop, Clone, Copy, PartialEq, Eq)]
pub enum Kind {
    /// A number of `width` bytes, little in every file where it is `little`.
    Number {
        width: u8,
        little: bool,
    },
    Line,
    /// A reference, and the number of the declaration that it wants, if any.
    Ref {
        strong: bool,
        wanted: Option<u32>,
    },
    Text,
    /// A group of the line of a declaration, under a template and with an argument.
    Group {
        number: u32,
        template: Option<u32>,
        arg: u64,
    },
    /// A type that has no values. In an open type none is.
    Unknown,
}

/// How many values there are.
#[derive(Debug, Drop, Clone, Copy, PartialEq, Eq)]
pub enum Size {
    One,
    /// A row of so many values; a run of bytes where it is a `run`.
    Array { count: u64, run: bool },
    /// A row of so many rows, whose lengths are asked for one by one.
    Rows { count: u64, run: bool },
}
