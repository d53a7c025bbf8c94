//! What is kept of members that were read.

/// What is kept of a member, or of an item of an array.
#[derive(Debug, Drop, Clone, Copy, PartialEq, Eq)]
pub enum Entry {
    /// The member is absent.
    Absent,
    /// A number, and what it is where it is signed: extended by its sign to 64 bits.
    Number { bits: u64, signed: u64 },
    /// A group; so many entries of its members stand behind it.
    Group { entries: usize },
    /// An array whose items are asked for; so many entries of them stand behind it.
    Items { entries: usize },
    /// Something else, of which no expression asks.
    Nothing,
}
