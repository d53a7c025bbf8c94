//! The steps of a walk through a tree.

/// A reference: strong or weak, the number of the declaration that it wants, if any, and its target, the place of a
/// block, or none.
#[derive(Debug, Drop, Clone, Copy, PartialEq, Eq)]
pub struct RefView {
    pub strong: bool,
    pub wanted: Option<u32>,
    pub target: Option<u32>,
}

/// A step of a walk: a node by itself, the begin of a group or row with the number of its members or items, an absent
/// member, or the end of the group or row that was begun last and has not ended.
#[derive(Debug, Drop, Clone, Copy, PartialEq, Eq)]
pub enum Step {
    /// `width` in bytes; `little` where it is so in every file.
    Num { width: u8, little: bool, bits: u64 },
    /// The number of its bytes, without the 0x0A behind them.
    Line { len: u32 },
    Ref { view: RefView },
    Text { index: Option<u32> },
    Bytes { len: u32 },
    Group { members: u32 },
    Row { items: u32 },
    Absent,
    End,
}
