//! What a cell says.
ghost use Rattle.std.specs.Prelude.{◌≡◌, ◌%◌, ◌^◌, ◌<◌, ℕ};
ghost use Rattle.nif_cells.specs.Codes.{content_of, reference_in, given, or_zero};
ghost use Rattle.nif_cells.specs.declared.contents.Content.TheVariants.{Reference};

use crate::kinds;
use crate::steps::RefView;
use nif_region::Cell;

/// What a cell of a tree says.
#[derive(Debug, Drop, Clone, Copy, PartialEq, Eq)]
pub enum Content {
    Number { width: u8, little: bool, bits: u64 },
    /// The number of its bytes, which stand in the cells behind it.
    Line { len: u32 },
    Reference { view: RefView },
    Text { index: Option<u32> },
    /// The number of its bytes, which stand in the cells behind it.
    Bytes { len: u32 },
    /// Eight bytes, the first the lowest.
    Word { bits: u64 },
    /// The bytes that are left, at most seven, the first the lowest.
    Tail { left: u32, bits: u64 },
    Group { members: u32 },
    Row { items: u32 },
    Absent,
    End,
    /// The place of a reference, which is numbered from 1.
    Place { number: u32, place: u32 },
}

/// A number, where there is one.
fn kept(there: bool, number: u32) -> Option<u32>
    ensures { result ≡ given there number }
{
    if there { Some(number) } else { None }
}

/// The number that is there, or 0.
fn spelled(number: Option<u32>) -> u32
    ensures { result ≡ or_zero number }
{
    match number {
        Some(number) => number,
        None => 0,
    }
}

/// The lower half of a cell's bits.
fn low(bits: u64) -> u32
    ensures { result ≡ bits % 2 ^ 32 }
{
    (bits % (1 << 32)) as u32
}

/// The reference that a cell says.
fn reference_of(cell: Cell) -> RefView
    ensures { result ≡ reference_in cell }
{
    RefView {
        strong: kinds::holds(cell.kind, 1),
        wanted: kept(kinds::holds(cell.kind, 2), cell.size),
        target: kept(kinds::holds(cell.kind, 4), low(cell.bits)),
    }
}

/// A cell of these parts.
fn cell_with(kind: u32, size: u32, bits: u64) -> Cell
    ensures kind { result.kind ≡ kind }
    ensures size { result.size ≡ size }
    ensures bits { result.bits ≡ bits }
{
    Cell { kind, size, bits }
}

/// The cell that says a reference.
fn cell_of(view: RefView) -> Cell
    ensures { content_of result ≡ Reference view }
{
    cell_with(
        kinds::of_reference(view),
        spelled(view.wanted),
        spelled(view.target) as u64,
    )
}

impl Content {
    /// What a cell says.
    pub fn of(cell: Cell) -> Content
        ensures { result ≡ content_of cell }
    {
        match cell.kind {
            kinds::ABSENT => Content::Absent,
            kinds::END => Content::End,
            kinds::GROUP => Content::Group { members: cell.size },
            kinds::ROW => Content::Row { items: cell.size },
            kinds::NUMBER => Content::Number {
                width: (cell.size % 256) as u8,
                little: false,
                bits: cell.bits,
            },
            kinds::LITTLE => Content::Number {
                width: (cell.size % 256) as u8,
                little: true,
                bits: cell.bits,
            },
            kinds::LINE => Content::Line { len: cell.size },
            kinds::BYTES => Content::Bytes { len: cell.size },
            kinds::WORD => Content::Word { bits: cell.bits },
            kinds::TAIL => Content::Tail {
                left: cell.size,
                bits: cell.bits,
            },
            kinds::NO_TEXT => Content::Text { index: None },
            kinds::TEXT => Content::Text {
                index: Some(cell.size),
            },
            kinds::PLACE => Content::Place {
                number: cell.size,
                place: low(cell.bits),
            },
            _ => Content::Reference {
                view: reference_of(cell),
            },
        }
    }

    /// The cell that says this.
    pub fn cell(self) -> Cell
        ensures { content_of result ≡ self }
    {
        match self {
            Content::Absent => cell_with(kinds::ABSENT, 0, 0),
            Content::End => cell_with(kinds::END, 0, 0),
            Content::Group { members } => cell_with(kinds::GROUP, members, 0),
            Content::Row { items } => cell_with(kinds::ROW, items, 0),
            Content::Number {
                width,
                little,
                bits,
            } => cell_with(kinds::of_number(little), width as u32, bits),
            Content::Line { len } => cell_with(kinds::LINE, len, 0),
            Content::Bytes { len } => cell_with(kinds::BYTES, len, 0),
            Content::Word { bits } => cell_with(kinds::WORD, 0, bits),
            Content::Tail { left, bits } => cell_with(kinds::TAIL, left, bits),
            Content::Text { index: None } => cell_with(kinds::NO_TEXT, 0, 0),
            Content::Text { index: Some(index) } => cell_with(kinds::TEXT, index, 0),
            Content::Place { number, place } => cell_with(kinds::PLACE, number, place as u64),
            Content::Reference { view } => cell_of(view),
        }
    }
}
