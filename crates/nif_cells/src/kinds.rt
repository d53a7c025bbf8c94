//! The kinds of cells.
ghost use Rattle.std.specs.Prelude.{◌≡◌, ◌<◌, if◌then◌else◌};
ghost use Rattle.nif_cells.specs.Codes.{has_bit, kind_of};

use crate::steps::RefView;

pub(crate) const ABSENT: u32 = 0;

pub(crate) const END: u32 = 1;

pub(crate) const GROUP: u32 = 2;

pub(crate) const ROW: u32 = 3;

pub(crate) const NUMBER: u32 = 4;

pub(crate) const LITTLE: u32 = 5;

pub(crate) const LINE: u32 = 6;

pub(crate) const BYTES: u32 = 7;

pub(crate) const WORD: u32 = 8;

pub(crate) const TAIL: u32 = 9;

pub(crate) const NO_TEXT: u32 = 10;

pub(crate) const TEXT: u32 = 11;

pub(crate) const PLACE: u32 = 12;

pub(crate) const REFERENCE: u32 = 16;

/// Whether a reference's kind has a bit.
pub(crate) fn holds(kind: u32, bit: u32) -> bool
    requires { 0 < bit }
    ensures { result ≡ has_bit kind bit }
{
    kind / bit % 2 == 1
}

/// The kind of the cell of a number.
pub(crate) fn of_number(little: bool) -> u32
    ensures { result ≡ if little then 5 else 4 }
{
    if little { LITTLE } else { NUMBER }
}

/// The kind of the cell of a reference.
pub(crate) fn of_reference(view: RefView) -> u32
    ensures { result ≡ kind_of view }
{
    REFERENCE
        + view.strong as u32
        + 2 * view.wanted.is_some() as u32
        + 4 * view.target.is_some() as u32
}
