ghost use Rattle.std.specs.Prelude.{◌≡◌, ◌≢◌, ℕ, ◌+◌, Some, vec_capacity};
ghost use Rattle.slab.specs.Slab.{get, slab_len, ContainsKey};
ghost use Rattle.nif_region.specs.Layout.{IsLaid, Slides};

use crate::cells::Cell;
use slab::Slab;

/// The kind of the cell at the head of a live run.
pub(crate) const LIVE: u32 = 1;

/// The kind of the cell at the head of a dead run.
pub(crate) const DEAD: u32 = 0;

/// Writes another place under a key that is there.
fn move_place(places: &mut Slab<usize>, key: usize, place: usize)
    requires { ContainsKey places.old key }
    ensures moved { get places.new key ≡ Some place }
    ensures others { (other : ℕ) → other ≢ key → get places.new other ≡ get places.old other }
    ensures len { slab_len places.new ≡ slab_len places.old }
    ensures capacity { places.new.capacity ≡ places.old.capacity }
{
    places.remove(key);
    places.insert_reserved(place);
}

/// Slides the live runs together in one pass, and the run that is being built behind them.
pub(crate) fn slide(cells: &mut Vec<Cell>, places: &mut Slab<usize>, building: usize)
    requires { IsLaid building cells.old.items places.old }
    ensures slides { Slides building cells.old.items places.old cells.new.items places.new }
    ensures capacity { vec_capacity cells.new ≡ vec_capacity cells.old }
{
    let end = cells.len() - building;
    let mut from = 0;
    let mut to = 0;
    while from < end {
        let head = cells[from];
        let next = from + head.size as usize + 1;
        if head.kind == LIVE {
            cells.copy_within(from..next, to);
            move_place(places, head.bits as usize, to);
            to += next - from;
        }
        from = next;
    }
    let len = cells.len();
    cells.copy_within(end..len, to);
    cells.truncate(to + building);
}
