//! Runs of cells in one vector, given back and slid together. It stands on `nif_base`, and on `slab` for the
//! places of the runs. It promises that each call changes the runs as defined and no other cell, that dead cells
//! are at most as many as live ones, and that within reserved room no call answers want of memory. A cell is
//! pushed once. A slide by `give_back` moves fewer live cells than were given back since the slide before, and
//! the run that is being built.
#![tactic(auto)]

pub mod cells;
pub mod regions;
mod slides;

pub use cells::{Cell, RunId};
pub use regions::Region;
