//! Values: trees of nodes, each kept in cells of one region. It stands on `nif_cells` for what cells say and on
//! `nif_region` for the cells. It promises that each call of the store is one step on the trees that contracts see,
//! that a walk meets the nodes of a tree in order, that a tree takes at most two cells a node and one for each eight
//! bytes, and that within reserved room no call answers want of memory. A call of a builder pushes the cells that it
//! adds and no others; room grows by doubling, and the end of a level writes its count in one cell at its head. The
//! number, the target and the place of a reference take constant time, by the places that stand behind each tree.
#![tactic(auto)]

mod builders;
mod counts;
mod packing;
pub mod stores;
pub mod walks;

pub use nif_cells::{RefView, Step};
pub use stores::{Store, TreeId};
pub use walks::Walk;
