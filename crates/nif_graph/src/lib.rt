//! Graphs of blocks under names that stay, what a file that was read is handed on as. It stands on `nif_schema` for
//! types and on `nif_value` for the trees of values. It promises that each call reads or changes the graph that
//! contracts see as its definition says: blocks, references, what strong references reach, which references are well
//! typed; that what is asked often takes constant time, and reaching takes no memory; and that each change leaves names,
//! targets and counts right.
#![tactic(auto)]

pub mod changes;
mod emptying;
pub mod graphs;
mod marks;
pub mod parts;
pub mod places;
mod slots;

pub use graphs::Graph;
pub use parts::{BlockPart, Blocks, GraphParts};
pub use places::RolePlaces;
