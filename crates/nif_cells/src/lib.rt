//! What the cells of a tree say, and the steps of a walk through them. It stands on `nif_base` for nodes and on
//! `nif_region` for cells. It promises that what is written to a cell is read from it, and, as laws over the
//! definitions alone, that the cells of a node are read as that node, that a walk through them meets its nodes in
//! order, that an index at their end finds each reference, that a target is set in one cell, and that they are at
//! most two for each node and one for each eight bytes, also while the tree is being built.
#![tactic(auto)]

pub mod contents;
mod kinds;
pub mod laws;
pub mod steps;

pub use contents::Content;
pub use steps::{RefView, Step};
