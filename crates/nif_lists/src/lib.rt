//! The lists of a header that the reader of blocks needs: the block types that it names, the index of types and the
//! sizes of the blocks. It stands on `nif_value` for the header's tree, on `nif_encode` for passing over nodes of it, on
//! `nif_graph` for the places of its members, and on `nif_file` for what they mean. It promises that the lists say what
//! is defined by the members. The tree is walked once, and each list is taken as it is met; there is memory for the
//! lists, and for the longest name among the types.
#![tactic(auto)]

pub mod lists;
mod passing;
pub mod reading;
mod roles;

pub use lists::Lists;
pub use reading::{read_lists, type_name};
