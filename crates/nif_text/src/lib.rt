//! The texts of schemas: a subset of XML, read into a tree of elements. It stands on `nif_base` alone. It
//! promises that what is read is the one tree that the bytes are written of, and that a fault comes exactly
//! where no tree is written by them, with the number of whole children of the root that come before it.
#![tactic(auto)]

mod attribute;
mod comment;
mod cursor;
mod document;
mod elements;
pub mod laws;
mod reference;
mod start;
mod stop;
mod tree;
mod value;

pub use document::read_elements;
pub use tree::{Attrs, Element, TextFault};
