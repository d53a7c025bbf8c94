//! Edits of graphs: as values; what the graph is after an edit, when an edit is refused, and what lists of accepted edits
//! keep. Stands on `nif_graph` for graphs and on `nif_layout` for the zero node of a type. It promises that an edit has at
//! most one fault; and that an accepted one leaves a graph that fits its schema where it did, whose references name the
//! blocks that they named, are well typed where they were, and make no cycle where none was. No call edits a graph yet.
#![tactic(auto)]

mod edits;
pub mod laws;

pub use edits::{Edit, Edits};
