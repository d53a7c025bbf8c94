//! The schema of a text: its declarations with their fields. It stands on `nif_text`, which reads the elements, on
//! `nif_attributes`, which reads the texts of their attributes, and on `nif_schema`, which keeps what is declared. It
//! promises that `read_schema` answers the schema that the tree of the text declares, or the first fault of the text.
#![tactic(auto)]

mod declarations;
mod elements;
mod fields;
mod forms;
pub mod laws;
mod members;
mod reading;

pub use reading::read_schema;
