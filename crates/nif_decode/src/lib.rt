//! Bytes to a value, by the names of a schema. It stands on `nif_stream` for the bytes, on `nif_scope` for what
//! expressions are, on `nif_value` for the tree that is built, and on the definitions of `nif_layout`.
//!
//! `decode_value` reads a whole value into a new tree. `decode_members` reads members of a group one behind another, by
//! calls of the caller's, who asks a `Scope` for numbers among those that were read; `decode_line` reads a first member
//! that is a line, and gives its bytes too. Each adds the value that is spelled and takes exactly its bytes, or answers
//! its first fault and lets the tree go that was begun, in whatever pieces the bytes come.
#![tactic(auto)]

pub mod decode;
pub mod faults;
pub mod first_line;
mod leaves;
pub mod members;
mod opens;
mod runs;
pub mod scope;
pub mod takes;
mod values;

pub use decode::decode_value;
pub use faults::{Bounds, ValueFault, fault_at};
pub use first_line::decode_line;
pub use members::decode_members;
pub use scope::Scope;
pub use takes::take_number;
