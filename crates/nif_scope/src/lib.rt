//! The members of a line that were read so far, and what its expressions are then: the values of paths, which field
//! is present, what its value is and how many there are. It stands on `nif_layout`, whose definitions go by the nodes
//! that were read, on `nif_schema` and on `nif_expr`. It keeps of the nodes what expressions may ask for, and promises
//! that each answer is the one by the nodes.
#![tactic(auto)]

mod bits;
pub mod entries;
pub mod forms;
pub mod keeping;
mod kinds;
pub mod laws;
mod members;
mod numbers;
mod paths;
mod presence;
pub mod scopes;
pub mod settings;
mod shapes;
mod values;
mod widths;

pub use entries::Entry;
pub use forms::{Kind, Size};
pub use settings::{Setting, ValueContext};
