//! Schemas as values: declarations of types with their fields, found by name and by number, and the lines of
//! fields of types that inherit. Stands on `nif_base`. It promises that `add`, `find`, `line_of`, `is_a` and `ends`
//! are exact over the list of declarations, and that all but `add` take no memory. A name is found in logarithmic
//! time, whatever the names; a line is walked root first in near-linear time, with 32 waypoints kept in the iterator.
#![tactic(auto)]

pub mod contexts;
pub mod decls;
pub mod exprs;
pub mod faults;
pub mod fields;
pub mod leaves;
pub mod lines;
pub mod members;
pub mod paths;
pub mod schemas;

pub use contexts::{Context, Order};
pub use decls::{Decl, Leaf, What};
pub use exprs::{Expr, Op};
pub use faults::{Closed, SchemaFault};
pub use fields::{Bound, Exact, Field, Fields, Formula};
pub use leaves::leaf_of;
pub use lines::Line;
pub use members::{BitMember, BitMembers};
pub use paths::Path;
pub use schemas::Schema;
