//! What the names in an expression may stand for: a stack of shapes under each name, with what holds of all shapes
//! of a name kept beside them, and what was found of their inner types under keys. It stands on `nif_base`. It
//! promises that the table is the stacks that were pushed, that each question is answered about all
//! shapes of the name, and that what is told under a key was kept of the same types, which are still there. A push, a
//! pop and a question take logarithmic time in the number of names, whatever the names, and constant time in the number
//! of shapes, but for what was found under a key: that takes time as there are marks of the key that no longer hold, each
//! of which is passed over twice at most.
#![tactic(auto)]

pub mod marked;
mod places;
pub mod shapes;
pub mod tables;

pub use marked::Found;
pub use shapes::{Shape, Shapes};
pub use tables::Names;
