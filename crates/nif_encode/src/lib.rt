//! Values to bytes. It stands on the walk of `nif_value` and puts to a `Putter` of `nif_stream`. It promises that what
//! is put of a tree, or of a member of it, is the bytes that spell it in the order that is given, with the place of each
//! target for its name, or the first of them where a write failed, and that the fault comes only for that cause; and
//! that what isn't put is passed over, one node after another. It takes time in proportion to the cells of the tree, and
//! no memory: bytes go through an array of 256 on their way.
#![tactic(auto)]

pub mod numbers;
pub mod steps;
pub mod values;

pub use numbers::put_number;
pub use steps::{Targets, member_step, pass_one, put_one, step_depth};
pub use values::{encode_member, encode_value};
