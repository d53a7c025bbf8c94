//! Checked schemas: which types are open, why the others are closed, and the rules of the header. It stands on
//! `nif_schema`, `nif_uses`, `nif_roles` and `nif_reasons`. It promises that `check` answers the first rule that fails,
//! or the schema unchanged, and that `is_open` and `reason` are exactly as defined, in near-linear time.
#![tactic(auto)]

mod checking;
pub mod laws;
mod reasons;
mod roots;

pub use checking::{Checked, check};
