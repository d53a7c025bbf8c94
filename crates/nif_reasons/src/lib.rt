//! The own reason of each type of a schema: why it is closed whatever the types that it uses. It stands on
//! `nif_schema`, `nif_uses`, `nif_names` and `nif_paths`, and promises that each answer is exactly the reason by
//! definition. Types are gone over from parent to child, with one line of the fields above them, where paths keep what
//! they found: so what holds of the fields of a parent isn't looked at anew for each child. A type is left at its first
//! reason.
#![tactic(auto)]

mod fields;
mod formulas;
mod own;
mod visits;
mod ways;

pub use own::own_reasons;
