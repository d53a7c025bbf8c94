//! The rules that the header of a schema must keep, but for those on open types and on references. It stands on
//! `nif_schema` and `nif_uses`, and promises that each rule is exactly as defined there, in linear time and without
//! memory.
#![tactic(auto)]

mod attributes;
mod expressions;
mod fields;
mod lists;
mod types;
mod versions;

pub use expressions::has_independent_fields;
pub use lists::{has_lists, has_sized_strings};
pub use versions::{has_count, has_line, has_user_versions, has_version};
