//! What a value of a type may be, and the bytes that spell it, by a schema: definitions, and laws over them.
//! Stands on `nif_base`, `nif_schema` and `nif_expr`. It promises that bytes spell at most one value, that no
//! spelling begins another, and that at each place a value of an open type is spelled or fails in one way.
#![tactic(auto)]

pub mod laws;
