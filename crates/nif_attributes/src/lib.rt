//! What the attributes of elements say: older spellings, the replacement of tokens, and the expressions, versions,
//! numbers and basics that texts spell. It stands on `nif_text`, which reads the elements, on `nif_expr`, which reads
//! expressions, and on `nif_schema`, which has the types of fields. It promises that the text of a field's attribute
//! is the one by definition, and that it is read exactly as what it spells, or as bad where it spells nothing.
#![tactic(auto)]

pub mod attributes;
mod index;
pub mod numbers;
pub mod texts;
pub mod tokens;
