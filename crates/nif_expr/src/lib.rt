//! The expressions of a schema: `parse` reads a text by the grammar, and `eval` gives the value of what it read, as does
//! `run` of the code words that `compile` makes of it, from numbered slots in the place of paths. It stands on
//! `nif_schema`, which has the types of expressions. It promises that `parse` answers exactly the tree of the grammar,
//! that no text has two, and that `eval` and `run` give the value by definition, modulo 2^64. `parse` and `run` don't
//! recurse; `eval` and `compile` go as deep as the tree, at most 4,096 levels for one that `parse` made.
#![tactic(auto)]

pub mod bindings;
pub mod codes;
pub mod compiling;
pub mod laws;
mod numbers;
mod parser;
pub mod parsing;
mod parts;
pub mod running;
mod runs;
mod signs;
pub mod values;

pub use bindings::Env;
pub use codes::Code;
pub use compiling::compile;
pub use parsing::{ExprFault, parse};
pub use running::run;
pub use values::eval;
