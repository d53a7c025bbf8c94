//! The schema texts that are built in. It stands on nothing, and promises nothing but the texts themselves.
#![tactic(auto)]

pub mod builtin;
