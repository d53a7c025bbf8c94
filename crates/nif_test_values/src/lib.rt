//! Tests alone: trees that are built in a store, walked, copied, changed and dropped; and a tree with each kind of node
//! as bytes in both orders, whole and by its members, and to sinks that fail.
#![tactic(auto)]

#[cfg(test)]
mod bytes;
#[cfg(test)]
mod stores;
