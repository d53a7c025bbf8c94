//! Bytes taken from a source and put to a sink, in order, each through an array of 4,096 bytes. It stands on the base
//! crate, and takes no memory. It promises that what is taken is what comes next, and at most 4,096 bytes more are
//! read; that what was put is written in order; that faults come exactly for their causes, and stay.
#![tactic(auto)]

pub mod putters;
pub mod takers;

pub use nif_base::{AllFault, WriteFault, read_all};
pub use putters::Putter;
pub use takers::{TakeFault, Taker};
