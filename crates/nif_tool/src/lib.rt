//! The commands of `nif`: `run` reads the words, drives the work over a shelf, and reports. It stands on all crates
//! below; `real` has the shelf over the system's files. It promises: what a command answers and what it leaves on
//! the shelf are those of the meaning of its words and files, but for a fault of the outside, which comes only
//! where the shelf's count of that fault rose, and for want of memory.
#![tactic(auto)]

pub mod commands;
pub mod files;
pub mod laws;
pub mod lines;
pub mod real;
pub mod report;
pub mod schemas;
pub mod texts;
pub mod words;

pub use commands::run;
pub use lines::refuse;
pub use real::{RealShelf, WriterSink};
pub use report::{Fault, Report, Status};
