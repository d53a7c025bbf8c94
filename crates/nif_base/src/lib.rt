//! The base of all other crates: lists and words, and the outside as traits: what gives bytes, what takes
//! them and what keeps files, each with a form in memory. It stands on no crate of the project. It promises
//! that each failure comes only where a count of failures rose, and that reading or writing all is exact.
#![tactic(auto)]

pub mod ascii;
pub mod faults;
pub mod limits;
pub mod lists;
pub mod mem_calls;
pub mod mem_files;
pub mod mem_parts;
pub mod mem_shelf;
pub mod mem_sink;
pub mod mem_source;
pub mod orders;
pub mod outside;
pub mod shelves;
pub mod transfer;
pub mod versions;
pub mod words;

pub use ascii::{digit_value, is_blank, is_digit, is_hex_digit};
pub use faults::{Failed, NoMemory, WriteFault};
pub use lists::Numbers;
pub use mem_shelf::MemShelf;
pub use mem_sink::MemSink;
pub use mem_source::MemSource;
pub use orders::Order;
pub use outside::{Sink, Source};
pub use shelves::{Kind, Shelf};
pub use transfer::{AllFault, read_all, read_at_most, write_all};
pub use versions::Version;
pub use words::Word;
