//! Whole files, read from a source. It stands on `nif_file` for the header and for what a file is, on `nif_lists` for
//! the lists of the header, on `nif_decode` for the values of blocks and of the footer, and on `nif_check` for open
//! types. It promises: over any source that tells its bytes, a file is read to its graph exactly where there is
//! one, or its first fault is answered with at most 4,096 bytes read beyond those that show it. It reads in one pass,
//! with no second copy of the bytes, and makes no room by a count that was only read.
#![tactic(auto)]

mod blocks;
pub mod files;
mod names;
mod types;

pub use files::decode_file;
