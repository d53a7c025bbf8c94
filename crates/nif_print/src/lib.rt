//! The texts that `nif` prints. It stands on `nif_check` for what is known of a schema, on `nif_file` for the faults of
//! files, on `nif_graph` for the blocks and references of a file, and puts to a `Putter` of `nif_stream`. It promises
//! that each call puts exactly its text, or a prefix of it where a write failed, and takes no memory.
#![tactic(auto)]

pub mod files;
pub mod listings;
pub mod numbers;
pub mod quotes;
pub mod references;
pub mod refusals;

pub use files::{put_file_fault, put_summary};
pub use listings::schema_list;
pub use numbers::{put_counted, put_decimal};
pub use quotes::put_quoted;
pub use references::refs;
pub use refusals::put_schema_fault;
