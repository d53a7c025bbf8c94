//! Files: which bytes are a file by a schema, and what it says. It stands on the crates of values below it
//! (`nif_layout`, `nif_value`, `nif_decode`, `nif_encode`, `nif_graph`), on `nif_schema` and on `nif_stream`. It
//! promises, as a law over the definitions, that bytes spell one file or have one first fault; that a header is read to
//! the tree that it spells, or its first fault is answered; and that what is written of a graph is the bytes of the file
//! that it stands for, or a prefix of them where a write failed. The blocks and the footer behind a header are read
//! above, in `nif_file_reader`.
#![tactic(auto)]

pub mod encode;
mod encode_header;
pub mod faults;
pub mod header;
mod heads;
pub mod laws;
mod places;
pub mod versions;

pub use encode::encode_file;
pub use faults::FileFault;
pub use header::{Header, of_value, read_header};
pub use versions::has_zero_word;
