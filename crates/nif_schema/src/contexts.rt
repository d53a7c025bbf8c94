//! What a file says of itself before its blocks are read.
pub use nif_base::Order;
use nif_base::Version;

/// What decides which fields are present and how they are spelled.
#[derive(Debug, Clone, Copy, PartialEq, Eq)]
pub struct Context {
    pub version: Version,
    /// The user version.
    pub user: u32,
    /// The BS version.
    pub bs: u32,
    pub order: Order,
}
