//! The limits of the product: the greatest that is allowed of each, and the lowest and highest versions.

/// The bytes of a schema text: 2^22.
pub const MOST_SCHEMA_BYTES: u32 = 1 << 22;

/// How deep the elements of a schema text nest.
pub const MOST_ELEMENT_DEPTH: u32 = 64;

/// The bytes of an expression, with its tokens replaced.
pub const MOST_EXPRESSION_BYTES: usize = 4096;

/// The bytes of a file: 2^26.
pub const MOST_FILE_BYTES: u64 = 1 << 26;

/// The nodes of a file: 2^24.
pub const MOST_NODES: u32 = 1 << 24;

/// The depth of a header, a block or a footer.
pub const MOST_DEPTH: u32 = 64;

/// The blocks of a file: 2^20.
pub const MOST_BLOCKS: u32 = 1 << 20;

/// The entries of the list of types of a file: 2^15.
pub const MOST_TYPES: u32 = 1 << 15;

/// The lowest version of a file: 4.0.0.2.
pub const LOWEST_VERSION: u32 = 0x0400_0002;

/// The highest version of a file: 20.2.0.7.
pub const HIGHEST_VERSION: u32 = 0x1402_0007;

/// The highest BS version of a file.
pub const HIGHEST_BS: u32 = 154;
