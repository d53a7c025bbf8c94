//! Where the members of the header stand that say something of the blocks.

/// The places of these members in the header, counted from 0. A place is there exactly where the header has a field of that
/// name, also where the member is absent.
#[derive(Debug, Clone, Copy, PartialEq, Eq)]
pub struct RolePlaces {
    /// `Num Blocks`
    pub num_blocks: u32,
    /// `Num Block Types`
    pub num_types: Option<u32>,
    /// `Block Types`
    pub types: Option<u32>,
    /// `Block Type Index`
    pub index: Option<u32>,
    /// `Block Size`
    pub sizes: Option<u32>,
    /// `Num Strings`
    pub num_strings: Option<u32>,
    /// `Strings`
    pub strings: Option<u32>,
}
