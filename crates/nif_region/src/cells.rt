//! Cells and the names of runs.

/// A cell of 16 bytes. What its parts mean is up to whoever pushes it.
#[derive(Debug, Drop, Clone, Copy, PartialEq, Eq)]
pub struct Cell {
    pub kind: u32,
    pub size: u32,
    pub bits: u64,
}

/// The name of a run. A key may be given again once its run was given back.
#[derive(Debug, Drop, Clone, Copy, PartialEq, Eq)]
pub struct RunId {
    pub key: usize,
}
