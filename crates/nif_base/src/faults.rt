//! Why a call of the outside, or of memory, was refused.
use thiserror::Error;

/// A call of the outside failed: a read, a write, an open or a create.
#[derive(Debug, Drop, Clone, Copy, PartialEq, Eq, Error)]
#[error("a call of the outside failed")]
pub struct Failed;

/// Memory ran out.
#[derive(Debug, Drop, Clone, Copy, PartialEq, Eq, Error)]
#[error("memory ran out")]
pub struct NoMemory;

/// A write failed; the first of the bytes may have been written.
#[derive(Debug, Drop, Clone, Copy, PartialEq, Eq, Error)]
#[error("a write failed")]
pub struct WriteFault;
