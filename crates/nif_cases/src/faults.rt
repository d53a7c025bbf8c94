//! Why a file of cases can't be gone through.
use std::alloc::{AllocError, AllocFailed};
use std::error::Error;
use std::fmt;

/// Why a file of cases can't be gone through.
#[derive(Debug, Drop, Clone, Copy)]
pub enum Trouble {
    /// A line is none that stands in a file of cases, or names what isn't there.
    BadLine,
    /// Memory ran out.
    NoMemory,
}

impl fmt::Display for Trouble {
    fn fmt<W: fmt::Write>(&self, f: &mut fmt::Formatter<W>) -> fmt::Result {
        f.write_str(match self {
            Trouble::BadLine => "bad line",
            Trouble::NoMemory => "no memory",
        })
    }
}

impl Error for Trouble {}

impl From<AllocError> for Trouble {
    fn from(_: AllocError) -> Trouble {
        Trouble::NoMemory
    }
}

impl<T: Drop> From<AllocFailed<T>> for Trouble {
    fn from(_: AllocFailed<T>) -> Trouble {
        Trouble::NoMemory
    }
}
