//! Why a script is refused.
use thiserror::Error;

/// Why a script is refused.
#[derive(Debug, Drop, Clone, Copy, PartialEq, Eq, Error)]
pub enum ScriptFault {
    /// This line, counted from 1, is the first that is of no form.
    #[error("line {line} is of no form")]
    NotALine { line: u32 },
    /// The script has more than 2^20 bytes.
    #[error("the script is too long")]
    ScriptTooLong,
    /// Memory ran out.
    #[error("memory ran out")]
    NoMemory,
}
