//! Why a value was not read.
ghost use Rattle.std.specs.Prelude.{◌≡◌, ◌+◌, ◌<◌, ◌≤◌, OnOk, IfErr, IfOk};
ghost use Rattle.nif_base.specs.Limits.{most_nodes};
ghost use Rattle.nif_decode.specs.Faults.{cause, take_cause};

use nif_base::limits::MOST_NODES;
use nif_stream::TakeFault;
use thiserror::Error;

/// Why a value was not read, with its place, and the number that is out of range.
#[derive(Debug, Drop, Clone, Copy, PartialEq, Eq, Error)]
pub enum ValueFault {
    #[error("the file ends in what begins at {at}")]
    Ended { at: u64 },
    #[error("the file has more than 67108864 bytes")]
    TooLong,
    #[error("the line at {at} has more than 255 bytes")]
    LineTooLong { at: u64 },
    #[error("the reference at {at} is to no block: {value}")]
    RefRange { at: u64, value: u32 },
    #[error("the index at {at} is of no string: {value}")]
    StringRange { at: u64, value: u32 },
    #[error("the groups at {at} lie too deep")]
    TooDeep { at: u64 },
    #[error("there are more than 16777216 nodes, from {at} on")]
    TooManyNodes { at: u64 },
    #[error("a read failed")]
    ReadFault,
    #[error("memory ran out")]
    NoMemory,
}

/// The numbers of blocks and of strings, below which references and text indexes are, and how many nodes the file has
/// so far.
#[derive(Debug, Drop, Clone, Copy, PartialEq, Eq)]
pub struct Bounds {
    pub blocks: u32,
    pub strings: u32,
    pub nodes: u32,
}

/// The fault of what was to be taken from a place on.
pub fn fault_at(at: u64, fault: TakeFault) -> ValueFault
    ensures { cause result ≡ take_cause at fault }
{
    match fault {
        TakeFault::Ended => ValueFault::Ended { at },
        TakeFault::LineTooLong => ValueFault::LineTooLong { at },
        TakeFault::TooLong => ValueFault::TooLong,
        TakeFault::ReadFault => ValueFault::ReadFault,
    }
}

/// Counts one more node, at a place.
pub(crate) fn count(at: u64, nodes: &mut u32) -> Result<(), ValueFault>
    ensures room { OnOk result (nodes.old < most_nodes) }
    ensures ok { OnOk result (nodes.new ≡ nodes.old + 1) }
    ensures full { IfErr result (λ fault. most_nodes ≤ nodes.old) }
    ensures err { IfErr result (λ fault. fault ≡ ValueFault.TooManyNodes at) }
    ensures within { nodes.old ≤ most_nodes → nodes.new ≤ most_nodes }
{
    if *nodes >= MOST_NODES {
        return Err(ValueFault::TooManyNodes { at });
    }
    *nodes += 1;
    Ok(())
}
