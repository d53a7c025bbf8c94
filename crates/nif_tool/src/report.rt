//! What a command answers.
ghost use Rattle.std.specs.Prelude.{◌≡◌};
ghost use Rattle.nif_tool.specs.Report.{status_of};

use nif_file::FileFault;
use nif_schema::SchemaFault;

/// How a command ended; its number, from 0, is the exit status of the program.
#[derive(Debug, Drop, Clone, Copy, PartialEq, Eq)]
pub enum Status {
    /// The command was done.
    Done,
    /// The file is refused.
    FileRefused,
    /// The words are no command.
    Usage,
    /// The schema is refused.
    SchemaRefused,
    /// An edit is refused. No command of today answers this.
    EditRefused,
    /// Opening, creating, reading, writing or printing failed.
    OutsideFault,
    /// Memory ran out.
    NoMemory,
}

/// Why a command was not done.
#[derive(Drop)]
pub enum Fault {
    /// The words are no command.
    Usage,
    /// The schema is refused. The fault is not want of memory.
    Schema { fault: SchemaFault },
    /// The file is refused. The fault is no fault of a read and not want of memory.
    File { fault: FileFault },
    /// A file could not be opened or created.
    OpenFault,
    /// A file could not be read.
    ReadFault,
    /// A file could not be written; it has a prefix of its bytes.
    WriteFault,
    /// The text could not be printed; a prefix of it was.
    PrintFault,
    /// Memory ran out.
    NoMemory,
}

/// How a command ended, and why, if it was not done.
#[derive(Drop)]
pub struct Report {
    /// How it ended.
    pub status: Status,
    /// Why it was not done, none where it was.
    pub fault: Option<Fault>,
}

impl Report {
    /// The report of a fault, or of none.
    pub fn of(fault: Option<Fault>) -> Report
        ensures fault { result.fault ≡ fault }
        ensures status { result.status ≡ status_of fault }
    {
        let status = match &fault {
            None => Status::Done,
            Some(Fault::Usage) => Status::Usage,
            Some(Fault::Schema { .. }) => Status::SchemaRefused,
            Some(Fault::File { .. }) => Status::FileRefused,
            Some(Fault::OpenFault | Fault::ReadFault | Fault::WriteFault | Fault::PrintFault) =>
                Status::OutsideFault,
            Some(Fault::NoMemory) => Status::NoMemory,
        };
        Report { status, fault }
    }
}
