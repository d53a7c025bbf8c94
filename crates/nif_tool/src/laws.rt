//! What holds of the meaning of commands itself, whoever runs them.
ghost use Rattle.nif_tool.specs.Command.{Command};
ghost use Rattle.nif_tool.specs.Meaning.{DoneOnly};

use nif_check::laws::no_fault;
use nif_file::laws::one_file_or_fault;
use nif_read::laws::one_outcome;
use nif_text::laws::one_tree;

/// A command that can be done has no answer but that it is done, or that memory ran out, where no count of faults rose.
pub fn done_only()
    ensures { (c : Command) → DoneOnly c }
{
    one_tree();
    one_outcome();
    no_fault();
    one_file_or_fault();
}
