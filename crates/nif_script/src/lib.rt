//! The script language: a text of lines, each of which spells one edit, or none where it is empty. It stands on
//! `nif_edit`, which has the edits, and on `nif_attributes`, which reads decimals. It promises that `read_script`
//! answers exactly the edits that the script spells, or else exactly the first line that is of no form, and that each
//! script has either the one or the other. The time is linear in the script, and memory is taken for the edits alone.
#![tactic(auto)]

mod faults;
mod forms;
pub mod laws;
mod numbers;
mod pieces;
mod reading;

pub use faults::ScriptFault;
pub use reading::{MOST_SCRIPT_BYTES, read_script};
