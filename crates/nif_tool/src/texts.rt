//! What is printed where a command is done.
ghost use Rattle.std.specs.Prelude.{◌≡◌, ℕ, List, None, Some, OnOk, OnErr};
ghost use Rattle.nif_stream.specs.Putting.{HasTaken};
ghost use Rattle.nif_base.specs.Outside.{HasCause, Rose};
ghost use Rattle.nif_print.specs.Listing.{IsListing};
ghost use Rattle.nif_print.specs.References.{refs_text};
ghost use Rattle.nif_graph.specs.Reach.{DeclaresTypes};
ghost use Rattle.nif_tool.specs.Meaning.{Prints};
ghost use Rattle.nif_tool.specs.Steps.{graph_summary};

use crate::report::Fault;
use nif_base::{Sink, WriteFault};
use nif_check::Checked;
use nif_graph::Graph;
use nif_print::{put_summary, refs, schema_list};
use nif_stream::Putter;

/// Writes the listing of a schema.
#[tactic(auto, using(nif_stream::specs::PutterLaws::puts))]
fn write_list<K: Sink>(checked: &Checked, out: &mut K) -> Result<(), WriteFault>
    ensures ok { OnOk result ((text : List ℕ) × IsListing checked.now text × K.grew out.old text out.new) }
    ensures err { OnErr result ((text : List ℕ) × IsListing checked.now text × HasTaken K.grew out.old out.new text) }
    ensures cause { HasCause (K.write_faults out.old) (K.write_faults out.new) result }
{
    let mut putter = Putter::new(out);
    match schema_list(checked, &mut putter) {
        Ok(()) => {}
        Err(WriteFault) => return Err(WriteFault),
    }
    putter.finish()
}

/// Prints the listing of a schema; where that fails, a prefix of it was printed.
pub fn print_list<K: Sink>(checked: &Checked, out: &mut K) -> Option<Fault>
    ensures printed { (text : List ℕ) × K.grew out.old text out.new
        × Prints (λ answer whole. (answer ≡ None) × IsListing checked.now whole) result text }
    ensures cause { result ≡ Some Fault.PrintFault → Rose (K.write_faults out.old) (K.write_faults out.new) }
{
    match write_list(checked, out) {
        Ok(()) => None,
        Err(WriteFault) => Some(Fault::PrintFault),
    }
}

/// Writes the line of a file.
#[tactic(auto, using(nif_stream::specs::PutterLaws::puts))]
fn write_summary<K: Sink>(graph: &Graph, out: &mut K) -> Result<(), WriteFault>
    ensures ok { OnOk result (K.grew out.old (graph_summary graph.now) out.new) }
    ensures err { OnErr result (HasTaken K.grew out.old out.new (graph_summary graph.now)) }
    ensures cause { HasCause (K.write_faults out.old) (K.write_faults out.new) result }
{
    let mut putter = Putter::new(out);
    match put_summary(
        graph.context().version,
        graph.count(),
        graph.file_len(),
        graph.nodes(),
        &mut putter,
    ) {
        Ok(()) => {}
        Err(WriteFault) => return Err(WriteFault),
    }
    putter.finish()
}

/// Prints the line of a file; where that fails, a prefix of it was printed. It takes no memory.
pub fn print_summary<K: Sink>(graph: &Graph, out: &mut K) -> Option<Fault>
    ensures printed { (text : List ℕ) × K.grew out.old text out.new
        × Prints (λ answer whole. (answer ≡ None) × (whole ≡ graph_summary graph.now)) result text }
    ensures cause { result ≡ Some Fault.PrintFault → Rose (K.write_faults out.old) (K.write_faults out.new) }
{
    match write_summary(graph, out) {
        Ok(()) => None,
        Err(WriteFault) => Some(Fault::PrintFault),
    }
}

/// Writes the lines of the references of a file.
#[tactic(auto, using(nif_stream::specs::PutterLaws::puts))]
fn write_refs<K: Sink>(checked: &Checked, graph: &Graph, out: &mut K) -> Result<(), WriteFault>
    requires { DeclaresTypes checked.now graph.now.graph }
    ensures ok { OnOk result (K.grew out.old (refs_text checked.now graph.now.graph) out.new) }
    ensures err { OnErr result (HasTaken K.grew out.old out.new (refs_text checked.now graph.now.graph)) }
    ensures cause { HasCause (K.write_faults out.old) (K.write_faults out.new) result }
{
    let mut putter = Putter::new(out);
    match refs(checked, graph, &mut putter) {
        Ok(()) => {}
        Err(WriteFault) => return Err(WriteFault),
    }
    putter.finish()
}

/// Prints the lines of the references of a file; where that fails, a prefix of them was printed. It takes no memory.
pub fn print_refs<K: Sink>(checked: &Checked, graph: &Graph, out: &mut K) -> Option<Fault>
    requires { DeclaresTypes checked.now graph.now.graph }
    ensures printed { (text : List ℕ) × K.grew out.old text out.new
        × Prints (λ answer whole. (answer ≡ None) × (whole ≡ refs_text checked.now graph.now.graph)) result text }
    ensures cause { result ≡ Some Fault.PrintFault → Rose (K.write_faults out.old) (K.write_faults out.new) }
{
    match write_refs(checked, graph, out) {
        Ok(()) => None,
        Err(WriteFault) => Some(Fault::PrintFault),
    }
}
