//! The lines that are printed of refusals.
ghost use Rattle.std.specs.Prelude.{◌≡◌, ◌≢◌, List, ℕ, OnOk, OnErr, Some};
ghost use Rattle.nif_base.specs.Outside.{HasCause, Rose};
ghost use Rattle.nif_stream.specs.Putting.{IsSound, Puts, Fails, HasTaken};
ghost use Rattle.nif_tool.specs.Lines.{fault_text, line_of};
ghost use Rattle.nif_tool.specs.Meaning.{Prints};

use crate::report::Fault;
use nif_base::{Sink, WriteFault};
use nif_print::{put_file_fault, put_schema_fault};
use nif_stream::Putter;

/// Puts the text of a fault.
fn put_text<K: Sink>(fault: &Fault, out: &mut Putter<'_, K>) -> Result<(), WriteFault>
    requires { IsSound out.old }
    ensures ok { OnOk result (Puts K.grew K.write_faults out.old (fault_text fault.now) out.new) }
    ensures err { OnErr result (Fails K.grew K.write_faults out.old (fault_text fault.now) out.new) }
{
    match fault {
        Fault::Schema { fault } => put_schema_fault(fault, out),
        Fault::File { fault } => put_file_fault(fault, out),
        Fault::Usage => out.put(b"usage: schema S | check S F | refs S F | copy S F OUT"),
        Fault::OpenFault => out.put(b"open fault"),
        Fault::ReadFault => out.put(b"read fault"),
        Fault::WriteFault => out.put(b"write fault"),
        Fault::PrintFault => out.put(b"print fault"),
        Fault::NoMemory => out.put(b"no memory"),
    }
}

/// Puts the line of a refusal.
#[tactic(auto, using(nif_stream::specs::PutterLaws::puts))]
fn put_line<K: Sink>(fault: &Fault, out: &mut Putter<'_, K>) -> Result<(), WriteFault>
    requires { IsSound out.old }
    ensures ok { OnOk result (Puts K.grew K.write_faults out.old (line_of fault.now) out.new) }
    ensures err { OnErr result (Fails K.grew K.write_faults out.old (line_of fault.now) out.new) }
{
    out.put(b"nif: ")?;
    match put_text(fault, out) {
        Ok(()) => {}
        Err(WriteFault) => return Err(WriteFault),
    }
    out.put(b"\n")
}

/// Writes the line of a refusal.
#[tactic(auto, using(nif_stream::specs::PutterLaws::puts))]
fn write_line<K: Sink>(fault: &Fault, out: &mut K) -> Result<(), WriteFault>
    ensures ok { OnOk result (K.grew out.old (line_of fault.now) out.new) }
    ensures err { OnErr result (HasTaken K.grew out.old out.new (line_of fault.now)) }
    ensures cause { HasCause (K.write_faults out.old) (K.write_faults out.new) result }
{
    let mut putter = Putter::new(out);
    match put_line(fault, &mut putter) {
        Ok(()) => {}
        Err(WriteFault) => return Err(WriteFault),
    }
    putter.finish()
}

/// Prints the line of a refusal, and answers the refusal; where that fails, a prefix of the line was printed.
pub fn refuse<K: Sink>(fault: Fault, out: &mut K) -> Option<Fault>
    requires { fault ≢ Fault.PrintFault }
    ensures printed { (text : List ℕ) × K.grew out.old text out.new
        × Prints (λ answer whole. (answer ≡ Some fault) × (whole ≡ line_of fault)) result text }
    ensures cause { result ≡ Some Fault.PrintFault → Rose (K.write_faults out.old) (K.write_faults out.new) }
{
    match write_line(&fault, out) {
        Ok(()) => Some(fault),
        Err(WriteFault) => Some(Fault::PrintFault),
    }
}
