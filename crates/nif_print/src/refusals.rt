//! What is printed of a schema that is refused.
ghost use Rattle.std.specs.Prelude.{◌≡◌, ◌++◌, OnOk, OnErr, codes, decimal};
ghost use Rattle.nif_stream.specs.Putting.{IsSound, Puts, Fails};
ghost use Rattle.nif_print.specs.Refusals.{schema_fault_text};

use crate::numbers::put_counted;
use nif_base::{Sink, WriteFault};
use nif_schema::SchemaFault;
use nif_stream::Putter;

/// Puts that the text isn't written in the XML subset.
#[tactic(auto, using(nif_stream::specs::PutterLaws::puts))]
fn put_not_written<K: Sink>(after: u32, out: &mut Putter<'_, K>) -> Result<(), WriteFault>
    requires { IsSound out.old }
    ensures ok { OnOk result (Puts K.grew K.write_faults out.old
        (codes "schema S1: not written after " ++ (decimal after ++ codes " elements")) out.new) }
    ensures err { OnErr result (Fails K.grew K.write_faults out.old
        (codes "schema S1: not written after " ++ (decimal after ++ codes " elements")) out.new) }
{
    put_counted(b"schema S1: not written after ", after as u64, out)?;
    out.put(b" elements")
}

/// Puts a label and a name.
#[tactic(auto, using(nif_stream::specs::PutterLaws::puts))]
fn put_named<K: Sink>(label: &[u8], name: &[u8], out: &mut Putter<'_, K>) -> Result<(), WriteFault>
    requires { IsSound out.old }
    ensures ok { OnOk result (Puts K.grew K.write_faults out.old (label.now ++ name.now) out.new) }
    ensures err { OnErr result (Fails K.grew K.write_faults out.old (label.now ++ name.now) out.new) }
{
    out.put(label)?;
    out.put(name)
}

/// Puts the text of a fault of a schema, without a line end. A name is put as its bytes. It takes no memory.
pub fn put_schema_fault<K: Sink>(
    fault: &SchemaFault,
    out: &mut Putter<'_, K>,
) -> Result<(), WriteFault>
    requires { IsSound out.old }
    ensures ok { OnOk result (Puts K.grew K.write_faults out.old (schema_fault_text fault.now) out.new) }
    ensures err { OnErr result (Fails K.grew K.write_faults out.old (schema_fault_text fault.now) out.new) }
{
    match fault {
        SchemaFault::NotWritten { after } => put_not_written(*after, out),
        SchemaFault::NoRoot => out.put(b"schema S2: no root"),
        SchemaFault::MissingName { element } => put_counted(
            b"schema S3: missing name in element ",
            *element as u64,
            out,
        ),
        SchemaFault::DuplicateName { name } => put_named(
            b"schema S4: duplicate name ",
            name.bytes(),
            out,
        ),
        SchemaFault::BadToken { element } => put_counted(
            b"schema S5: bad token in element ",
            *element as u64,
            out,
        ),
        SchemaFault::HeaderRole { rule } => put_counted(
            b"schema S6: header rule H",
            *rule as u64,
            out,
        ),
        SchemaFault::SchemaTooLong => out.put(b"schema S7: too long"),
        SchemaFault::NoMemory => out.put(b"no memory"),
    }
}
