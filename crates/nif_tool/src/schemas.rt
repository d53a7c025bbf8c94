//! Getting a schema: its text is built in, or read from a file, and then read and checked.
ghost use Rattle.std.specs.Prelude.{◌≡◌, ◌≢◌, ◌≤◌, ◌<◌, Some, Ok, Err, IfSome, IfOk, IfErr, length};
ghost use Rattle.std.specs.Result.{result_err};
ghost use Rattle.nif_schema.specs.Schema.{IsSchema};
ghost use Rattle.nif_schema.specs.declared.faults.SchemaFault.{SchemaFault};
ghost use Rattle.nif_tool.specs.Command as spec_command;
ghost use Rattle.nif_tool.specs.Refusals.{refusal_of};
ghost use Rattle.nif_tool.specs.Words.{schema_name};
ghost use Rattle.nif_base.specs.Limits.{most_schema_bytes};
ghost use Rattle.nif_tool.specs.Schemas.{told_bytes};
ghost use Rattle.nif_tool.specs.Meaning.{files_of, CanLack, Causes, RefusedFor, ReadFrom};
ghost use Rattle.nif_tool.specs.Steps.{LoadsText, Understands, Gets};

use crate::report::Fault;
use crate::words::SchemaName;
use nif_base::limits::MOST_SCHEMA_BYTES;
use nif_base::{AllFault, Failed, Kind, Shelf, read_all};
use nif_builtin::builtin::{PLAIN, SCENE};
use nif_check::{Checked, check};
use nif_read::read_schema;
use nif_schema::SchemaFault;
use std::alloc::Global;

/// Opens and reads the text of a schema.
fn load_text<S: Shelf>(alloc: Global, file: &str, shelf: &mut S) -> Result<Vec<u8>, Fault>
    ensures within { IfOk result (λ v. length v.items ≤ most_schema_bytes) }
    ensures loads { IfSome (files_of (S.desk shelf.old)) (λ d. LoadsText file.now d result) }
    ensures answers { IfErr result (CanLack (spec_command.Named file.now)) }
    ensures faults { IfErr result (λ f. (f ≢ Fault.Usage) × (f ≢ Fault.PrintFault)) }
    ensures files { files_of (S.desk shelf.new) ≡ files_of (S.desk shelf.old) }
    ensures causes { Causes S.open_faults S.read_faults S.write_faults shelf.old shelf.new (result_err result) }
    ensures input { result_err result ≡ Some Fault.ReadFault
        → IfSome (S.desk shelf.new) (λ d. d.input ≡ Some file.now) }
    ensures refused { result_err result ≡ Some Fault.OpenFault
        → IfSome (S.refused shelf.new) (λ r. (r.kind ≡ Kind.Input) × (r.name ≡ file.now)) }
{
    match shelf.open_input(file) {
        Ok(()) => {}
        Err(Failed) => return Err(Fault::OpenFault),
    }
    match read_all(alloc, shelf, MOST_SCHEMA_BYTES) {
        Ok(bytes) => Ok(bytes),
        Err(AllFault::TooLong) => Err(Fault::Schema {
            fault: SchemaFault::SchemaTooLong,
        }),
        Err(AllFault::ReadFault) => Err(Fault::ReadFault),
        Err(AllFault::NoMemory) => Err(Fault::NoMemory),
    }
}

/// The refusal of a schema, or want of memory.
fn refusal(fault: SchemaFault) -> Fault
    ensures { result ≡ refusal_of fault }
{
    match fault {
        SchemaFault::NoMemory => Fault::NoMemory,
        fault => Fault::Schema { fault },
    }
}

/// Reads and checks the text of a schema.
fn understand(alloc: Global, bytes: &[u8]) -> Result<Checked, Fault>
    requires { length bytes.now ≤ most_schema_bytes }
    ensures value { Understands bytes.now result }
    ensures schema { IfOk result IsSchema }
    ensures answers { IfErr result (CanLack spec_command.Plain) }
    ensures faults { IfErr result (λ f. (f ≢ Fault.Usage) × (f ≢ Fault.PrintFault)) }
{
    let schema = match read_schema(alloc, bytes) {
        Ok(schema) => schema,
        Err(fault) => return Err(refusal(fault)),
    };
    match check(alloc, schema) {
        Ok(checked) => Ok(checked),
        Err(fault) => Err(refusal(fault)),
    }
}

/// Gets the schema of a name: its text is built in or loaded, and then understood.
pub fn get_schema<S: Shelf>(
    alloc: Global,
    schema: SchemaName<'_>,
    shelf: &mut S,
) -> Result<Checked, Fault>
    ensures gets { IfSome (told_bytes (schema_name schema.entry) (files_of (S.desk shelf.old)))
        (λ bytes. Gets bytes result) }
    ensures schema { IfOk result IsSchema }
    ensures answers { IfErr result (CanLack (schema_name schema.entry)) }
    ensures faults { IfErr result (λ f. (f ≢ Fault.Usage) × (f ≢ Fault.PrintFault)) }
    ensures files { files_of (S.desk shelf.new) ≡ files_of (S.desk shelf.old) }
    ensures causes { Causes S.open_faults S.read_faults S.write_faults shelf.old shelf.new (result_err result) }
    ensures read { ReadFrom (spec_command.Schema (schema_name schema.entry)) (files_of (S.desk shelf.old))
        (result_err result) (S.desk shelf.new) }
    ensures refused { RefusedFor (spec_command.Schema (schema_name schema.entry)) (files_of (S.desk shelf.old))
        (result_err result) (S.refused shelf.new) }
{
    match schema {
        SchemaName::Plain => understand(alloc, PLAIN),
        SchemaName::Scene => understand(alloc, SCENE),
        SchemaName::Named { file } => match load_text(alloc, file, shelf) {
            Ok(bytes) => understand(alloc, bytes.as_slice()),
            Err(fault) => Err(fault),
        },
    }
}
