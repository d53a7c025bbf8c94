//! Files: one is read whole by a schema, and only then a copy of it is created.
ghost use Rattle.std.specs.Prelude.{◌≡◌, ◌≢◌, ◌⊎◌, Some, Ok, Err, IfOk, IfErr, IfSome};
ghost use Rattle.std.specs.Result.{result_err};
ghost use Rattle.nif_file.specs.Files.{text_of};
ghost use Rattle.nif_file.specs.GraphOf.{IsWhole};
ghost use Rattle.nif_graph.specs.Written.{numbered};
ghost use Rattle.nif_tool.specs.Command.{Check, Copy};
ghost use Rattle.nif_tool.specs.Words.{schema_name};
ghost use Rattle.nif_tool.specs.Meaning.{files_of, CanAnswer, CanFail, Causes, RefusedFor, ReadFrom, WhereTold};
ghost use Rattle.nif_tool.specs.Refusals.{IsFailure};
ghost use Rattle.nif_tool.specs.Steps.{AcceptsBy, CopiesBy, IsAccepted, Loads, Stores};

use crate::report::Fault;
use crate::schemas::get_schema;
use crate::words::SchemaName;
use nif_base::{Failed, Kind, Shelf, WriteFault};
use nif_check::Checked;
use nif_file::{FileFault, encode_file};
use nif_file_reader::decode_file;
use nif_graph::Graph;
use std::alloc::Global;

/// A file that was read, and the schema by which it was.
#[derive(Drop)]
pub struct Accepted {
    /// The schema, which passed.
    pub schema: Checked,
    /// The graph of the file.
    pub graph: Graph,
}

/// The refusal of a file, a fault of reading it or want of memory.
fn failure(fault: FileFault) -> Fault
    ensures { IsFailure fault result }
{
    match fault {
        FileFault::ReadFault => Fault::ReadFault,
        FileFault::NoMemory => Fault::NoMemory,
        fault => Fault::File { fault },
    }
}

/// Opens a file, and reads it by a schema.
fn load<S: Shelf>(
    alloc: Global,
    schema: &Checked,
    name: &str,
    shelf: &mut S,
) -> Result<Graph, Fault>
    ensures loads { Loads schema.now name.now (files_of (S.desk shelf.old)) result }
    ensures answers { IfErr result CanFail }
    ensures faults { IfErr result (λ f. (f ≢ Fault.Usage) × (f ≢ Fault.WriteFault) × (f ≢ Fault.PrintFault)) }
    ensures files { files_of (S.desk shelf.new) ≡ files_of (S.desk shelf.old) }
    ensures causes { Causes S.open_faults S.read_faults S.write_faults shelf.old shelf.new (result_err result) }
    ensures input { result_err result ≡ Some Fault.ReadFault
        → IfSome (S.desk shelf.new) (λ d. d.input ≡ Some name.now) }
    ensures refused { result_err result ≡ Some Fault.OpenFault
        → IfSome (S.refused shelf.new) (λ r. (r.kind ≡ Kind.Input) × (r.name ≡ name.now)) }
{
    match shelf.open_input(name) {
        Ok(()) => {}
        Err(Failed) => return Err(Fault::OpenFault),
    }
    match decode_file(alloc, schema, shelf) {
        Ok(graph) => Ok(graph),
        Err(fault) => Err(failure(fault)),
    }
}

/// Gets a schema, and reads a file by it.
pub fn accept<S: Shelf>(
    alloc: Global,
    schema: SchemaName<'_>,
    file: &str,
    shelf: &mut S,
) -> Result<Accepted, Fault>
    ensures accepts { AcceptsBy (schema_name schema.entry) file.now (files_of (S.desk shelf.old)) result }
    ensures answers { IfErr result CanFail }
    ensures faults { IfErr result (λ f. (f ≢ Fault.Usage) × (f ≢ Fault.WriteFault) × (f ≢ Fault.PrintFault)) }
    ensures files { files_of (S.desk shelf.new) ≡ files_of (S.desk shelf.old) }
    ensures causes { Causes S.open_faults S.read_faults S.write_faults shelf.old shelf.new (result_err result) }
    ensures read { ReadFrom (Check (schema_name schema.entry) file.now) (files_of (S.desk shelf.old))
        (result_err result) (S.desk shelf.new) }
    ensures refused { RefusedFor (Check (schema_name schema.entry) file.now) (files_of (S.desk shelf.old))
        (result_err result) (S.refused shelf.new) }
{
    let checked = match get_schema(alloc, schema, shelf) {
        Ok(checked) => checked,
        Err(fault) => return Err(fault),
    };
    match load(alloc, &checked, file, shelf) {
        Ok(graph) => Ok(Accepted {
            schema: checked,
            graph,
        }),
        Err(fault) => Err(fault),
    }
}

/// Creates a file, and writes what a graph stands for to it. It takes no memory.
fn store<S: Shelf>(schema: &Checked, graph: &Graph, name: &str, shelf: &mut S) -> Result<(), Fault>
    requires { IsWhole schema.now graph.now }
    ensures faults { IfErr result (λ f. (f ≡ Fault.OpenFault) ⊎ (f ≡ Fault.WriteFault)) }
    ensures stores { WhereTold (files_of (S.desk shelf.old)) (files_of (S.desk shelf.new))
        (λ d e. Stores name.now (text_of schema.now (numbered graph.now.places graph.now.graph)) d e result) }
    ensures causes { Causes S.open_faults S.read_faults S.write_faults shelf.old shelf.new (result_err result) }
    ensures refused { result_err result ≡ Some Fault.OpenFault
        → IfSome (S.refused shelf.new) (λ r. (r.kind ≡ Kind.Output) × (r.name ≡ name.now)) }
{
    match shelf.create_output(name) {
        Ok(()) => {}
        Err(Failed) => return Err(Fault::OpenFault),
    }
    match encode_file(schema.schema(), graph, shelf) {
        Ok(()) => Ok(()),
        Err(WriteFault) => Err(Fault::WriteFault),
    }
}

/// Copies a file that its schema accepts.
pub fn copy<S: Shelf>(
    alloc: Global,
    schema: SchemaName<'_>,
    file: &str,
    to: &str,
    shelf: &mut S,
) -> Result<Accepted, Fault>
    ensures copies { WhereTold (files_of (S.desk shelf.old)) (files_of (S.desk shelf.new))
        (λ d e. CopiesBy (schema_name schema.entry) file.now to.now d e result) }
    ensures accepted { IfOk result (IsAccepted (schema_name schema.entry) file.now (files_of (S.desk shelf.old))) }
    ensures answers { CanAnswer (Copy (schema_name schema.entry) file.now to.now) (result_err result) }
    ensures faults { IfErr result (λ f. (f ≢ Fault.Usage) × (f ≢ Fault.PrintFault)) }
    ensures causes { Causes S.open_faults S.read_faults S.write_faults shelf.old shelf.new (result_err result) }
    ensures read { ReadFrom (Copy (schema_name schema.entry) file.now to.now) (files_of (S.desk shelf.old))
        (result_err result) (S.desk shelf.new) }
    ensures refused { RefusedFor (Copy (schema_name schema.entry) file.now to.now) (files_of (S.desk shelf.old))
        (result_err result) (S.refused shelf.new) }
{
    let accepted = match accept(alloc, schema, file, shelf) {
        Ok(accepted) => accepted,
        Err(fault) => return Err(fault),
    };
    match store(&accepted.schema, &accepted.graph, to, shelf) {
        Ok(()) => Ok(accepted),
        Err(fault) => Err(fault),
    }
}
