//! The one call that runs a command.
ghost use Rattle.std.specs.Prelude.{◌≡◌, ◌≢◌, ℕ, List, None, Some, IfSome, IsSomeAnd};
ghost use Rattle.nif_base.specs.Outside.{Rose};
ghost use Rattle.nif_tool.specs.Report.{status_of};
ghost use Rattle.nif_tool.specs.Command.{command_of, Check, Refs, Copy};
ghost use Rattle.nif_tool.specs.Command as spec_command;
ghost use Rattle.nif_tool.specs.Words.{schema_name};
ghost use Rattle.nif_tool.specs.Counts.{counts};
ghost use Rattle.nif_tool.specs.Meaning.{files_of, Answers, CanBeDone, Causes, IsDone, NoneRose, Prints, RefusedFor, ReadFrom};

use crate::files::{accept, copy};
use crate::laws::done_only;
use crate::lines::refuse;
use crate::report::{Fault, Report};
use crate::schemas::get_schema;
use crate::texts::{print_list, print_refs, print_summary};
use crate::words::{SchemaName, Words, read_words};
use nif_base::{Shelf, Sink};
use nif_file::laws::graph_of_file;
use std::alloc::Global;

/// Runs `schema S`.
fn schema_command<S: Shelf, K: Sink>(
    alloc: Global,
    schema: SchemaName<'_>,
    shelf: &mut S,
    out: &mut K,
) -> Option<Fault>
    ensures answer { (text : List ℕ) × K.grew out.old text out.new
        × Prints (λ answer whole. Answers (Some (spec_command.Schema (schema_name schema.entry)))
        (files_of (S.desk shelf.old)) (files_of (S.desk shelf.new)) answer whole
        × Causes S.open_faults S.read_faults S.write_faults shelf.old shelf.new answer) result text }
    ensures usage { result ≢ Some Fault.Usage }
    ensures print_cause { result ≡ Some Fault.PrintFault → Rose (K.write_faults out.old) (K.write_faults out.new) }
    ensures read { ReadFrom (spec_command.Schema (schema_name schema.entry)) (files_of (S.desk shelf.old)) result
        (S.desk shelf.new) }
    ensures refused { RefusedFor (spec_command.Schema (schema_name schema.entry)) (files_of (S.desk shelf.old)) result
        (S.refused shelf.new) }
{
    match get_schema(alloc, schema, shelf) {
        Ok(checked) => print_list(&checked, out),
        Err(fault) => refuse(fault, out),
    }
}

/// Runs `check S F`.
fn check_command<S: Shelf, K: Sink>(
    alloc: Global,
    schema: SchemaName<'_>,
    file: &str,
    shelf: &mut S,
    out: &mut K,
) -> Option<Fault>
    ensures answer { (text : List ℕ) × K.grew out.old text out.new
        × Prints (λ answer whole. Answers (Some (Check (schema_name schema.entry) file.now))
        (files_of (S.desk shelf.old)) (files_of (S.desk shelf.new)) answer whole
        × Causes S.open_faults S.read_faults S.write_faults shelf.old shelf.new answer) result text }
    ensures usage { result ≢ Some Fault.Usage }
    ensures print_cause { result ≡ Some Fault.PrintFault → Rose (K.write_faults out.old) (K.write_faults out.new) }
    ensures read { ReadFrom (Check (schema_name schema.entry) file.now) (files_of (S.desk shelf.old)) result
        (S.desk shelf.new) }
    ensures refused { RefusedFor (Check (schema_name schema.entry) file.now) (files_of (S.desk shelf.old)) result
        (S.refused shelf.new) }
{
    match accept(alloc, schema, file, shelf) {
        Ok(accepted) => print_summary(&accepted.graph, out),
        Err(fault) => refuse(fault, out),
    }
}

/// Runs `refs S F`.
fn refs_command<S: Shelf, K: Sink>(
    alloc: Global,
    schema: SchemaName<'_>,
    file: &str,
    shelf: &mut S,
    out: &mut K,
) -> Option<Fault>
    ensures answer { (text : List ℕ) × K.grew out.old text out.new
        × Prints (λ answer whole. Answers (Some (Refs (schema_name schema.entry) file.now))
        (files_of (S.desk shelf.old)) (files_of (S.desk shelf.new)) answer whole
        × Causes S.open_faults S.read_faults S.write_faults shelf.old shelf.new answer) result text }
    ensures usage { result ≢ Some Fault.Usage }
    ensures print_cause { result ≡ Some Fault.PrintFault → Rose (K.write_faults out.old) (K.write_faults out.new) }
    ensures read { ReadFrom (Refs (schema_name schema.entry) file.now) (files_of (S.desk shelf.old)) result
        (S.desk shelf.new) }
    ensures refused { RefusedFor (Refs (schema_name schema.entry) file.now) (files_of (S.desk shelf.old)) result
        (S.refused shelf.new) }
{
    graph_of_file();
    match accept(alloc, schema, file, shelf) {
        Ok(accepted) => print_refs(&accepted.schema, &accepted.graph, out),
        Err(fault) => refuse(fault, out),
    }
}

/// Runs `copy S F OUT`.
fn copy_command<S: Shelf, K: Sink>(
    alloc: Global,
    schema: SchemaName<'_>,
    file: &str,
    to: &str,
    shelf: &mut S,
    out: &mut K,
) -> Option<Fault>
    ensures answer { (text : List ℕ) × K.grew out.old text out.new
        × Prints (λ answer whole. Answers (Some (Copy (schema_name schema.entry) file.now to.now))
        (files_of (S.desk shelf.old)) (files_of (S.desk shelf.new)) answer whole
        × Causes S.open_faults S.read_faults S.write_faults shelf.old shelf.new answer) result text }
    ensures usage { result ≢ Some Fault.Usage }
    ensures print_cause { result ≡ Some Fault.PrintFault → Rose (K.write_faults out.old) (K.write_faults out.new) }
    ensures read { ReadFrom (Copy (schema_name schema.entry) file.now to.now) (files_of (S.desk shelf.old)) result
        (S.desk shelf.new) }
    ensures refused { RefusedFor (Copy (schema_name schema.entry) file.now to.now) (files_of (S.desk shelf.old)) result
        (S.refused shelf.new) }
{
    match copy(alloc, schema, file, to, shelf) {
        Ok(accepted) => print_summary(&accepted.graph, out),
        Err(fault) => refuse(fault, out),
    }
}

/// Runs the command that the words spell, prints its text or the line of its refusal to `out`, and reports how it
/// ended. There are `schema S`, `check S F`, `refs S F` and `copy S F OUT`, where S is `plain`,
/// `scene` or a file's name.
///
/// The order of work is: words; the schema opened, read and checked; the file opened and read by it; the copy created
/// and written; the text printed.
pub fn run<S: Shelf, K: Sink>(alloc: Global, words: &[String], shelf: &mut S, out: &mut K) -> Report
    // the answer and what is printed are those of the words and the files; where printing failed, a prefix of that
    // was printed; and each fault of the shelf comes only where its count rose
    ensures answer { (text : List ℕ) × K.grew out.old text out.new
        × Prints (λ answer whole. Answers (command_of words.now) (files_of (S.desk shelf.old))
        (files_of (S.desk shelf.new)) answer whole
        × Causes S.open_faults S.read_faults S.write_faults shelf.old shelf.new answer) result.fault text }

    // the words are no command exactly where the answer is Usage, but for a fault of printing
    ensures usage { result.fault ≡ Some Fault.Usage → command_of words.now ≡ None }
    ensures untouched { command_of words.now ≡ None → shelf.new ≡ shelf.old }

    // a fault of the outside comes on a file of the words at its turn
    ensures print_cause { result.fault ≡ Some Fault.PrintFault
        → Rose (K.write_faults out.old) (K.write_faults out.new) }
    ensures read { IfSome (command_of words.now)
        (λ c. ReadFrom c (files_of (S.desk shelf.old)) result.fault (S.desk shelf.new)) }
    ensures refused { IfSome (command_of words.now)
        (λ c. RefusedFor c (files_of (S.desk shelf.old)) result.fault (S.refused shelf.new)) }

    // a command that can be done is done, where no count of faults rose and memory suffices
    ensures complete { IsSomeAnd (command_of words.now) (λ c. IsSomeAnd (files_of (S.desk shelf.old)) (CanBeDone c))
        → NoneRose (counts S.open_faults S.read_faults S.write_faults shelf.old)
        (counts S.open_faults S.read_faults S.write_faults shelf.new)
        → ¬ Rose (K.write_faults out.old) (K.write_faults out.new) → IsDone result.fault }

    ensures status { result.status ≡ status_of result.fault }
{
    done_only();
    match read_words(words) {
        None => Report::of(refuse(Fault::Usage, out)),
        Some(Words::Schema { schema }) => Report::of(schema_command(alloc, schema, shelf, out)),
        Some(Words::Check { schema, file }) => Report::of(check_command(
            alloc, schema, file, shelf, out,
        )),
        Some(Words::Refs { schema, file }) => Report::of(refs_command(
            alloc, schema, file, shelf, out,
        )),
        Some(Words::Copy { schema, file, copy }) => Report::of(copy_command(
            alloc, schema, file, copy, shelf, out,
        )),
    }
}
