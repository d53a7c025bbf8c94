//! What is printed of a file.
ghost use Rattle.std.specs.Prelude.{◌≡◌, ◌++◌, OnOk, OnErr, codes, decimal};
ghost use Rattle.nif_stream.specs.Putting.{IsSound, Puts, Fails};
ghost use Rattle.nif_file.specs.declared.faults.FileFault.TheVariants as file;
ghost use Rattle.nif_print.specs.Files.{counted, counted_twice, file_fault_text, reason_number, summary_text, version_text};

use crate::numbers::{put_counted, put_decimal};
use crate::quotes::put_quoted;
use nif_base::{Sink, Version, WriteFault};
use nif_file::FileFault;
use nif_schema::Closed;
use nif_stream::Putter;

/// The number of the reason of a closed type.
fn reason_number(reason: Closed) -> u64
    ensures { result ≡ reason_number reason }
{
    match reason {
        Closed::C0 => 0,
        Closed::C1 => 1,
        Closed::C2 => 2,
        Closed::C3 => 3,
        Closed::C4 => 4,
        Closed::C5 => 5,
        Closed::C6 => 6,
        Closed::C7 => 7,
        Closed::C8 => 8,
        Closed::C9 => 9,
        Closed::C10 => 10,
        Closed::C11 => 11,
        Closed::C12 => 12,
        Closed::C13 => 13,
    }
}

/// Puts two numbers with a dot between them.
#[tactic(auto, using(nif_stream::specs::PutterLaws::puts))]
fn put_two<K: Sink>(first: u8, second: u8, out: &mut Putter<'_, K>) -> Result<(), WriteFault>
    requires { IsSound out.old }
    ensures ok { OnOk result (Puts K.grew K.write_faults out.old
        (decimal first ++ (codes "." ++ decimal second)) out.new) }
    ensures err { OnErr result (Fails K.grew K.write_faults out.old
        (decimal first ++ (codes "." ++ decimal second)) out.new) }
{
    put_decimal(first as u64, out)?;
    put_counted(b".", second as u64, out)
}

/// Puts the four parts of a version.
#[tactic(auto, using(nif_stream::specs::PutterLaws::puts))]
fn put_parts<K: Sink>(number: u32, out: &mut Putter<'_, K>) -> Result<(), WriteFault>
    requires { IsSound out.old }
    ensures ok { OnOk result (Puts K.grew K.write_faults out.old (version_text number) out.new) }
    ensures err { OnErr result (Fails K.grew K.write_faults out.old (version_text number) out.new) }
{
    let [first, second, third, fourth] = Version { number }.parts();
    put_two(first, second, out)?;
    out.put(b".")?;
    put_two(third, fourth, out)
}

/// Puts a label and a version.
#[tactic(auto, using(nif_stream::specs::PutterLaws::puts))]
fn put_version<K: Sink>(
    label: &[u8],
    number: u32,
    out: &mut Putter<'_, K>,
) -> Result<(), WriteFault>
    requires { IsSound out.old }
    ensures ok { OnOk result (Puts K.grew K.write_faults out.old (label.now ++ version_text number) out.new) }
    ensures err { OnErr result (Fails K.grew K.write_faults out.old (label.now ++ version_text number) out.new) }
{
    out.put(label)?;
    put_parts(number, out)
}

/// Puts a number behind a label, and another behind a second one.
#[tactic(auto, using(nif_stream::specs::PutterLaws::puts))]
fn put_counted_twice<K: Sink>(
    first: &[u8],
    n: u64,
    second: &[u8],
    m: u64,
    out: &mut Putter<'_, K>,
) -> Result<(), WriteFault>
    requires { IsSound out.old }
    ensures ok { OnOk result (Puts K.grew K.write_faults out.old (counted_twice first.now n second.now m) out.new) }
    ensures err { OnErr result (Fails K.grew K.write_faults out.old (counted_twice first.now n second.now m) out.new) }
{
    put_counted(first, n, out)?;
    put_counted(second, m, out)
}

/// Puts a number behind a label, and a text behind it.
#[tactic(auto, using(nif_stream::specs::PutterLaws::puts))]
fn put_between<K: Sink>(
    label: &[u8],
    n: u32,
    rest: &[u8],
    out: &mut Putter<'_, K>,
) -> Result<(), WriteFault>
    requires { IsSound out.old }
    ensures ok { OnOk result (Puts K.grew K.write_faults out.old (counted label.now n ++ rest.now) out.new) }
    ensures err { OnErr result (Fails K.grew K.write_faults out.old (counted label.now n ++ rest.now) out.new) }
{
    put_counted(label, n as u64, out)?;
    out.put(rest)
}

/// Puts a value behind a label, and its place.
fn put_found<K: Sink>(
    label: &[u8],
    value: u32,
    at: u64,
    out: &mut Putter<'_, K>,
) -> Result<(), WriteFault>
    requires { IsSound out.old }
    ensures ok { OnOk result (Puts K.grew K.write_faults out.old
        (counted_twice label.now value (codes " at ") at) out.new) }
    ensures err { OnErr result (Fails K.grew K.write_faults out.old
        (counted_twice label.now value (codes " at ") at) out.new) }
{
    put_counted_twice(label, value as u64, b" at ", at, out)
}

/// Puts that a version is out of range.
#[tactic(auto, using(nif_stream::specs::PutterLaws::puts))]
fn put_range<K: Sink>(number: u32, out: &mut Putter<'_, K>) -> Result<(), WriteFault>
    requires { IsSound out.old }
    ensures ok { OnOk result (Puts K.grew K.write_faults out.old (file_fault_text (file.VersionRange number)) out.new) }
    ensures err { OnErr result (Fails K.grew K.write_faults out.old
        (file_fault_text (file.VersionRange number)) out.new) }
{
    put_version(b"file F6: version ", number, out)?;
    out.put(b" out of range")
}

/// Puts the versions of the line and of the field.
#[tactic(auto, using(nif_stream::specs::PutterLaws::puts))]
fn put_versions<K: Sink>(line: u32, field: u32, out: &mut Putter<'_, K>) -> Result<(), WriteFault>
    requires { IsSound out.old }
    ensures ok { OnOk result (Puts K.grew K.write_faults out.old
        (file_fault_text (file.VersionDisagrees line field)) out.new) }
    ensures err { OnErr result (Fails K.grew K.write_faults out.old
        (file_fault_text (file.VersionDisagrees line field)) out.new) }
{
    put_version(b"file F7: line version ", line, out)?;
    put_version(b", field version ", field, out)
}

/// Puts that the byte order is unknown.
fn put_endian<K: Sink>(value: u8, out: &mut Putter<'_, K>) -> Result<(), WriteFault>
    requires { IsSound out.old }
    ensures ok { OnOk result (Puts K.grew K.write_faults out.old (file_fault_text (file.EndianValue value)) out.new) }
    ensures err { OnErr result (Fails K.grew K.write_faults out.old
        (file_fault_text (file.EndianValue value)) out.new) }
{
    put_counted(b"file F8: endian value ", value as u64, out)
}

/// Puts that the index word of a block names no type.
fn put_index<K: Sink>(block: u32, index: u16, out: &mut Putter<'_, K>) -> Result<(), WriteFault>
    requires { IsSound out.old }
    ensures ok { OnOk result (Puts K.grew K.write_faults out.old
        (file_fault_text (file.TypeIndex block index)) out.new) }
    ensures err { OnErr result (Fails K.grew K.write_faults out.old
        (file_fault_text (file.TypeIndex block index)) out.new) }
{
    put_counted_twice(
        b"file F12: block ",
        block as u64,
        b" type index ",
        index as u64,
        out,
    )
}

/// Puts that the type of a block is unknown.
#[tactic(auto, using(nif_stream::specs::PutterLaws::puts))]
fn put_unknown<K: Sink>(block: u32, name: &[u8], out: &mut Putter<'_, K>) -> Result<(), WriteFault>
    requires { IsSound out.old }
    ensures ok { OnOk result (Puts K.grew K.write_faults out.old
        (file_fault_text (file.UnknownType block name.now)) out.new) }
    ensures err { OnErr result (Fails K.grew K.write_faults out.old
        (file_fault_text (file.UnknownType block name.now)) out.new) }
{
    match put_between(b"file F13: block ", block, b" unknown type ", out) {
        Ok(()) => {}
        Err(WriteFault) => return Err(WriteFault),
    }
    put_quoted(name, out)
}

/// Puts that the type of a block is abstract.
fn put_abstract<K: Sink>(block: u32, out: &mut Putter<'_, K>) -> Result<(), WriteFault>
    requires { IsSound out.old }
    ensures ok { OnOk result (Puts K.grew K.write_faults out.old (file_fault_text (file.AbstractType block)) out.new) }
    ensures err { OnErr result (Fails K.grew K.write_faults out.old
        (file_fault_text (file.AbstractType block)) out.new) }
{
    put_between(b"file F14: block ", block, b" abstract type", out)
}

/// Puts that the type of a block is closed, and by which reason.
fn put_closed<K: Sink>(
    block: u32,
    reason: Closed,
    out: &mut Putter<'_, K>,
) -> Result<(), WriteFault>
    requires { IsSound out.old }
    ensures ok { OnOk result (Puts K.grew K.write_faults out.old
        (file_fault_text (file.ClosedType block reason)) out.new) }
    ensures err { OnErr result (Fails K.grew K.write_faults out.old
        (file_fault_text (file.ClosedType block reason)) out.new) }
{
    put_counted_twice(
        b"file F15: block ",
        block as u64,
        b" closed type C",
        reason_number(reason),
        out,
    )
}

/// Puts that the zero word before a block isn't zero.
fn put_check_word<K: Sink>(
    block: u32,
    value: u32,
    out: &mut Putter<'_, K>,
) -> Result<(), WriteFault>
    requires { IsSound out.old }
    ensures ok { OnOk result (Puts K.grew K.write_faults out.old
        (file_fault_text (file.CheckWord block value)) out.new) }
    ensures err { OnErr result (Fails K.grew K.write_faults out.old
        (file_fault_text (file.CheckWord block value)) out.new) }
{
    put_counted_twice(
        b"file F16: block ",
        block as u64,
        b" check word ",
        value as u64,
        out,
    )
}

/// Puts the size of a block that is stated, and that which it has.
#[tactic(auto, using(nif_stream::specs::PutterLaws::puts))]
fn put_sizes<K: Sink>(
    block: u32,
    stated: u32,
    used: u32,
    out: &mut Putter<'_, K>,
) -> Result<(), WriteFault>
    requires { IsSound out.old }
    ensures ok { OnOk result (Puts K.grew K.write_faults out.old
        (file_fault_text (file.BlockSize block stated used)) out.new) }
    ensures err { OnErr result (Fails K.grew K.write_faults out.old
        (file_fault_text (file.BlockSize block stated used)) out.new) }
{
    put_counted(b"file F17: block ", block as u64, out)?;
    put_counted_twice(b" size ", stated as u64, b", used ", used as u64, out)
}

/// Puts the text of a fault of a file, without a line end. The name of an unknown type is put in quotes. It takes no
/// memory.
pub fn put_file_fault<K: Sink>(fault: &FileFault, out: &mut Putter<'_, K>) -> Result<(), WriteFault>
    requires { IsSound out.old }
    ensures ok { OnOk result (Puts K.grew K.write_faults out.old (file_fault_text fault.now) out.new) }
    ensures err { OnErr result (Fails K.grew K.write_faults out.old (file_fault_text fault.now) out.new) }
{
    match fault {
        FileFault::TooLong => out.put(b"file F3: too long"),
        FileFault::BadLine => out.put(b"file F5: bad line"),
        FileFault::NoTypeList => out.put(b"file F23: no type list"),
        FileFault::ReadFault => out.put(b"read fault"),
        FileFault::NoMemory => out.put(b"no memory"),
        FileFault::Ended { at } => put_counted(b"file F1: ended at ", *at, out),
        FileFault::Trailing { at } => put_counted(b"file F2: trailing at ", *at, out),
        FileFault::LineTooLong { at } => put_counted(b"file F4: line too long at ", *at, out),
        FileFault::VersionRange { number } => put_range(*number, out),
        FileFault::VersionDisagrees { line, field } => put_versions(*line, *field, out),
        FileFault::EndianValue { value } => put_endian(*value, out),
        FileFault::BsRange { value } => put_counted(b"file F10: BS version ", *value as u64, out),
        FileFault::TooManyBlocks { count } => put_between(b"file F11: ", *count, b" blocks", out),
        FileFault::TypeIndex { block, index } => put_index(*block, *index, out),
        FileFault::UnknownType { block, name } => put_unknown(*block, name.bytes(), out),
        FileFault::AbstractType { block } => put_abstract(*block, out),
        FileFault::ClosedType { block, reason } => put_closed(*block, *reason, out),
        FileFault::CheckWord { block, value } => put_check_word(*block, *value, out),
        FileFault::BlockSize {
            block,
            stated,
            used,
        } => put_sizes(*block, *stated, *used, out),
        FileFault::RefRange { at, value } => put_found(b"file F18: reference ", *value, *at, out),
        FileFault::StringRange { at, value } => put_found(b"file F19: text ", *value, *at, out),
        FileFault::TooDeep { at } => put_counted(b"file F20: too deep at ", *at, out),
        FileFault::TooManyNodes { at } => put_counted(b"file F21: too many nodes at ", *at, out),
        FileFault::TooManyTypes { count } => put_between(b"file F22: ", *count, b" types", out),
    }
}

/// Puts how many nodes there are, and a line end.
#[tactic(auto, using(nif_stream::specs::PutterLaws::puts))]
fn put_nodes<K: Sink>(nodes: u64, out: &mut Putter<'_, K>) -> Result<(), WriteFault>
    requires { IsSound out.old }
    ensures ok { OnOk result (Puts K.grew K.write_faults out.old
        (counted (codes " nodes ") nodes ++ codes "\n") out.new) }
    ensures err { OnErr result (Fails K.grew K.write_faults out.old
        (counted (codes " nodes ") nodes ++ codes "\n") out.new) }
{
    put_counted(b" nodes ", nodes, out)?;
    out.put(b"\n")
}

/// Puts how many blocks, bytes and nodes there are, and a line end.
#[tactic(auto, using(nif_stream::specs::PutterLaws::puts))]
fn put_totals<K: Sink>(
    blocks: u64,
    bytes: u64,
    nodes: u64,
    out: &mut Putter<'_, K>,
) -> Result<(), WriteFault>
    requires { IsSound out.old }
    ensures ok { OnOk result (Puts K.grew K.write_faults out.old
        (counted_twice (codes " blocks ") blocks (codes " bytes ") bytes ++
        (counted (codes " nodes ") nodes ++ codes "\n")) out.new) }
    ensures err { OnErr result (Fails K.grew K.write_faults out.old
        (counted_twice (codes " blocks ") blocks (codes " bytes ") bytes ++
        (counted (codes " nodes ") nodes ++ codes "\n")) out.new) }
{
    put_counted_twice(b" blocks ", blocks, b" bytes ", bytes, out)?;
    put_nodes(nodes, out)
}

/// Puts the line of a file that is accepted: its version, and how many blocks, bytes and nodes it has. It takes no
/// memory.
#[tactic(auto, using(nif_stream::specs::PutterLaws::puts))]
pub fn put_summary<K: Sink>(
    version: Version,
    blocks: u32,
    bytes: u32,
    nodes: u32,
    out: &mut Putter<'_, K>,
) -> Result<(), WriteFault>
    requires { IsSound out.old }
    ensures ok { OnOk result (Puts K.grew K.write_faults out.old
        (summary_text version.number blocks bytes nodes) out.new) }
    ensures err { OnErr result (Fails K.grew K.write_faults out.old
        (summary_text version.number blocks bytes nodes) out.new) }
{
    put_version(b"ok ", version.number, out)?;
    put_totals(blocks as u64, bytes as u64, nodes as u64, out)
}
