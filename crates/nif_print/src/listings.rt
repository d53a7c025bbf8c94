//! What is printed of a schema.
ghost use Rattle.std.specs.Prelude.{◌≡◌, ◌+◌, ◌^◌, ◌<◌, ◌++◌, ℕ, List, OnOk, OnErr, codes};
ghost use Rattle.nif_stream.specs.Putting.{IsSound, Puts, Fails};
ghost use Rattle.nif_print.specs.Listing.{reason_text, type_line, shares, totals, IsListing};

use crate::numbers::put_counted;
use nif_base::{Sink, WriteFault};
use nif_check::Checked;
use nif_schema::Closed;
use nif_stream::Putter;

/// The number and the text of a reason.
fn text_of(reason: Closed) -> &'static [u8]
    ensures { result.now ≡ reason_text reason }
{
    match reason {
        Closed::C0 => b"C0 uses a closed type",
        Closed::C1 => b"C1 undefined type",
        Closed::C2 => b"C2 undefined parent",
        Closed::C3 => b"C3 parent loop",
        Closed::C4 => b"C4 bad expression",
        Closed::C5 => b"C5 unknown name",
        Closed::C6 => b"C6 name is not a number",
        Closed::C7 => b"C7 template missing",
        Closed::C8 => b"C8 template undefined",
        Closed::C9 => b"C9 width is not an array",
        Closed::C10 => b"C10 storage is not an integer",
        Closed::C11 => b"C11 bad version text",
        Closed::C12 => b"C12 undefined only or exclude type",
        Closed::C13 => b"C13 bad bit member",
    }
}

/// Puts the end of the line of a closed type: a blank, the reason and a line end.
#[tactic(auto, using(nif_stream::specs::PutterLaws::puts))]
fn put_reason<K: Sink>(reason: Closed, out: &mut Putter<'_, K>) -> Result<(), WriteFault>
    requires { IsSound out.old }
    ensures ok { OnOk result (Puts K.grew K.write_faults out.old
        (codes " " ++ (reason_text reason ++ codes "\n")) out.new) }
    ensures err { OnErr result (Fails K.grew K.write_faults out.old
        (codes " " ++ (reason_text reason ++ codes "\n")) out.new) }
{
    out.put(b" ")?;
    out.put(text_of(reason))?;
    out.put(b"\n")
}

/// Puts the line of a type that is closed for this reason, or nothing where it is open.
#[tactic(auto, using(nif_stream::specs::PutterLaws::puts))]
fn put_type<K: Sink>(
    name: &[u8],
    reason: Option<Closed>,
    out: &mut Putter<'_, K>,
) -> Result<(), WriteFault>
    requires { IsSound out.old }
    ensures ok { OnOk result (Puts K.grew K.write_faults out.old (type_line name.now reason) out.new) }
    ensures err { OnErr result (Fails K.grew K.write_faults out.old (type_line name.now reason) out.new) }
{
    let Some(reason) = reason else {
        return Ok(());
    };
    out.put(b"closed ")?;
    out.put(name)?;
    put_reason(reason, out)
}

/// Puts how many types are open and how many are closed.
#[tactic(auto, using(nif_stream::specs::PutterLaws::puts))]
fn put_shares<K: Sink>(
    open_types: u64,
    closed_types: u64,
    out: &mut Putter<'_, K>,
) -> Result<(), WriteFault>
    requires { IsSound out.old }
    ensures ok { OnOk result (Puts K.grew K.write_faults out.old (shares open_types closed_types) out.new) }
    ensures err { OnErr result (Fails K.grew K.write_faults out.old (shares open_types closed_types) out.new) }
{
    put_counted(b" open ", open_types, out)?;
    put_counted(b" closed ", closed_types, out)?;
    out.put(b"\n")
}

/// Puts the totals.
#[tactic(auto, using(nif_stream::specs::PutterLaws::puts))]
fn put_totals<K: Sink>(
    open_types: u64,
    closed_types: u64,
    out: &mut Putter<'_, K>,
) -> Result<(), WriteFault>
    requires sound { IsSound out.old }
    requires fits { open_types + closed_types < 2 ^ 64 }
    ensures ok { OnOk result (Puts K.grew K.write_faults out.old (totals open_types closed_types) out.new) }
    ensures err { OnErr result (Fails K.grew K.write_faults out.old (totals open_types closed_types) out.new) }
{
    put_counted(b"types ", open_types + closed_types, out)?;
    put_shares(open_types, closed_types, out)
}

/// Puts a line for each closed type in the order of the schema, and then how many types it has, open and closed.
/// It takes no memory.
#[tactic(auto, using(nif_stream::specs::PutterLaws::puts))]
pub fn schema_list<K: Sink>(checked: &Checked, out: &mut Putter<'_, K>) -> Result<(), WriteFault>
    requires { IsSound out.old }
    ensures ok { OnOk result ((text : List ℕ) × IsListing checked.now text
        × Puts K.grew K.write_faults out.old text out.new) }
    ensures err { OnErr result ((text : List ℕ) × IsListing checked.now text
        × Fails K.grew K.write_faults out.old text out.new) }
{
    let schema = checked.schema();
    let mut open_types = 0u64;
    let mut closed_types = 0u64;
    for number in 0..schema.count() {
        let reason = checked.reason(number);
        match put_type(schema.decl(number).name.bytes(), reason, out) {
            Ok(()) => {}
            Err(WriteFault) => return Err(WriteFault),
        }
        if reason.is_some() {
            closed_types += 1;
        } else {
            open_types += 1;
        }
    }
    put_totals(open_types, closed_types, out)
}
