//! Bytes in quotes.
ghost use Rattle.std.specs.Prelude.{◌≡◌, ◌<◌, OnOk, OnErr};
ghost use Rattle.nif_stream.specs.Putting.{IsSound, Puts, Fails};
ghost use Rattle.nif_print.specs.Quoted.{hex_digit, is_plain, quoted, quoted_byte, quoted_bytes};

use nif_base::{Sink, WriteFault};
use nif_stream::Putter;

/// A digit of a hexadecimal number, in lower case.
fn hex_digit(n: u8) -> u8
    requires { n < 16 }
    ensures { result ≡ hex_digit n }
{
    if n < 10 { b'0' + n } else { b'a' - 10 + n }
}

/// Whether a byte stands in quotes as it is.
fn is_plain(byte: u8) -> bool
    ensures { result ≡ is_plain byte }
{
    byte >= 0x20 && byte <= 0x7e && byte != b'"' && byte != b'\\'
}

/// Puts a byte as it stands in quotes.
fn put_byte<K: Sink>(byte: u8, out: &mut Putter<'_, K>) -> Result<(), WriteFault>
    requires { IsSound out.old }
    ensures ok { OnOk result (Puts K.grew K.write_faults out.old (quoted_byte byte) out.new) }
    ensures err { OnErr result (Fails K.grew K.write_faults out.old (quoted_byte byte) out.new) }
{
    if is_plain(byte) {
        return out.put(&[byte]);
    }
    out.put(&[b'\\', b'x', hex_digit(byte / 16), hex_digit(byte % 16)])
}

/// Puts bytes one behind another, as they stand in quotes.
fn put_bytes<K: Sink>(bytes: &[u8], out: &mut Putter<'_, K>) -> Result<(), WriteFault>
    requires { IsSound out.old }
    ensures ok { OnOk result (Puts K.grew K.write_faults out.old (quoted_bytes bytes.now) out.new) }
    ensures err { OnErr result (Fails K.grew K.write_faults out.old (quoted_bytes bytes.now) out.new) }
{
    for byte in bytes {
        match put_byte(*byte, out) {
            Ok(()) => {}
            Err(WriteFault) => return Err(WriteFault),
        }
    }
    Ok(())
}

/// Puts bytes in quotes: those from 0x20 to 0x7E as they are, but for the quote and the backslash; each other byte as
/// `\x` and two digits. It takes no memory.
#[tactic(auto, using(nif_stream::specs::PutterLaws::puts))]
pub fn put_quoted<K: Sink>(bytes: &[u8], out: &mut Putter<'_, K>) -> Result<(), WriteFault>
    requires { IsSound out.old }
    ensures ok { OnOk result (Puts K.grew K.write_faults out.old (quoted bytes.now) out.new) }
    ensures err { OnErr result (Fails K.grew K.write_faults out.old (quoted bytes.now) out.new) }
{
    out.put(b"\"")?;
    put_bytes(bytes, out)?;
    out.put(b"\"")
}
