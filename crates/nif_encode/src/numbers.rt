//! Numbers to bytes.
ghost use Rattle.std.specs.Prelude.{◌≡◌, ◌^◌, ◌<◌, length, OnOk, OnErr};
ghost use Rattle.nif_base.specs.Node.{low_first, number};
ghost use Rattle.nif_stream.specs.Putting.{IsSound, Puts, Fails};

use nif_base::{Sink, WriteFault};
use nif_stream::Putter;

/// Fills an array with the lowest bytes of a number, the lowest first.
fn fill(bytes: &mut [u8], number: u64)
    ensures { bytes.new ≡ low_first (length bytes.old) number }
{
    let mut rest = number;
    for i in 0..bytes.len() {
        bytes[i] = (rest % 256) as u8;
        rest /= 256;
    }
}

/// Puts the lowest bytes of a number, so many as the array has: the lowest first where it is little, else the highest.
fn put_filled<K: Sink>(
    little: bool,
    bytes: &mut [u8],
    bits: u64,
    out: &mut Putter<'_, K>,
) -> Result<(), WriteFault>
    ensures ok { OnOk result (Puts K.grew K.write_faults out.old (number little (length bytes.old) bits) out.new) }
    ensures err { OnErr result (Fails K.grew K.write_faults out.old (number little (length bytes.old) bits) out.new) }
{
    fill(bytes, bits);
    if !little {
        bytes.reverse();
    }
    out.put(bytes)
}

/// Puts the lowest bytes of a number, so many as its width says: the lowest first where it is little, else the highest.
pub fn put_number<K: Sink>(
    little: bool,
    width: u8,
    bits: u64,
    out: &mut Putter<'_, K>,
) -> Result<(), WriteFault>
    ensures ok { OnOk result (Puts K.grew K.write_faults out.old (number little width bits) out.new) }
    ensures err { OnErr result (Fails K.grew K.write_faults out.old (number little width bits) out.new) }
{
    if width > 8 {
        return put_wide(little, width, bits, out);
    }
    let mut array = [0u8; 8];
    put_filled(little, &mut array[..width as usize], bits, out)
}

/// Puts a number of more than eight bytes. A large array stands here alone, since it is cleared at each call.
#[cold]
#[inline(never)]
fn put_wide<K: Sink>(
    little: bool,
    width: u8,
    bits: u64,
    out: &mut Putter<'_, K>,
) -> Result<(), WriteFault>
    ensures ok { OnOk result (Puts K.grew K.write_faults out.old (number little width bits) out.new) }
    ensures err { OnErr result (Fails K.grew K.write_faults out.old (number little width bits) out.new) }
{
    let mut array = [0u8; 255];
    put_filled(little, &mut array[..width as usize], bits, out)
}
