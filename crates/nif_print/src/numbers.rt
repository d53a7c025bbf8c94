//! Decimal numbers.
ghost use Rattle.std.specs.Prelude.{◌≡◌, ◌++◌, OnOk, OnErr, decimal};
ghost use Rattle.nif_stream.specs.Putting.{IsSound, Puts, Fails};

use itoa::Buffer;
use nif_base::{Sink, WriteFault};
use nif_stream::Putter;

/// Puts a number in decimal, without leading zeros.
pub fn put_decimal<K: Sink>(number: u64, out: &mut Putter<'_, K>) -> Result<(), WriteFault>
    requires { IsSound out.old }
    ensures ok { OnOk result (Puts K.grew K.write_faults out.old (decimal number) out.new) }
    ensures err { OnErr result (Fails K.grew K.write_faults out.old (decimal number) out.new) }
{
    let mut buffer = Buffer::new();
    out.put(buffer.format(number).as_bytes())
}

/// Puts a label and a number in decimal.
#[tactic(auto, using(nif_stream::specs::PutterLaws::puts))]
pub fn put_counted<K: Sink>(
    label: &[u8],
    number: u64,
    out: &mut Putter<'_, K>,
) -> Result<(), WriteFault>
    requires { IsSound out.old }
    ensures ok { OnOk result (Puts K.grew K.write_faults out.old (label.now ++ decimal number) out.new) }
    ensures err { OnErr result (Fails K.grew K.write_faults out.old (label.now ++ decimal number) out.new) }
{
    out.put(label)?;
    put_decimal(number, out)
}
