//! Numbers and lines from the bytes that are taken.
ghost use Rattle.std.specs.Prelude.{◌≡◌, ◌≢◌, ◌+◌, ◌^◌, ◌<◌, ◌≤◌, ℕ, length, take, None, [], ◌∷◌, ◌++◌, IfOk, IfErr, OnOk, All};
ghost use Rattle.nif_base.specs.Node.{low_first, number};
ghost use Rattle.nif_layout.specs.LeafFault.{shortage};
ghost use Rattle.nif_stream.specs.Taking.{IsSound};
ghost use Rattle.nif_decode.specs.Faults.{cause};
ghost use Rattle.nif_decode.specs.Answers.{Takes, Ends, IsReadyTaker, line_ends};

use crate::faults::{ValueFault, fault_at};
use nif_base::Source;
use nif_stream::Taker;

/// The number that bytes spell, the lowest first.
fn low_value(bytes: &[u8]) -> u64
    requires { length bytes.now ≤ 8 }
    ensures spelled { low_first (length bytes.now) result ≡ bytes.now }
    ensures small { result < 256 ^ length bytes.now }
{
    let mut bits: u64 = 0;
    let mut i = bytes.len();
    while i > 0 {
        i -= 1;
        bits = bits * 256 + bytes[i] as u64;
    }
    bits
}

/// The number that bytes spell, the lowest first where it is little, else the highest first.
fn number_at(little: bool, bytes: &mut [u8]) -> u64
    requires { length bytes.old ≤ 8 }
    ensures spelled { number little (length bytes.old) result ≡ bytes.old }
    ensures small { result < 256 ^ length bytes.old }
{
    if little {
        return low_value(bytes);
    }
    bytes.reverse();
    low_value(bytes)
}

/// Takes a number of as many bytes as the buffer has.
fn take_into<S: Source>(
    little: bool,
    bytes: &mut [u8],
    taker: &mut Taker<'_, S>,
) -> Result<u64, ValueFault>
    requires width { length bytes.old ≤ 8 }
    requires ready { IsReadyTaker taker.old }
    ensures bits { IfOk result (λ bits. bits < 256 ^ length bytes.old) }
    ensures ok { IfOk result (λ bits. Takes S.left S.still S.read_faults taker.old
        (number little (length bytes.old) bits) taker.new) }
    ensures err { IfErr result (λ fault. Ends S.left S.still S.read_faults
        (shortage (length bytes.old)) taker.old taker.new (cause fault)) }
{
    let at = taker.place();
    match taker.take(bytes) {
        Ok(()) => Ok(number_at(little, bytes)),
        Err(fault) => Err(fault_at(at, fault)),
    }
}

/// Takes a number of so many bytes, the lowest first where it is little, else the highest first. Its fault is that of one
/// part of so many bytes at the place of the taker.
pub fn take_number<S: Source>(
    little: bool,
    width: u8,
    taker: &mut Taker<'_, S>,
) -> Result<u64, ValueFault>
    requires width { width ≤ 8 }
    requires ready { IsReadyTaker taker.old }
    ensures bits { IfOk result (λ bits. bits < 256 ^ width) }
    ensures ok { IfOk result (λ bits. Takes S.left S.still S.read_faults taker.old
        (number little width bits) taker.new) }
    ensures err { IfErr result (λ fault. Ends S.left S.still S.read_faults (shortage width) taker.old taker.new
        (cause fault)) }
{
    let mut array = [0; 8];
    take_into(little, &mut array[..width as usize], taker)
}

/// Takes nothing: the taker has not failed, and its place is one of a file.
pub(crate) fn take_nothing<S: Source>(taker: &mut Taker<'_, S>) -> Result<(), ValueFault>
    requires { IsSound taker.old }
    ensures ok { OnOk result (Takes S.left S.still S.read_faults taker.old [] taker.new) }
    ensures err { IfErr result (λ fault. Ends S.left S.still S.read_faults (λ p. None) taker.old taker.new
        (cause fault)) }
{
    let at = taker.place();
    match taker.take(&mut []) {
        Ok(()) => Ok(()),
        Err(fault) => Err(fault_at(at, fault)),
    }
}

/// Takes a line, and answers how many bytes it has without the 0x0A at its end.
pub(crate) fn take_line<S: Source>(
    into: &mut [u8; 255],
    taker: &mut Taker<'_, S>,
) -> Result<usize, ValueFault>
    requires { IsReadyTaker taker.old }
    ensures bound { IfOk result (λ n. n ≤ 255) }
    ensures one_line { IfOk result (λ n. All (λ c. c ≢ 10) (take n into.new)) }
    ensures ok { IfOk result (λ n. Takes S.left S.still S.read_faults taker.old
        (take n into.new ++ 10 ∷ []) taker.new) }
    ensures err { IfErr result (λ fault. Ends S.left S.still S.read_faults line_ends taker.old taker.new
        (cause fault)) }
{
    let at = taker.place();
    match taker.line(into) {
        Ok(n) => Ok(n),
        Err(fault) => Err(fault_at(at, fault)),
    }
}
