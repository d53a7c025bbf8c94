//! Reading all of a source, and writing all of a text.
ghost use Rattle.std.specs.Prelude.{◌≡◌, ◌≢◌, ℕ, ◌+◌, ◌<◌, ◌≤◌, List, [], ◌++◌, length, IfOk, OnOk, OnErr, Option, take, vec_len};
ghost use Rattle.nif_base.specs.Outside.{HasCause, IsAtEnd, prepended};
ghost use Rattle.nif_base.specs.Reading.{AnswersAll, ReadCause, TakesAtMost};

use crate::faults::{Failed, WriteFault};
use crate::outside::{Sink, Source};
use std::alloc::Global;
use thiserror::Error;

/// Writes all bytes, in as many pieces as the sink wants; where a write fails, the sink has taken the first of them.
#[tactic(auto, using(crate::proofs::Bytes::take_part))]
pub fn write_all<K: Sink>(sink: &mut K, bytes: &[u8]) -> Result<(), WriteFault>
    ensures ok { OnOk result (K.grew sink.old bytes.now sink.new) }
    ensures err { OnErr result ((n : ℕ) × K.grew sink.old (take n bytes.now) sink.new) }
    ensures cause { HasCause (K.write_faults sink.old) (K.write_faults sink.new) result }
{
    let mut done = 0;
    while done < bytes.len() {
        match sink.write(&bytes[done..]) {
            Ok(count) => done += count,
            Err(Failed) => return Err(WriteFault),
        }
    }
    Ok(())
}

/// Why not all was read.
#[derive(Debug, Drop, Clone, Copy, PartialEq, Eq, Error)]
pub enum AllFault {
    #[error("there are too many bytes")]
    TooLong,
    #[error("a read failed")]
    ReadFault,
    #[error("memory ran out")]
    NoMemory,
}

/// Reads to the end, but at most the first `most` bytes; it takes no byte more. It does not answer `TooLong`.
pub fn read_at_most<S: Source>(
    alloc: Global,
    source: &mut S,
    most: usize,
) -> Result<Vec<u8>, AllFault>
    ensures bytes { IfOk result (λ v. S.left source.old ≡ prepended v.items (S.left source.new)) }
    ensures bound { IfOk result (λ v. vec_len v ≤ most) }
    ensures end { IfOk result (λ v. vec_len v < most → IsAtEnd (S.left source.new)) }
    ensures never_too_long { result ≢ Err AllFault.TooLong }
    ensures taken { TakesAtMost most (S.left source.old) (S.left source.new) }
    ensures cause { ReadCause (S.read_faults source.old) (S.read_faults source.new) result }
    ensures still { S.still source.old source.new }
{
    let mut bytes = Vec::new(alloc);
    let mut buf = [0u8; 4096];
    'reads: while bytes.len() < most {
        let room = (most - bytes.len()).min(4096);
        match source.read(&mut buf[..room]) {
            Ok(0) => return Ok(bytes),
            Ok(count) => match bytes.extend_from_slice(&buf[..count]) {
                Ok(()) => {}
                Err(_) => return Err(AllFault::NoMemory),
            },
            Err(Failed) => return Err(AllFault::ReadFault),
        }
    }
    Ok(bytes)
}

/// Reads to the end. It takes at most one byte more than `most`, which decides every answer.
pub fn read_all<S: Source>(alloc: Global, source: &mut S, most: u32) -> Result<Vec<u8>, AllFault>
    ensures bytes { AnswersAll (S.left source.old) most result }
    ensures bound { IfOk result (λ v. vec_len v ≤ most) }
    ensures end { OnOk result (IsAtEnd (S.left source.new)) }
    ensures taken { TakesAtMost (most + 1) (S.left source.old) (S.left source.new) }
    ensures cause { ReadCause (S.read_faults source.old) (S.read_faults source.new) result }
    ensures still { S.still source.old source.new }
{
    let most = most as usize;
    match read_at_most(alloc, source, most + 1) {
        Ok(bytes) if bytes.len() <= most => Ok(bytes),
        Ok(_) => Err(AllFault::TooLong),
        Err(fault) => Err(fault),
    }
}
