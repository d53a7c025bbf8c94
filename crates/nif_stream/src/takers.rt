ghost use Rattle.std.specs.Prelude.{◌≡◌, ◌≢◌, ℕ, ◌+◌, ◌-◌, ◌<◌, ◌≤◌, ◌^◌, ◌↔◌, List, [], ◌∷◌, ◌++◌, length, min, IfOk, OnOk, OnErr, IfErr, IfSome, Option, Some, None, Ok, Err, take, slice_range, IsTrue, All};
ghost use Rattle.nif_base.specs.Limits.{most_file_bytes};
ghost use Rattle.nif_base.specs.Outside.{HasCause, prepended, IsAtEnd};

use nif_base::limits::MOST_FILE_BYTES;
use nif_base::{Failed, Source};
use thiserror::Error;

/// Why bytes were not taken.
#[derive(Debug, Drop, Clone, Copy, PartialEq, Eq, Error)]
pub enum TakeFault {
    #[error("the bytes end too early")]
    Ended,
    #[error("a line has more than 255 bytes")]
    LineTooLong,
    #[error("there are more than 67108864 bytes")]
    TooLong,
    #[error("a read failed")]
    ReadFault,
}

/// The bytes that the source gave and that are not yet taken, at most 4,096.
#[derive(Drop)]
struct Held {
    buf: [u8; 4096],
    from: usize,
    to: usize,
    ghost order: { from ≤ to },
    ghost within: { to ≤ 4096 },
}

impl Held {
    ghost use Rattle.nif_stream.specs.Taking.{bytes_of};

    fn new() -> Held
        ensures { bytes_of result ≡ [] }
    {
        Held {
            buf: [0; 4096],
            from: 0,
            to: 0,
        }
    }

    fn is_empty(&self) -> bool
        ensures { IsTrue result ↔ (bytes_of self.now ≡ []) }
    {
        self.from == self.to
    }

    /// Holds the next bytes of the source in place of those that are held.
    fn fill<S: Source>(&mut self, source: &mut S) -> Result<(), Failed>
        ensures bytes { S.left source.old ≡ prepended (bytes_of self.new) (S.left source.new) }
        ensures err { OnErr result (bytes_of self.new ≡ []) }
        ensures end { OnOk result (bytes_of self.new ≡ [] → IsAtEnd (S.left source.new)) }
        ensures cause { HasCause (S.read_faults source.old) (S.read_faults source.new) result }
        ensures still { S.still source.old source.new }
    {
        self.from = 0;
        self.to = 0;
        match source.read(&mut self.buf) {
            Ok(count) => {
                self.to = count;
                Ok(())
            }
            Err(Failed) => Err(Failed),
        }
    }

    /// Moves as many bytes to the front of a part as there are, and as it has place for.
    #[tactic(auto, using(crate::proofs::Parts::given_range))]
    fn give(&mut self, part: &mut [u8]) -> usize
        ensures count { result ≡ min (length part.new) (length (bytes_of self.old)) }
        ensures bytes { bytes_of self.old ≡ take result part.new ++ bytes_of self.new }
    {
        let held = &self.buf[self.from..self.to];
        let count = part.len().min(held.len());
        part[..count].copy_from_slice(&held[..count]);
        self.from += count;
        count
    }
}

/// How many bytes were taken.
#[derive(Drop, Clone, Copy)]
struct Place {
    taken: u64,
    ghost within: { taken ≤ most_file_bytes },
}

/// Takes the bytes of a source in order, through an array of 4,096 bytes that it holds itself; it takes no memory.
/// After a fault it answers that fault to every later call.
#[derive(Drop)]
pub struct Taker<'a, S: Source> {
    source: &'a mut S,
    held: Held,
    place: Place,
    fault: Option<TakeFault>,
}

impl<'a, S: Source> Taker<'a, S> {
    ghost use Rattle.nif_stream.specs.Taking.{source_of, ReadsFrom, place_of, fault_of, IsSound, left_of, ahead_of, need_fault, line_fault, asked_at, Reads, Takes, Misses};

    /// A taker of this source; nothing is taken and nothing is read yet.
    pub fn new(source: &'a mut S) -> Taker<'a, S>
        ensures same_reference { ReadsFrom result source.entry }
        ensures source { source_of result ≡ source.old }
        ensures still { S.still source.old (source_of result) }
        ensures sound { IsSound result }
        ensures place { place_of result ≡ 0 }
        ensures left { left_of S.left result ≡ S.left source.old }
        ensures ahead { ahead_of result ≡ 0 }
    {
        Taker {
            source,
            held: Held::new(),
            place: Place { taken: 0 },
            fault: None,
        }
    }

    /// How many bytes were taken by calls that succeeded: at most 2^26.
    pub fn place(&self) -> u64
        ensures place { result ≡ place_of self.now }
        ensures bound { result ≤ most_file_bytes }
    {
        self.place.taken
    }

    fn fail(&mut self, fault: TakeFault) -> TakeFault
        ensures fault { result ≡ fault }
        ensures stays { self.new ≡ record self.old { fault = Some fault } }
    {
        self.fault = Some(fault);
        fault
    }

    /// Holds a byte at least, unless none is left.
    fn hold(&mut self) -> Result<bool, TakeFault>
        requires { IsSound self.old }
        ensures ok { OnOk result (Reads S.left S.still S.read_faults self.old [] self.new) }
        ensures some { IfOk result (λ some. IsTrue some ↔ (0 < ahead_of self.new)) }
        ensures end { OnOk result (ahead_of self.new ≡ 0 → IsAtEnd (left_of S.left self.new)) }
        ensures read { IfErr result (λ fault. fault ≡ TakeFault.ReadFault) }
        ensures err { IfErr result (Misses S.left S.still S.read_faults self.old (λ _. None) 0 self.new) }
    {
        if !self.held.is_empty() {
            return Ok(true);
        }
        match self.held.fill(self.source) {
            Ok(()) => Ok(!self.held.is_empty()),
            Err(Failed) => Err(self.fail(TakeFault::ReadFault)),
        }
    }

    /// Holds a byte at least, of those at most 2^26 that a source may have; `done` bytes were given in this call.
    fn ready(&mut self, done: u64) -> Result<(), TakeFault>
        requires sound { IsSound self.old }
        requires within { place_of self.old + done ≤ most_file_bytes }
        ensures ok { OnOk result (Reads S.left S.still S.read_faults self.old [] self.new) }
        ensures some { OnOk result (0 < ahead_of self.new) }
        ensures room { OnOk result (place_of self.old + done < most_file_bytes) }
        ensures err { IfErr result (Misses S.left S.still S.read_faults self.old
            (need_fault (place_of self.old + done) 1) 0 self.new) }
    {
        if !self.hold()? {
            return Err(self.fail(TakeFault::Ended));
        }
        if self.place.taken + done >= MOST_FILE_BYTES {
            return Err(self.fail(TakeFault::TooLong));
        }
        Ok(())
    }

    /// Gives the first bytes of a part; `done` bytes were given in this call.
    fn give(&mut self, done: u64, part: &mut [u8]) -> Result<usize, TakeFault>
        requires sound { IsSound self.old }
        requires within { place_of self.old + done ≤ most_file_bytes }
        requires some { 0 < length part.old }
        ensures ok { IfOk result (λ n. Reads S.left S.still S.read_faults self.old (take n part.new) self.new) }
        ensures some { IfOk result (λ n. 0 < n) }
        ensures bound { IfOk result (λ n. n ≤ length part.new) }
        ensures room { IfOk result (λ n. place_of self.old + done + n ≤ most_file_bytes) }
        ensures err { IfErr result (Misses S.left S.still S.read_faults self.old
            (need_fault (place_of self.old + done) 1) 0 self.new) }
    {
        self.ready(done)?;
        let room = (MOST_FILE_BYTES - self.place.taken - done) as usize;
        let count = part.len().min(room);
        Ok(self.held.give(&mut part[..count]))
    }

    /// The next byte; `done` bytes were given in this call.
    fn byte(&mut self, done: u64) -> Result<u8, TakeFault>
        requires sound { IsSound self.old }
        requires within { place_of self.old + done ≤ most_file_bytes }
        ensures ok { IfOk result (λ byte. Reads S.left S.still S.read_faults self.old (byte ∷ []) self.new) }
        ensures room { OnOk result (place_of self.old + done < most_file_bytes) }
        ensures err { IfErr result (Misses S.left S.still S.read_faults self.old
            (need_fault (place_of self.old + done) 1) 0 self.new) }
    {
        let mut byte = [0];
        self.give(done, &mut byte)?;
        Ok(byte[0])
    }

    /// Moves the place behind the bytes that were given.
    fn pass(&mut self, count: u64)
        requires { place_of self.old + count ≤ most_file_bytes }
        ensures place { place_of self.new ≡ place_of self.old + count }
        ensures source { self.new.source ≡ self.old.source }
        ensures held { self.new.held ≡ self.old.held }
        ensures fault { self.new.fault ≡ self.old.fault }
    {
        self.place = Place {
            taken: self.place.taken + count,
        };
    }

    /// Fills `buf` with the next bytes. `TooLong`: the place and the length of `buf` are together above 2^26, and
    /// the source has more than 2^26 bytes in all. `Ended`: it is not `TooLong`, and fewer bytes are left than
    /// `buf` holds.
    pub fn take(&mut self, buf: &mut [u8]) -> Result<(), TakeFault>
        ensures ok { OnOk result (Takes S.left S.still S.read_faults self.old buf.new self.new) }
        ensures err { IfErr result (Misses S.left S.still S.read_faults self.old
            (need_fault (place_of self.old) (length buf.new))
            (asked_at (place_of self.old) (length buf.new)) self.new) }
        ensures stays { IfSome (fault_of self.old) (λ fault. (result ≡ Err fault) × (self.new ≡ self.old)) }
    {
        if let Some(fault) = self.fault {
            return Err(fault);
        }
        let mut filled = 0;
        while filled < buf.len() {
            let count = self.give(filled as u64, &mut buf[filled..])?;
            filled += count;
        }
        self.pass(filled as u64);
        Ok(())
    }

    /// Takes the bytes up to and with the first 0x0A, and answers their number without it. It needs the bytes up
    /// to and with that 0x0A where this is among the next 256, else 256 bytes; `TooLong` and `Ended` come for these
    /// bytes as in `take`. `LineTooLong`: neither of them comes, and none of the 256 bytes is 0x0A.
    pub fn line(&mut self, into: &mut [u8; 255]) -> Result<usize, TakeFault>
        ensures bound { IfOk result (λ n. n ≤ 255) }
        ensures ok { IfOk result (λ n. Takes S.left S.still S.read_faults self.old
            (take n into.new ++ 10 ∷ []) self.new) }
        ensures one_line { IfOk result (λ n. All (λ c. c ≢ 10) (take n into.new)) }
        ensures err { IfErr result (Misses S.left S.still S.read_faults self.old (line_fault (place_of self.old))
            (asked_at (place_of self.old) 256) self.new) }
        ensures stays { IfSome (fault_of self.old) (λ fault. (result ≡ Err fault) × (self.new ≡ self.old)) }
    {
        if let Some(fault) = self.fault {
            return Err(fault);
        }
        for length in 0..255 {
            let byte = self.byte(length as u64)?;
            if byte == b'\n' {
                self.pass(length as u64 + 1);
                return Ok(length);
            }
            into[length] = byte;
        }
        if self.byte(255)? == b'\n' {
            self.pass(256);
            return Ok(255);
        }
        Err(self.fail(TakeFault::LineTooLong))
    }

    /// Whether no byte is left. No fault but `ReadFault` comes, unless another was answered before.
    pub fn at_end(&mut self) -> Result<bool, TakeFault>
        ensures ok { OnOk result (Takes S.left S.still S.read_faults self.old [] self.new) }
        ensures answer { IfOk result (λ is_end. IfSome (left_of S.left self.old)
            (λ bytes. IsTrue is_end ↔ (bytes ≡ []))) }
        ensures read { IsSound self.old → IfErr result (λ fault. fault ≡ TakeFault.ReadFault) }
        ensures err { IfErr result (Misses S.left S.still S.read_faults self.old (λ _. None) 0 self.new) }
        ensures stays { IfSome (fault_of self.old) (λ fault. (result ≡ Err fault) × (self.new ≡ self.old)) }
    {
        if let Some(fault) = self.fault {
            return Err(fault);
        }
        Ok(!self.hold()?)
    }
}
