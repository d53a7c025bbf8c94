ghost use Rattle.std.specs.Prelude.{◌≡◌, ℕ, ◌+◌, ◌-◌, ◌<◌, ◌≤◌, List, [], ◌++◌, length, OnOk, OnErr, IsErr, take};
ghost use Rattle.nif_base.specs.Outside.{HasCause};

use nif_base::{Sink, WriteFault, write_all};
use std::marker::Model;

/// The bytes that were put and not yet written, at most 4,096.
#[derive(Drop)]
struct Pending {
    buf: [u8; 4096],
    used: usize,
}

impl Model for Pending {
    ghost Value = { List ℕ };

    ghost view = { λ p. take p.used p.buf };

    ghost invariant = { λ p. p.used ≤ 4096 };
}

impl Pending {
    fn new() -> Pending
        ensures { result ≡ [] }
    {
        Pending {
            buf: [0; 4096],
            used: 0,
        }
    }

    fn bytes(&self) -> &[u8]
        ensures { result.now ≡ self.now }
    {
        &self.buf[..self.used]
    }

    fn room(&self) -> usize
        ensures { result + length self.now ≡ 4096 }
    {
        4096 - self.used
    }

    fn clear(&mut self)
        ensures { self.new ≡ [] }
    {
        self.used = 0;
    }

    fn add(&mut self, bytes: &[u8])
        requires { length self.old + length bytes.now ≤ 4096 }
        ensures { self.new ≡ self.old ++ bytes.now }
    {
        let end = self.used + bytes.len();
        self.buf[self.used..end].copy_from_slice(bytes);
        self.used = end;
    }
}

/// Puts bytes to a sink in order, through an array of 4,096 bytes that it holds itself; it takes no memory.
/// What is put is written by `finish` at the latest. A putter that is let go without it leaves the last bytes
/// unwritten.
#[derive(Drop)]
pub struct Putter<'a, K: Sink> {
    sink: &'a mut K,
    pending: Pending,
    failed: bool,
}

impl<'a, K: Sink> Putter<'a, K> {
    ghost use Rattle.nif_stream.specs.Putting.{sink_of, WritesTo, HasPut, HasTaken, HasFailed, IsSound, Puts, Fails};

    /// A putter to this sink; nothing is put and nothing is written yet.
    #[tactic(auto, unfolding(crate::specs::Putting::HasPut))]
    pub fn new(sink: &'a mut K) -> Putter<'a, K>
        ensures same_reference { WritesTo result sink.entry }
        ensures sink { sink_of result ≡ sink.old }
        ensures sound { IsSound result }
        ensures nothing { HasPut K.grew sink.old result [] }
    {
        Putter {
            sink,
            pending: Pending::new(),
            failed: false,
        }
    }

    /// Writes what is pending.
    fn flush(&mut self) -> Result<(), WriteFault>
        requires { IsSound self.old }
        ensures empty { OnOk result (self.new.pending ≡ []) }
        ensures ok { OnOk result (Puts K.grew K.write_faults self.old [] self.new) }
        ensures err { OnErr result (Fails K.grew K.write_faults self.old [] self.new) }
    {
        match write_all(self.sink, self.pending.bytes()) {
            Ok(()) => {
                self.pending.clear();
                Ok(())
            }
            Err(WriteFault) => {
                self.failed = true;
                Err(WriteFault)
            }
        }
    }

    /// Writes bytes while none are pending.
    fn write_through(&mut self, bytes: &[u8]) -> Result<(), WriteFault>
        requires sound { IsSound self.old }
        requires empty { self.old.pending ≡ [] }
        ensures ok { OnOk result (Puts K.grew K.write_faults self.old bytes.now self.new) }
        ensures err { OnErr result (Fails K.grew K.write_faults self.old bytes.now self.new) }
    {
        match write_all(self.sink, bytes) {
            Ok(()) => Ok(()),
            Err(WriteFault) => {
                self.failed = true;
                Err(WriteFault)
            }
        }
    }

    /// Puts bytes behind all that were put before. A fault comes only where a write to the sink failed in
    /// this call, or a call answered it before: the sink then has the first of all that was put, and each
    /// later call answers the fault and writes nothing.
    #[tactic(auto, using(crate::specs::PutterLaws::puts))]
    pub fn put(&mut self, bytes: &[u8]) -> Result<(), WriteFault>
        ensures ok { OnOk result (Puts K.grew K.write_faults self.old bytes.now self.new) }
        ensures err { OnErr result (Fails K.grew K.write_faults self.old bytes.now self.new) }
        ensures stays { HasFailed self.old → IsErr result × (sink_of self.new ≡ sink_of self.old) }
    {
        if self.failed {
            return Err(WriteFault);
        }
        if bytes.len() <= self.pending.room() {
            self.pending.add(bytes);
            return Ok(());
        }
        self.flush()?;
        if bytes.len() <= self.pending.room() {
            self.pending.add(bytes);
            return Ok(());
        }
        self.write_through(bytes)
    }

    /// Writes the bytes that are pending, so that the sink has all that was put. Faults are as those of `put`.
    pub fn finish(self) -> Result<(), WriteFault>
        ensures ok { OnOk result ((start : K) (all : List ℕ) → HasPut K.grew start self.entry all
            → K.grew start all self.exit.0.now) }
        ensures err { OnErr result ((start : K) (all : List ℕ) → HasPut K.grew start self.entry all
            → HasTaken K.grew start self.exit.0.now all) }
        ensures cause { IsSound self.entry → HasCause (K.write_faults (sink_of self.entry))
            (K.write_faults self.exit.0.now) result }
        ensures stays { HasFailed self.entry → IsErr result × (self.exit.0.now ≡ sink_of self.entry) }
    {
        let Putter {
            sink,
            pending,
            failed,
        } = self;
        if failed {
            return Err(WriteFault);
        }
        write_all(sink, pending.bytes())
    }
}
