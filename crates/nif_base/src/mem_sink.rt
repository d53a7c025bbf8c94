//! A sink in memory.
ghost use Rattle.std.specs.Prelude.{◌≡◌, ℕ, ◌<◌, ◌≤◌, List, [], ◌++◌, length, IfOk, IsErr, Option, Some, IsTrue};
ghost use Rattle.std.specs.Option.{option_to_list};
ghost use Rattle.std.proofs.Common.{ap};
ghost use Rattle.nif_base.specs.Outside.{HasCause, appended, moved};
ghost use Rattle.nif_base.specs.MemCalls.{fails, counted};
ghost use Rattle.nif_base.specs.Mem.{SinkGrew, sink_same, sink_joined};

use crate::faults::Failed;
use crate::mem_calls::OneCall;
use crate::outside::Sink;
use std::alloc::Global;

/// A vector that takes bytes in pieces. Where it finds no memory for them, the write fails.
#[derive(Drop)]
pub struct MemSink {
    bytes: Vec<u8>,
    piece: usize,
    calls: OneCall,
    faults: u64,
    ghost some: { 0 < piece },
}

impl MemSink {
    ghost use Rattle.nif_base.specs.MemSink.{calls_of, piece_of};

    /// Takes at most `piece` bytes a call; the call of the number `fail_at`, counted from 0, fails.
    pub fn new(alloc: Global, piece: usize, fail_at: Option<u64>) -> MemSink
        requires { 0 < piece }
        ensures taken { ⟦<MemSink as Sink>⟧.taken result ≡ Some [] }
        ensures faults { ⟦<MemSink as Sink>⟧.write_faults result ≡ 0 }
        ensures piece { piece_of result ≡ piece }
        ensures calls { calls_of result ≡ record { next = 0; failing = option_to_list fail_at } }
    {
        MemSink {
            bytes: Vec::new(alloc),
            piece,
            calls: OneCall::new(fail_at),
            faults: 0,
        }
    }

    /// What was taken.
    pub fn bytes(&self) -> &[u8]
        ensures { ⟦<MemSink as Sink>⟧.taken self.now ≡ Some result.now }
    {
        self.bytes.as_slice()
    }
}

impl Sink for MemSink {
    ghost use Rattle.nif_base.specs.MemSink.{calls_of, piece_of};

    ghost taken = { λ s. Some s.bytes.items };

    ghost write_faults = { λ s. s.faults };

    ghost grew = { λ a x b. SinkGrew a.bytes.items a.faults x b.bytes.items b.faults };

    ghost grew_same = { λ a. sink_same a.bytes.items a.faults };

    ghost grew_joined = { λ a b c x y z p q e. sink_joined _ _ _ _ _ _ x y z p q e };

    ghost grew_counts = { λ a b x p. p.later };

    ghost grew_taken = { λ a b x p. ap Some p.bytes };

    fn write(&mut self, piece: &[u8]) -> Result<usize, Failed>
        ensures bound { IfOk result (λ n. n ≤ length piece.now) }
        ensures some { IfOk result (λ n. 0 < length piece.now → 0 < n) }
        ensures cause { HasCause self.old.faults self.new.faults result }
        ensures grew { SinkGrew self.old.bytes.items self.old.faults
            (moved result piece.now) self.new.bytes.items self.new.faults }
        ensures fails { IsTrue (fails (calls_of self.old)) → IsErr result }
        ensures piece { IfOk result (λ n. n ≤ piece_of self.old) }
        ensures same_piece { piece_of self.new ≡ piece_of self.old }
        ensures calls { calls_of self.new ≡ counted (calls_of self.old) }
    {
        if self.calls.is_failing() {
            self.faults = self.faults.saturating_add(1);
            return Err(Failed);
        }
        let count = piece.len().min(self.piece);
        match self.bytes.extend_from_slice(&piece[..count]) {
            Ok(()) => Ok(count),
            Err(_) => {
                self.faults = self.faults.saturating_add(1);
                Err(Failed)
            }
        }
    }
}
