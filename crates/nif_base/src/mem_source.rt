//! A source in memory.
ghost use Rattle.std.specs.Prelude.{◌≡◌, ◌↔◌, ℕ, ◌<◌, ◌≤◌, List, [], length, IfOk, IsErr, Option, Some, IsTrue};
ghost use Rattle.std.specs.Option.{option_to_list};
ghost use Rattle.std.proofs.Common.{arith};
ghost use Rattle.nif_base.specs.Outside.{HasCause, prepended, moved, IsAtEnd};
ghost use Rattle.nif_base.specs.MemCalls.{fails, counted};

use crate::faults::Failed;
use crate::mem_calls::OneCall;
use crate::outside::Source;

/// Bytes in memory, given in pieces.
#[derive(Drop)]
pub struct MemSource<'a> {
    rest: &'a [u8],
    piece: usize,
    calls: OneCall,
    faults: u64,
    ghost some: { 0 < piece },
}

impl<'a> MemSource<'a> {
    ghost use Rattle.nif_base.specs.MemSource.{calls_of, piece_of};

    /// Gives at most `piece` bytes a call; the call of the number `fail_at`, counted from 0, fails, and no other.
    pub fn new(bytes: &'a [u8], piece: usize, fail_at: Option<u64>) -> MemSource<'a>
        requires { 0 < piece }
        ensures left { ⟦<MemSource<'a> as Source>⟧.left result ≡ Some bytes.now }
        ensures faults { ⟦<MemSource<'a> as Source>⟧.read_faults result ≡ 0 }
        ensures piece { piece_of result ≡ piece }
        ensures calls { calls_of result ≡ record { next = 0; failing = option_to_list fail_at } }
    {
        MemSource {
            rest: bytes,
            piece,
            calls: OneCall::new(fail_at),
            faults: 0,
        }
    }
}

impl Source for MemSource<'_> {
    ghost use Rattle.nif_base.specs.MemSource.{calls_of, piece_of};

    ghost left = { λ s. Some s.rest.now };

    ghost read_faults = { λ s. s.faults };

    ghost still = { λ a b. a.faults ≤ b.faults };

    ghost still_same = { λ a. Prim.omega arith };

    ghost still_joined = { λ a b c p q. Prim.omega arith };

    ghost still_counts = { λ a b p. p };

    fn read(&mut self, buf: &mut [u8]) -> Result<usize, Failed>
        ensures bound { IfOk result (λ n. n ≤ length buf.new) }
        ensures end { IfOk result (λ n. n ≡ 0 → 0 < length buf.new → self.new.rest.now ≡ []) }
        ensures bytes { Some self.old.rest.now ≡ prepended (moved result buf.new) (Some self.new.rest.now) }
        ensures cause { HasCause self.old.faults self.new.faults result }
        ensures still { self.old.faults ≤ self.new.faults }
        ensures fails { IsErr result ↔ IsTrue (fails (calls_of self.old)) }
        ensures piece { IfOk result (λ n. n ≤ piece_of self.old) }
        ensures same_piece { piece_of self.new ≡ piece_of self.old }
        ensures calls { calls_of self.new ≡ counted (calls_of self.old) }
    {
        if self.calls.is_failing() {
            self.faults = self.faults.saturating_add(1);
            return Err(Failed);
        }
        let count = buf.len().min(self.piece).min(self.rest.len());
        buf[..count].copy_from_slice(&self.rest[..count]);
        self.rest = &self.rest[count..];
        Ok(count)
    }
}
