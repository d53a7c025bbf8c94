//! What gives bytes and what takes them.
ghost use Rattle.std.specs.Prelude.{◌≡◌, ℕ, ◌<◌, ◌≤◌, List, [], ◌++◌, length, IfOk, Option};
ghost use Rattle.nif_base.specs.Outside.{HasCause, prepended, appended, moved, IsAtEnd};

use crate::faults::Failed;

/// What gives bytes, in order and in pieces of any size.
pub trait Source {
    /// The bytes still to come, where they are told.
    ghost left: { Self → Option (List ℕ) };

    /// How many reads have failed.
    ghost read_faults: { Self → ℕ };

    /// From the first state to the second nothing but reads was done.
    ghost still: { Self → Self → Type 0 };

    /// Gives the next bytes, at most as many as `buf` holds, and says how many: none only at the end or where
    /// `buf` is empty. A failed read takes no byte.
    fn read(&mut self, buf: &mut [u8]) -> Result<usize, Failed>
        ensures bound { IfOk result (λ n. n ≤ length buf.new) }
        ensures end { IfOk result (λ n. n ≡ 0 → 0 < length buf.new → IsAtEnd (left self.new)) }
        ensures bytes { left self.old ≡ prepended (moved result buf.new) (left self.new) }
        ensures cause { HasCause (read_faults self.old) (read_faults self.new) result }
        ensures still { still self.old self.new };

    ghost still_same: { (a : Self) → still a a };

    ghost still_joined: { (a b c : Self) → still a b → still b c → still a c };

    ghost still_counts: { (a b : Self) → still a b → read_faults a ≤ read_faults b };
}

/// What takes bytes, in order and in pieces of any size.
pub trait Sink {
    /// The bytes written, where they are told.
    ghost taken: { Self → Option (List ℕ) };

    /// How many writes have failed.
    ghost write_faults: { Self → ℕ };

    /// From the first state to the second nothing but writes was done, of these bytes.
    ghost grew: { Self → List ℕ → Self → Type 0 };

    /// Takes the first bytes of a piece, and says how many: at least one where there is one. A failed write takes
    /// no byte.
    fn write(&mut self, piece: &[u8]) -> Result<usize, Failed>
        ensures bound { IfOk result (λ n. n ≤ length piece.now) }
        ensures some { IfOk result (λ n. 0 < length piece.now → 0 < n) }
        ensures cause { HasCause (write_faults self.old) (write_faults self.new) result }
        ensures grew { grew self.old (moved result piece.now) self.new };

    ghost grew_same: { (a : Self) → grew a [] a };

    ghost grew_joined: { (a b c : Self) (x y z : List ℕ) → grew a x b → grew b y c → x ++ y ≡ z → grew a z c };

    ghost grew_counts: { (a b : Self) (x : List ℕ) → grew a x b → write_faults a ≤ write_faults b };

    ghost grew_taken: { (a b : Self) (x : List ℕ) → grew a x b → taken b ≡ appended (taken a) x };
}
