//! What keeps files by their names.
ghost use Rattle.std.specs.Prelude.{◌≡◌, ℕ, ◌≤◌, List, [], OnOk, OnErr, IfSome, Option, IsSome, Some, None};
ghost use Rattle.std.specs.Option.{option_map};
ghost use Rattle.nif_base.specs.Outside.{HasCause};
ghost use Rattle.nif_base.specs.declared.shelves.Kind.{Kind};

use crate::faults::Failed;
use crate::outside::{Sink, Source};

/// What a file is opened for.
#[derive(Debug, Drop, Clone, Copy, PartialEq, Eq)]
pub enum Kind {
    Input,
    Output,
}

/// What keeps files by their names, reads one of them and writes one of them.
///
/// While there is no input, no byte is left; while there is no output, a write takes its bytes and changes no file.
pub trait Shelf: Source + Sink {
    ghost use Rattle.nif_base.specs.Shelf.{Desk, Refusal, opened, created, written, Opens, Refuses};

    /// The files, and the names of the current input and of the current output, where they are told.
    ghost desk: { Self → Option Desk };

    /// The last open or create that failed, where it is told.
    ghost refused: { Self → Option Refusal };

    /// How many opens and creates have failed.
    ghost open_faults: { Self → ℕ };

    /// Makes a file the current input; the current output stays. A failed open leaves files, input and output, and the
    /// bytes still to come.
    fn open_input(&mut self, name: &str) -> Result<(), Failed>
        ensures ok { OnOk result (desk self.new ≡ option_map (opened name.now) (desk self.old)) }
        ensures there { OnOk result (IfSome (desk self.old) (Opens name.now (Self.left self.new))) }
        ensures err { OnErr result (desk self.new ≡ desk self.old) }
        ensures err_left { OnErr result (Self.left self.new ≡ Self.left self.old) }
        ensures refused { Refuses Kind.Input name.now (refused self.old) (refused self.new) result }
        ensures taken { Self.taken self.new ≡ Self.taken self.old }
        ensures cause { HasCause (open_faults self.old) (open_faults self.new) result }
        ensures reads { Self.read_faults self.old ≤ Self.read_faults self.new }
        ensures writes { Self.write_faults self.old ≤ Self.write_faults self.new };

    /// Makes an empty file the current output, and leaves no current input. A failed create leaves files, input and
    /// output, and the bytes still to come.
    fn create_output(&mut self, name: &str) -> Result<(), Failed>
        ensures ok { OnOk result (desk self.new ≡ option_map (created name.now) (desk self.old)) }
        ensures err { OnErr result (desk self.new ≡ desk self.old) }
        ensures err_left { OnErr result (Self.left self.new ≡ Self.left self.old) }
        ensures refused { Refuses Kind.Output name.now (refused self.old) (refused self.new) result }
        ensures taken { Self.taken self.new ≡ Self.taken self.old }
        ensures cause { HasCause (open_faults self.old) (open_faults self.new) result }
        ensures reads { Self.read_faults self.old ≤ Self.read_faults self.new }
        ensures writes { Self.write_faults self.old ≤ Self.write_faults self.new };

    ghost left_told: { (a : Self) → IsSome (desk a) → IsSome (Self.left a) };

    ghost no_input: { (a : Self) (d : Desk) → desk a ≡ Some d → d.input ≡ None → Self.left a ≡ Some [] };

    ghost still_desk: { (a b : Self) → Self.still a b → desk b ≡ desk a };

    ghost still_refused: { (a b : Self) → Self.still a b → refused b ≡ refused a };

    ghost still_taken: { (a b : Self) → Self.still a b → Self.taken b ≡ Self.taken a };

    ghost still_writes: { (a b : Self) → Self.still a b → Self.write_faults a ≤ Self.write_faults b };

    ghost still_opens: { (a b : Self) → Self.still a b → open_faults a ≤ open_faults b };

    ghost grew_left: { (a b : Self) (x : List ℕ) → Self.grew a x b → Self.left b ≡ Self.left a };

    ghost grew_desk: { (a b : Self) (x : List ℕ) → Self.grew a x b → desk b ≡ option_map (written x) (desk a) };

    ghost grew_refused: { (a b : Self) (x : List ℕ) → Self.grew a x b → refused b ≡ refused a };

    ghost grew_reads: { (a b : Self) (x : List ℕ) → Self.grew a x b → Self.read_faults a ≤ Self.read_faults b };

    ghost grew_opens: { (a b : Self) (x : List ℕ) → Self.grew a x b → open_faults a ≤ open_faults b };
}
