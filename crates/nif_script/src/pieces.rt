//! Texts that are cut into pieces: a script into lines, and a line into words.
ghost use Rattle.std.specs.Prelude.{◌≡◌, ℕ, ◌≤◌, ◌+◌, ◌==◌, List, [], ◌∷◌, length, Option, Some, None, MatchOption, position};
ghost use Rattle.nif_script.specs.Forms.{pieces};
ghost use Rattle.nif_script.specs.Kept.{AreWithin};

use std::marker::Model;

/// The pieces to come of a text: what it has before, between and behind the bytes of one kind.
#[derive(Drop)]
pub(crate) struct Pieces<'a> {
    mark: u8,
    rest: Option<&'a [u8]>,
}

impl<'a> Model for Pieces<'a> {
    ghost use Rattle.std.specs.Prelude.{ℕ, List};
    ghost use Rattle.nif_script.specs.Pieces.{pieces_left};

    ghost Value = { List (List ℕ) };

    ghost view = { λ p. pieces_left p.mark p.rest };
}

/// The place of the first byte of this kind.
fn first(mark: u8, text: &[u8]) -> Option<usize>
    ensures { result ≡ position (λ byte. byte == mark) text.now }
{
    text.iter().position(|byte| *byte == mark)
}

/// The first piece, and what is behind the byte that ends it, where one does.
fn cut(mark: u8, text: &[u8]) -> (&[u8], Option<&[u8]>)
    ensures { MatchOption result.1 (pieces mark text.now ≡ result.0.now ∷ [])
        (λ behind. pieces mark text.now ≡ result.0.now ∷ pieces mark behind.now) }
{
    match first(mark, text) {
        Some(end) => (&text[..end], Some(&text[end + 1..])),
        None => (text, None),
    }
}

impl<'a> Pieces<'a> {
    /// The pieces of a text.
    pub(crate) fn of(mark: u8, text: &'a [u8]) -> Pieces<'a>
        ensures pieces { result ≡ pieces mark text.now }
        ensures few { length result ≤ length text.now + 1 }
        ensures short { AreWithin (length text.now) result }
    {
        Pieces {
            mark,
            rest: Some(text),
        }
    }

    /// The next piece, or none where none is left.
    pub(crate) fn next(&mut self) -> Option<&'a [u8]>
        ensures { MatchOption result ((self.old ≡ []) × (self.new ≡ []))
            (λ piece. self.old ≡ piece.now ∷ self.new) }
    {
        let text = match self.rest {
            Some(text) => text,
            None => return None,
        };
        let (piece, rest) = cut(self.mark, text);
        self.rest = rest;
        Some(piece)
    }
}
