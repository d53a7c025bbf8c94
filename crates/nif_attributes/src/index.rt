//! Which tokens may occur in a text.
ghost use Rattle.std.specs.Prelude.{◌≡◌, ℕ, ◌+◌, ◌<◌, ◌≤◌, true, List, [], ◌∷◌, ◌++◌, length, OnOk, Some, nat_eq};
ghost use Rattle.std.specs.List.{list_any, slice_get};
ghost use Rattle.nif_attributes.specs.Finding.{IsIndex, IsAbsent, IsPut, span_of, first_from};

use nif_base::NoMemory;
use std::alloc::Global;
use std::collections::BTreeMap;

/// The first and the last number of the tokens of one text.
#[derive(Clone, Copy)]
pub(crate) struct Span {
    pub(crate) first: usize,
    pub(crate) last: usize,
}

/// The tokens by their texts, and which lengths they have.
#[derive(Drop)]
pub(crate) struct TokenIndex {
    pub(crate) spans: BTreeMap<Vec<u8>, Span>,
    pub(crate) lengths: Vec<usize>,
}

/// Puts a length behind the others, unless it is there.
fn put_length(lengths: &mut Vec<usize>, length: usize) -> Result<(), NoMemory>
    ensures here { OnOk result (list_any (nat_eq length) lengths.new.items ≡ true) }
    ensures before { OnOk result ((other : ℕ) → list_any (nat_eq other) lengths.old.items ≡ true
        → list_any (nat_eq other) lengths.new.items ≡ true) }
{
    if lengths.iter().any(|other| length == *other) {
        return Ok(());
    }
    match lengths.push(length) {
        Ok(()) => Ok(()),
        Err(_) => Err(NoMemory),
    }
}

/// Puts the span of a text.
fn put_span(
    alloc: Global,
    spans: &mut BTreeMap<Vec<u8>, Span>,
    token: &[u8],
    span: Span,
) -> Result<(), NoMemory>
    ensures { OnOk result (IsPut (λ key. key.items) spans.old.entries token.now span spans.new.entries) }
{
    let Ok(token) = Vec::from_slice(alloc, token) else {
        return Err(NoMemory);
    };
    match spans.insert(token, span) {
        Ok(_) => Ok(()),
        Err(_) => Err(NoMemory),
    }
}

impl TokenIndex {
    /// An index of no tokens. It takes no memory.
    pub(crate) fn new(alloc: Global) -> TokenIndex
        ensures { IsIndex result [] }
    {
        TokenIndex {
            spans: BTreeMap::new(alloc),
            lengths: Vec::new(alloc),
        }
    }

    /// The first number of the tokens of this text, with one of this number.
    fn first(&self, token: &[u8], number: usize) -> usize
        ensures { result ≡ first_from (span_of (λ key. key.items) self.now.spans.entries token.now) number }
    {
        match self.spans.get(token) {
            Some(span) => span.first.min(number),
            None => number,
        }
    }

    /// Puts a token behind so many others.
    pub(crate) fn put(&mut self, alloc: Global, number: usize, token: &[u8]) -> Result<(), NoMemory>
        ensures { OnOk result ((texts : List (List ℕ)) → length texts ≡ number → IsIndex self.old texts
            → IsIndex self.new (texts ++ token.now ∷ [])) }
    {
        let first = self.first(token, number);
        put_length(&mut self.lengths, token.len())?;
        put_span(
            alloc,
            &mut self.spans,
            token,
            Span {
                first,
                last: number,
            },
        )
    }

    /// A number up to `most`, from `from` on, in front of which no token from `from` on is this text.
    fn look(&self, part: &[u8], from: usize, most: usize) -> usize
        requires { from ≤ most }
        ensures low { from ≤ result }
        ensures high { result ≤ most }
        ensures none { (texts : List (List ℕ)) → IsIndex self.now texts → (n : ℕ) → from ≤ n → n < result
            → slice_get texts n ≡ Some part.now → ⊥ }
    {
        match self.spans.get(part) {
            Some(span) => {
                if span.last < from {
                    most
                } else {
                    most.min(span.first.max(from))
                }
            }
            None => most,
        }
    }

    /// A number up to `most`, from `from` on, in front of which no token of this length from `from` on occurs in the text.
    fn look_along(&self, text: &[u8], size: usize, from: usize, most: usize) -> usize
        requires { from ≤ most }
        ensures low { from ≤ result }
        ensures high { result ≤ most }
        ensures none { (texts : List (List ℕ)) → IsIndex self.now texts → (n : ℕ) (token : List ℕ) → from ≤ n
            → n < result
            → slice_get texts n ≡ Some token → length token ≡ size → IsAbsent text.now token }
    {
        if text.len() < size {
            return most;
        }
        let mut best = most;
        for place in 0..text.len() - size + 1 {
            best = self.look(&text[place..place + size], from, best);
        }
        best
    }

    /// A number up to `most`, from `from` on, in front of which no token from `from` on occurs in the text.
    pub(crate) fn next(&self, text: &[u8], from: usize, most: usize) -> usize
        requires { from ≤ most }
        ensures low { from ≤ result }
        ensures high { result ≤ most }
        ensures none { (texts : List (List ℕ)) → IsIndex self.now texts → (n : ℕ) (token : List ℕ) → from ≤ n
            → n < result
            → slice_get texts n ≡ Some token → IsAbsent text.now token }
    {
        let mut best = most;
        for size in &self.lengths {
            best = self.look_along(text, *size, from, best);
        }
        best
    }

    /// About how many parts of a text `next` looks at.
    pub(crate) fn cost(&self, text: &[u8]) -> usize {
        text.len().saturating_mul(self.lengths.len())
    }
}
