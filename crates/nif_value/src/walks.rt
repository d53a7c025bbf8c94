//! A walk through a tree.
ghost use Rattle.std.specs.Prelude.{◌≡◌, ℕ, ◌+◌, ◌-◌, ◌*◌, ◌/◌, ◌^◌, ◌<◌, ◌≤◌, ◌++◌, min, take, drop, length, slice_get, None, Some, IsSome, IfSome};
ghost use Rattle.std.specs.Option.{option_map};
ghost use Rattle.nif_region.specs.Contents.{find};
ghost use Rattle.nif_cells.specs.Reading.{said, met_in, bytes_at};
ghost use Rattle.nif_value.specs.Kept.{cells_in, IsTree};
ghost use Rattle.nif_value.specs.Walking.{walked, next_step, step_of};
ghost use Rattle.nif_value.specs.Ways.{bits_of, IsAt, IsOnWay, IsSpan, Moves, plain_of};

use nif_cells::{Content, Step};
use nif_region::{Region, RunId};
use std::marker::Model;

/// The bytes of a line or run of bytes: the place of the first cell of them, how many there are, and how many were
/// copied.
#[derive(Drop, Clone, Copy)]
struct Span {
    first: u32,
    len: u32,
    copied: u32,
}

/// A step of a walk: what it gives, the place of the cell that is met next, and the bytes to be copied.
#[derive(Drop, Clone, Copy)]
struct Move {
    step: Option<Step>,
    next: u32,
    bytes: Option<Span>,
}

/// A walk through a tree. It meets the nodes in the order of their bytes, and an end behind the last member or item
/// of each group and row.
#[derive(Drop)]
pub struct Walk<'a> {
    region: &'a Region,
    run: RunId,
    // the place of the cell that is met next
    next: u32,
    bytes: Option<Span>,
}

impl<'a> Model for Walk<'a> {
    ghost use Rattle.nif_value.specs.Walking.{Walking};
    ghost use Rattle.nif_value.specs.Codes.{coded_walking};

    ghost Value = { Walking };

    ghost coded = { coded_walking };

    ghost use Rattle.nif_value.specs.Kept.{walking_of};

    ghost view = { λ w. walking_of w.region.now w.run.key w.next w.bytes };

    ghost use Rattle.nif_value.specs.Ways.{IsOnWay};

    ghost invariant = { λ w. IsOnWay w.region.now w.run.key w.next w.bytes };
}

impl<'a> Walk<'a> {
    /// A walk through the tree in a live run.
    pub(crate) fn new(region: &'a Region, run: RunId) -> Walk<'a>
        requires live { IsSome (find region.now.runs run.key) }
        requires tree { IsTree (cells_in (find region.now.runs run.key)) }
        ensures ahead { result.ahead ≡ met_in (said (cells_in (find region.now.runs run.key))) }
        ensures bytes { result.bytes ≡ None }
    {
        Walk {
            region,
            run,
            next: 0,
            bytes: None,
        }
    }

    /// The next step, or none after the last. It passes over bytes that were not copied.
    pub fn next(&mut self) -> Option<Step>
        ensures step { result ≡ next_step self.old.ahead }
        ensures new { self.new ≡ walked self.old.ahead }
        ensures few { length self.old.ahead < 2 ^ 32 }
    {
        let taken = move_on(self.region, self.run, self.next);
        self.next = taken.next;
        self.bytes = taken.bytes;
        taken.step
    }

    /// Copies the next bytes of the line or run of bytes that `next` gave last: as many as are left, or as the buffer
    /// holds, where these are fewer. It answers their number, and leaves the rest of the buffer as it was.
    pub fn bytes(&mut self, buf: &mut [u8]) -> usize
        requires { IsSome self.old.bytes }
        ensures count { IfSome self.old.bytes (λ bytes. result ≡ min (length buf.old) (length bytes)) }
        ensures buf { IfSome self.old.bytes (λ bytes. buf.new ≡ take result bytes ++ drop result buf.old) }
        ensures bytes { self.new.bytes ≡ option_map (λ bytes. drop result bytes) self.old.bytes }
        ensures ahead { self.new.ahead ≡ self.old.ahead }
    {
        let Some(span) = self.bytes else {
            return 0;
        };
        let count = copy_bytes(self.region, self.run, span, buf);
        self.bytes = Some(Span {
            copied: span.copied + count as u32,
            ..span
        });
        count
    }
}

/// What the cell at a place says, or none behind the last.
fn content_at(region: &Region, run: RunId, place: u32) -> Option<Content>
    requires live { IsSome (find region.now.runs run.key) }
    ensures at { IfSome result (λ content. IsAt (cells_in (find region.now.runs run.key)) place content) }
    ensures end { result ≡ None → length (cells_in (find region.now.runs run.key)) ≤ place }
    ensures few { length (cells_in (find region.now.runs run.key)) < 2 ^ 32 }
{
    if place >= region.len(run) {
        return None;
    }
    Some(Content::of(region.get(run, place)))
}

/// The step of what takes one cell.
fn plain_step(content: Content) -> Option<Step>
    ensures { result ≡ option_map step_of (plain_of content) }
{
    match content {
        Content::Number {
            width,
            little,
            bits,
        } => Some(Step::Num {
            width,
            little,
            bits,
        }),
        Content::Reference { view } => Some(Step::Ref { view }),
        Content::Text { index } => Some(Step::Text { index }),
        Content::Group { members } => Some(Step::Group { members }),
        Content::Row { items } => Some(Step::Row { items }),
        Content::Absent => Some(Step::Absent),
        Content::End => Some(Step::End),
        _ => None,
    }
}

/// The step at a head, behind which stand the cells of so many bytes: it passes over them all.
fn pass_bytes(step: Step, head: u32, len: u32) -> Move
    requires { head + (2 + len / 8) < 2 ^ 32 }
    ensures { result ≡ record {
      step = Some step;
      next = head
          + (2 + len / 8);
      bytes = Some (record { first = head + 1; len = len; copied = 0 });
    } }
{
    Move {
        step: Some(step),
        next: head + (2 + len / 8),
        bytes: Some(Span {
            first: head + 1,
            len,
            copied: 0,
        }),
    }
}

/// One step from where a walk stands. Behind the last node it stays.
fn move_on(region: &Region, run: RunId, next: u32) -> Move
    requires { IsOnWay region.now run.key next None }
    ensures moves { Moves region.now run.key next result }
    ensures few { length (met_in (said (drop next (cells_in (find region.now.runs run.key))))) < 2 ^ 32 }
{
    let stay = Move {
        step: None,
        next,
        bytes: None,
    };
    let Some(content) = content_at(region, run, next) else {
        return stay;
    };
    if let Some(step) = plain_step(content) {
        return Move {
            step: Some(step),
            next: next + 1,
            bytes: None,
        };
    }
    match content {
        Content::Line { len } => pass_bytes(Step::Line { len }, next, len),
        Content::Bytes { len } => pass_bytes(Step::Bytes { len }, next, len),
        _ => stay,
    }
}

/// The bits of a cell of bytes.
fn byte_bits(content: Content) -> u64
    ensures { result ≡ bits_of content }
{
    match content {
        Content::Word { bits } | Content::Tail { bits, .. } => bits,
        _ => 0,
    }
}

/// A byte of a span.
fn byte_at(region: &Region, run: RunId, span: Span, place: u32) -> u8
    requires live { IsSome (find region.now.runs run.key) }
    requires span { IsSpan (cells_in (find region.now.runs run.key)) (Some span) }
    requires within { place < span.len }
    ensures { slice_get (bytes_at (said (drop span.first (cells_in (find region.now.runs run.key))))) place
        ≡ Some result }
{
    let bits = byte_bits(Content::of(region.get(run, span.first + place / 8)));
    ((bits >> (8 * (place % 8))) % 256) as u8
}

/// Copies the next bytes of a span, as many as are left or as the buffer holds, and answers their number.
fn copy_bytes(region: &Region, run: RunId, span: Span, buf: &mut [u8]) -> usize
    requires live { IsSome (find region.now.runs run.key) }
    requires span { IsSpan (cells_in (find region.now.runs run.key)) (Some span) }
    ensures count { result ≡ min (length buf.old) (span.len - span.copied) }
    ensures buf { buf.new ≡ take result (drop span.copied
        (bytes_at (said (drop span.first (cells_in (find region.now.runs run.key)))))) ++ drop result buf.old }
{
    let count = buf.len().min((span.len - span.copied) as usize);
    for i in 0..count {
        buf[i] = byte_at(region, run, span, span.copied + i as u32);
    }
    count
}
