//! The members of a line that were read so far.
ghost use Rattle.std.specs.Prelude.{◌≡◌, ℕ, [], take, drop, is_some};
ghost use Rattle.nif_base.specs.Node.{Members};
ghost use Rattle.nif_schema.specs.Schema.{Schema};
ghost use Rattle.nif_decode.specs.Scopes.{AreKept, member_at, number_at, behind_member, from_member, inside_group, first_bits, is_first};

use nif_scope::Entry;
use std::alloc::Global;
use std::marker::Model;

/// What is kept of the members of a line that were read so far, while the others are read.
#[derive(Drop)]
pub struct Scope {
    pub(crate) entries: Vec<Entry>,
}

impl Model for Scope {
    ghost use Rattle.std.specs.Prelude.{List};
    ghost use Rattle.std.specs.Coded.{coded_list};
    ghost use Rattle.nif_scope.specs.declared.entries.Entry.{Entry};
    ghost use Rattle.nif_scope.specs.contracts.entries.Entry as entry;

    ghost Value = { List Entry };

    ghost coded = { coded_list entry.the_row.coded };

    ghost view = { λ s. s.entries.items };
}

/// What stands behind the first so many entries.
fn behind(entries: &[Entry], count: usize) -> &[Entry]
    ensures { result.now ≡ drop count entries.now }
{
    if count < entries.len() {
        return &entries[count..];
    }
    &[]
}

/// The first so many entries, or all where there are fewer.
fn front(entries: &[Entry], count: usize) -> &[Entry]
    ensures { result.now ≡ take count entries.now }
{
    if count < entries.len() {
        return &entries[..count];
    }
    entries
}

/// The entries without those of the first member.
fn behind_member(entries: &[Entry]) -> &[Entry]
    ensures { result.now ≡ behind_member entries.now }
{
    if entries.is_empty() {
        return entries;
    }
    let own = match entries[0] {
        Entry::Group { entries } => entries,
        Entry::Items { entries } => entries,
        _ => 0,
    };
    behind(&entries[1..], own)
}

/// The entries from a member on, behind those of so many members.
fn from_member(entries: &[Entry], member: u32) -> &[Entry]
    ensures { result.now ≡ from_member member entries.now }
{
    let mut rest = entries;
    for _passed in 0..member {
        rest = behind_member(rest);
    }
    rest
}

/// The entries inside the first member, where it is a group.
fn inside_group(entries: &[Entry]) -> &[Entry]
    ensures { result.now ≡ inside_group entries.now }
{
    if entries.is_empty() {
        return entries;
    }
    match entries[0] {
        Entry::Group { entries: count } => front(&entries[1..], count),
        _ => &[],
    }
}

/// The bits of the first member, where it is a number.
fn first_bits(entries: &[Entry]) -> Option<u64>
    ensures { result ≡ first_bits entries.now }
{
    if entries.is_empty() {
        return None;
    }
    match entries[0] {
        Entry::Number { bits, .. } => Some(bits),
        _ => None,
    }
}

/// Whether there is a first member, and it isn't absent.
fn is_first(entries: &[Entry]) -> bool
    ensures { result ≡ is_first entries.now }
{
    if entries.is_empty() {
        return false;
    }
    match entries[0] {
        Entry::Absent => false,
        _ => true,
    }
}

impl Scope {
    /// The scope of a line of which no member was read.
    pub fn new(alloc: Global) -> Scope
        ensures { result ≡ [] }
    {
        Scope {
            entries: Vec::new(alloc),
        }
    }

    /// The bits of the number that is the member at a place, counted from 0; or of that which is the member `inner` of
    /// the group that is this member. There are none where it is absent, is no number, or wasn't read.
    pub fn number_at(&self, member: u32, inner: Option<u32>) -> Option<u64>
        ensures { (schema : Schema) (kind count : ℕ) (members : Members) → AreKept schema kind count self.now members
            → result ≡ number_at members member inner }
    {
        let found = from_member(&self.entries, member);
        match inner {
            None => first_bits(found),
            Some(inner) => first_bits(from_member(inside_group(found), inner)),
        }
    }

    /// Whether the member at a place is there: it isn't where it is absent or wasn't read.
    pub fn is_present(&self, member: u32) -> bool
        ensures { (schema : Schema) (kind count : ℕ) (members : Members) → AreKept schema kind count self.now members
            → result ≡ is_some (member_at members member) }
    {
        is_first(from_member(&self.entries, member))
    }
}
