//! Members of a name.
ghost use Rattle.std.specs.Prelude.{◌≡◌, ◌+◌, ◌<◌, ◌≢◌, length, List, [], ◌∷◌, take, drop, None};
ghost use Rattle.std.specs.Option.{option_map, MatchOption};
ghost use Rattle.std.specs.Prelude.{bytes_eq, is_some, if◌then◌else◌, false};
ghost use Rattle.nif_schema.specs.Schema.{Ends, line};
ghost use Rattle.nif_scope.specs.Lookup.{inside, is_here, last_told, later_told, name_told, array_told};
ghost use Rattle.nif_scope.specs.Kept.{member_of};
ghost use Rattle.nif_schema.specs.Declaration as spec;

use crate::entries::Entry;
use nif_schema::{Field, Schema};

/// A member that was found: its field, its entry, and the entries that are its own.
#[derive(Drop, Clone, Copy)]
pub(crate) struct Member<'a> {
    pub(crate) field: &'a Field,
    pub(crate) entry: Entry,
    pub(crate) own: &'a [Entry],
}

impl Entry {
    /// How many entries of its own stand behind it.
    pub(crate) fn inside(self) -> usize
        ensures { result ≡ inside self }
    {
        match self {
            Entry::Group { entries } => entries,
            Entry::Items { entries } => entries,
            _ => 0,
        }
    }

    /// Whether the member is present.
    pub(crate) fn is_here(self) -> bool
        ensures { result ≡ is_here self }
    {
        !matches!(self, Entry::Absent)
    }
}

/// The first so many entries, or all where there are fewer.
fn first(entries: &[Entry], count: usize) -> &[Entry]
    ensures { result.now ≡ take count entries.now }
{
    if count < entries.len() {
        return &entries[..count];
    }
    entries
}

/// What stands behind the first so many entries.
fn behind(entries: &[Entry], count: usize) -> &[Entry]
    ensures { result.now ≡ drop count entries.now }
{
    if count < entries.len() {
        return &entries[count..];
    }
    &[]
}

/// The first entry, and those behind it.
fn split(entries: &[Entry]) -> Option<(Entry, &[Entry])>
    ensures { MatchOption result (entries.now ≡ []) (λ parts. entries.now ≡ parts.0 ∷ parts.1.now) }
{
    if entries.is_empty() {
        return None;
    }
    Some((entries[0], &entries[1..]))
}

/// What was found after one more member.
fn later<'a>(
    name: &[u8],
    found: Option<Member<'a>>,
    field: &'a Field,
    entry: Entry,
    own: &'a [Entry],
) -> Option<Member<'a>>
    ensures { option_map member_of result ≡ later_told name.now (spec.field field.now) entry own.now
        (option_map member_of found.entry) }
{
    if name == field.name.bytes() && entry.is_here() {
        return Some(Member { field, entry, own });
    }
    found
}

/// The last member of a name that is present, of the members of the line of a declaration that these entries tell.
pub(crate) fn last_told<'a>(
    schema: &'a Schema,
    number: u32,
    name: &[u8],
    entries: &'a [Entry],
) -> Option<Member<'a>>
    requires within { number < length schema.now }
    requires ends { Ends schema.now number }
    ensures { option_map member_of result ≡ last_told name.now None (line schema.now number) entries.now }
{
    let mut found = None;
    let mut rest = entries;
    for field in schema.line_of(number) {
        if let Some((entry, more)) = split(rest) {
            found = later(name, found, field, entry, first(more, entry.inside()));
            rest = behind(more, entry.inside());
        }
    }
    found
}

/// Whether a member has a name, present or absent.
pub(crate) fn name_told(schema: &Schema, number: u32, name: &[u8], entries: &[Entry]) -> bool
    requires within { number < length schema.now }
    requires ends { Ends schema.now number }
    ensures { result ≡ name_told name.now (line schema.now number) entries.now }
{
    let mut found = false;
    let mut rest = entries;
    for field in schema.line_of(number) {
        if let Some((entry, more)) = split(rest) {
            found = found | (name == field.name.bytes());
            rest = behind(more, entry.inside());
        }
    }
    found
}

/// Whether the last member of a name is an array, after one more member.
fn later_array(name: &[u8], found: bool, field: &Field) -> bool
    ensures { result ≡ (if bytes_eq name.now (spec.field field.now).name then is_some (spec.field field.now).length
        else found) }
{
    if name == field.name.bytes() {
        return field.length.is_some();
    }
    found
}

/// Whether the last member of a name, present or absent, is an array.
pub(crate) fn array_told(schema: &Schema, number: u32, name: &[u8], entries: &[Entry]) -> bool
    requires within { number < length schema.now }
    requires ends { Ends schema.now number }
    ensures { result ≡ array_told name.now false (line schema.now number) entries.now }
{
    let mut found = false;
    let mut rest = entries;
    for field in schema.line_of(number) {
        if let Some((entry, more)) = split(rest) {
            found = later_array(name, found, field);
            rest = behind(more, entry.inside());
        }
    }
    found
}
