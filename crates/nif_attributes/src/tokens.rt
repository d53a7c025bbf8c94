//! Token groups: texts that stand for others in the attributes of fields.
ghost use Rattle.std.specs.Prelude.{◌≡◌, ℕ, ◌+◌, ◌<◌, ◌≤◌, Bool, true, false, IsTrue, ◌⊎◌, List, [], ◌∷◌, ◌++◌, length, map, codes, Option, IfOk, OnOk, MatchOption, vec_len};
ghost use Rattle.std.specs.List.{list_any, filter_map, slice_split, slice_get};
ghost use Rattle.std.specs.Option.{option_map, is_none};
ghost use Rattle.std.specs.Str.{bytes_eq};
ghost use Rattle.nif_base.specs.Limits.{most_expression_bytes};
ghost use Rattle.nif_text.specs.Tree.{name_of, attrs_of, children_of};
ghost use Rattle.nif_base.specs.Ascii.{is_blank};
ghost use Rattle.nif_attributes.specs.Tokens.{Group, value_of, token_of, groups_of, has_refused, names_in, replaced, name_of_attribute};
ghost use Rattle.nif_attributes.specs.Listing.{parts_token, ListAlike, GroupsAlike};

use crate::index::TokenIndex;
use memchr::memmem;
use nif_base::limits::MOST_EXPRESSION_BYTES;
use nif_base::{NoMemory, Word, is_blank};
use nif_text::{Attrs, Element};
use std::alloc::Global;
use std::marker::Model;

/// An attribute of a field, by its newer name.
#[derive(Debug, Clone, Copy, PartialEq, Eq)]
pub enum Attribute {
    Name,
    Type,
    Template,
    Arg,
    Length,
    Width,
    Cond,
    Vercond,
    Since,
    Until,
    OnlyT,
    ExcludeT,
    Userver,
    Userver2,
}

/// All attributes of fields.
const ATTRIBUTES: [Attribute; 14] = [
    Attribute::Name,
    Attribute::Type,
    Attribute::Template,
    Attribute::Arg,
    Attribute::Length,
    Attribute::Width,
    Attribute::Cond,
    Attribute::Vercond,
    Attribute::Since,
    Attribute::Until,
    Attribute::OnlyT,
    Attribute::ExcludeT,
    Attribute::Userver,
    Attribute::Userver2,
];

/// A text after the passes of tokens. It is too long where a pass would have left it with more than 4,096 bytes:
/// that pass was not made, nor any after it, and the text is the one from before it.
#[derive(Drop)]
pub struct Expanded {
    pub text: Word,
    pub too_long: bool,
}

impl Attribute {
    ghost use Rattle.nif_attributes.specs.Tokens.{name_of_attribute};

    /// Its name.
    pub fn name(self) -> &'static [u8]
        ensures { result.now ≡ name_of_attribute self }
    {
        match self {
            Attribute::Name => b"name",
            Attribute::Type => b"type",
            Attribute::Template => b"template",
            Attribute::Arg => b"arg",
            Attribute::Length => b"length",
            Attribute::Width => b"width",
            Attribute::Cond => b"cond",
            Attribute::Vercond => b"vercond",
            Attribute::Since => b"since",
            Attribute::Until => b"until",
            Attribute::OnlyT => b"onlyT",
            Attribute::ExcludeT => b"excludeT",
            Attribute::Userver => b"userver",
            Attribute::Userver2 => b"userver2",
        }
    }
}

/// A token, the string that it is replaced by, and the attributes of fields in which it is.
#[derive(Drop)]
struct Replacement {
    attributes: Vec<Attribute>,
    token: Word,
    string: Word,
}

impl Model for Replacement {
    ghost use Rattle.std.specs.Prelude.{ℕ, ◌<◌, length, map};
    ghost use Rattle.nif_attributes.specs.Tokens.{name_of_attribute};
    ghost use Rattle.nif_attributes.specs.Listing.{Listed};

    ghost Value = { Listed };

    ghost view = { λ a. record { names = map name_of_attribute a.attributes.items; by = record { token = a.token; string = a.string } } };

    ghost invariant = { λ a. 0 < length a.token };
}

/// The tokens of a schema text, in their order. Tokens of groups that list no attribute of fields are left out, and of
/// the names that a group lists those of attributes of fields are kept: contracts see a list of groups of one token.
#[derive(Drop)]
pub struct Tokens {
    items: Vec<Replacement>,
    index: TokenIndex,
}

impl Model for Tokens {
    ghost use Rattle.std.specs.Prelude.{List, map};
    ghost use Rattle.nif_attributes.specs.Tokens.{Group};
    ghost use Rattle.nif_attributes.specs.Listing.{lone, text_of};
    ghost use Rattle.nif_attributes.specs.Finding.{IsIndex};

    ghost Value = { List Group };

    ghost view = { λ a. map lone a.items.items };

    ghost invariant = { λ a. IsIndex a.index (map text_of a.items.items) };
}

/// Tokens that are gathered.
#[derive(Drop)]
struct Gathered {
    items: Vec<Replacement>,
    index: TokenIndex,
}

/// The value of the attribute of this name.
pub(crate) fn value<'a>(attrs: &'a Attrs, name: &[u8]) -> Option<&'a [u8]>
    ensures { option_map (λ value. value.now) result ≡ value_of attrs.now name.now }
{
    for place in 0..attrs.len() {
        let (other, value) = attrs.get(place);
        if other.bytes() == name {
            return Some(value.bytes());
        }
    }
    None
}

/// The token and the string of a child of a group, none where the child is refused.
fn parts(child: &Element) -> Option<(&[u8], &[u8])>
    ensures { option_map parts_token result ≡ token_of child.now }
{
    let token = value(&child.attrs, b"token")?;
    if token.is_empty() {
        return None;
    }
    let string = value(&child.attrs, b"string")?;
    Some((token, string))
}

/// Whether a child of this token group is refused: it lacks `token`, its `token` is empty, or it lacks `string`.
/// An empty `string` is allowed.
pub fn has_refused_child(group: &Element) -> bool
    ensures { result ≡ has_refused group.now }
{
    for child in &group.children {
        if parts(child).is_none() {
            return true;
        }
    }
    false
}

/// Whether a text lists this name, between blanks.
fn lists_name(text: &[u8], name: &[u8]) -> bool
    ensures { result ≡ list_any (bytes_eq name.now) (slice_split is_blank text.now) }
{
    text.split(|c| is_blank(*c)).any(|part| part == name)
}

/// Puts an item behind the others.
fn push<T: Drop>(items: &mut Vec<T>, item: T) -> Result<(), NoMemory>
    ensures { OnOk result (items.new.items ≡ items.old.items ++ item ∷ []) }
{
    match items.push(item) {
        Ok(()) => Ok(()),
        Err(_) => Err(NoMemory),
    }
}

/// Puts bytes behind `out`, unless it would then have more than the most bytes. Says whether it did.
fn push_within(out: &mut Vec<u8>, bytes: &[u8]) -> Result<bool, NoMemory>
    requires { vec_len out.old ≤ most_expression_bytes }
    ensures put { IfOk result (λ fits. fits ≡ true → (out.new.items ≡ out.old.items ++ bytes.now)
        × (length out.new.items ≤ most_expression_bytes)) }
    ensures full { IfOk result (λ fits. fits ≡ false
        → most_expression_bytes < length out.old.items + length bytes.now) }
{
    if bytes.len() > MOST_EXPRESSION_BYTES - out.len() {
        return Ok(false);
    }
    match out.extend_from_slice(bytes) {
        Ok(()) => Ok(true),
        Err(_) => Err(NoMemory),
    }
}

/// The text with the token replaced, none where it would have more than the most bytes. The time is linear in the text
/// and the token.
fn replace(
    alloc: Global,
    text: &[u8],
    token: &[u8],
    string: &[u8],
) -> Result<Option<Vec<u8>>, NoMemory>
    requires { 0 < length token.now }
    ensures { IfOk result (λ out. MatchOption out
        (most_expression_bytes < length (replaced token.now string.now text.now))
        (λ bytes. (bytes.items ≡ replaced token.now string.now text.now)
        × (length bytes.items ≤ most_expression_bytes))) }
{
    let mut out = Vec::new(alloc);
    let mut rest = text;
    while let Some(place) = memmem::find(rest, token) {
        let (front, found) = rest.split_at(place);
        if !push_within(&mut out, front)? {
            return Ok(None);
        }
        if !push_within(&mut out, string)? {
            return Ok(None);
        }
        let (_, behind) = found.split_at(token.len());
        rest = behind;
    }
    if !push_within(&mut out, rest)? {
        return Ok(None);
    }
    Ok(Some(out))
}

impl Replacement {
    ghost use Rattle.nif_attributes.specs.Tokens.{pass, pass_group, name_of_attribute};
    ghost use Rattle.nif_attributes.specs.Listing.{lone, listed_as};

    /// The replacement of a child of a group that lists these attributes, none where it is refused.
    fn of(
        alloc: Global,
        attributes: &[Attribute],
        child: &Element,
    ) -> Result<Option<Replacement>, NoMemory>
        ensures { IfOk result (λ by. by ≡ option_map (listed_as (map name_of_attribute attributes.now))
            (token_of child.now)) }
    {
        let Some((token, string)) = parts(child) else {
            return Ok(None);
        };
        let token = Word::from_bytes(alloc, token)?;
        let string = Word::from_bytes(alloc, string)?;
        match Vec::from_slice(alloc, attributes) {
            Ok(attributes) => Ok(Some(Replacement {
                attributes,
                token,
                string,
            })),
            Err(_) => Err(NoMemory),
        }
    }

    /// Whether it is in this attribute.
    fn lists(&self, attribute: Attribute) -> bool
        ensures { result ≡ list_any (bytes_eq (name_of_attribute attribute)) self.now.names }
    {
        for other in &self.attributes {
            if attribute.name() == other.name() {
                return true;
            }
        }
        false
    }

    /// One pass over a text, whatever the attribute.
    fn replace_in(&self, alloc: Global, text: &mut Expanded) -> Result<(), NoMemory>
        ensures { OnOk result (text.new ≡ pass text.old self.now.by) }
    {
        if text.too_long {
            return Ok(());
        }
        match replace(
            alloc,
            text.text.bytes(),
            self.token.bytes(),
            self.string.bytes(),
        )? {
            Some(bytes) => text.text = Word::from_bytes(alloc, bytes.as_slice())?,
            None => text.too_long = true,
        }
        Ok(())
    }

    /// The pass over a text of an attribute, where it is in that.
    fn pass(&self, alloc: Global, attribute: Attribute, text: &mut Expanded) -> Result<(), NoMemory>
        ensures { OnOk result (text.new ≡ pass_group (name_of_attribute attribute) text.old (lone self.now)) }
    {
        if self.lists(attribute) {
            self.replace_in(alloc, text)?;
        }
        Ok(())
    }
}

/// The attributes of fields that `attrs` lists.
fn listed(alloc: Global, attrs: Option<&[u8]>) -> Result<Vec<Attribute>, NoMemory>
    ensures { IfOk result (λ attributes. ListAlike (map name_of_attribute attributes.items)
        (names_in (option_map (λ value. value.now) attrs.entry))) }
{
    let mut attributes = Vec::new(alloc);
    let Some(text) = attrs else {
        return Ok(attributes);
    };
    for attribute in ATTRIBUTES {
        if lists_name(text, attribute.name()) {
            push(&mut attributes, attribute)?;
        }
    }
    Ok(attributes)
}

/// Whether a child of the root is a token group.
fn is_group(child: &Element) -> bool
    ensures { result ≡ bytes_eq (name_of child.now) (codes "token") }
{
    child.name.bytes() == b"token".as_slice()
}

impl Gathered {
    ghost use Rattle.std.specs.Prelude.{map};
    ghost use Rattle.nif_attributes.specs.Tokens.{name_of_attribute};
    ghost use Rattle.nif_attributes.specs.Listing.{lone, listed_as};
    ghost use Rattle.nif_attributes.specs.Kept.{IsGathered};

    /// Puts a replacement behind the others.
    fn push(&mut self, alloc: Global, by: Replacement) -> Result<(), NoMemory>
        ensures items { OnOk result (self.new.items.items ≡ self.old.items.items ++ by ∷ []) }
        ensures index { OnOk result (IsGathered self.old → IsGathered self.new) }
    {
        self.index.put(alloc, self.items.len(), by.token.bytes())?;
        push(&mut self.items, by)
    }

    /// Puts the tokens of the children that are not refused behind the others.
    fn add_tokens(
        &mut self,
        alloc: Global,
        attributes: &[Attribute],
        children: &[Element],
    ) -> Result<(), NoMemory>
        ensures items { OnOk result (self.new.items.items ≡ self.old.items.items
            ++ map (listed_as (map name_of_attribute attributes.now)) (filter_map token_of children.now)) }
        ensures index { OnOk result (IsGathered self.old → IsGathered self.new) }
    {
        for child in children {
            if let Some(by) = Replacement::of(alloc, attributes, child)? {
                self.push(alloc, by)?;
            }
        }
        Ok(())
    }

    /// Puts the tokens of a child of the root behind the others, where it is a group and lists an attribute of fields.
    fn add_group(&mut self, alloc: Global, child: &Element) -> Result<(), NoMemory>
        ensures groups { OnOk result ((others : List Group) → GroupsAlike (map lone self.old.items.items) others
            → GroupsAlike (map lone self.new.items.items) (others ++ groups_of (child.now ∷ []))) }
        ensures index { OnOk result (IsGathered self.old → IsGathered self.new) }
    {
        if !is_group(child) {
            return Ok(());
        }
        let attributes = listed(alloc, value(&child.attrs, b"attrs"))?;
        self.add_tokens(alloc, attributes.as_slice(), child.children.as_slice())
    }
}

impl Tokens {
    ghost use Rattle.nif_attributes.specs.Tokens.{ExpandAlike, expanded, pass_group, name_of_attribute};

    /// The token groups of a schema text, from its root: whatever the groups among the children of the root make of a
    /// text of an attribute of fields, these make of it.
    pub fn of(alloc: Global, root: &Element) -> Result<Tokens, NoMemory>
        ensures { IfOk result (λ tokens. ExpandAlike tokens (groups_of (children_of root.now))) }
    {
        let mut gathered = Gathered {
            items: Vec::new(alloc),
            index: TokenIndex::new(alloc),
        };
        for child in &root.children {
            gathered.add_group(alloc, child)?;
        }
        Ok(Tokens {
            items: gathered.items,
            index: gathered.index,
        })
    }

    /// The place of a token, from `at` on, in front of which no token changes this text. Where there are `tries` left
    /// the tokens are tried one by one.
    fn place(&self, tries: usize, at: usize, text: &Expanded) -> usize
        requires { at ≤ length self.now }
        ensures low { at ≤ result }
        ensures high { result ≤ length self.now }
        ensures idle { (name : List ℕ) (n : ℕ) (group : Group) → at ≤ n → n < result → slice_get self.now n ≡ Some group
            → pass_group name text.now group ≡ text.now }
    {
        let bytes = text.text.bytes();
        if tries > 0 || bytes.len() > MOST_EXPRESSION_BYTES {
            return at;
        }
        self.index.next(bytes, at, self.items.len())
    }

    /// How many tokens are tried one by one before the next is looked for.
    fn tries(&self, text: &Expanded) -> usize {
        self.index.cost(text.text.bytes()) / 4 + 16
    }

    /// The text of an attribute of a field after the passes of all groups that list it, in the order of the schema
    /// text. A text that no group lists is copied as it is. The time of a pass is linear in the text and the token.
    /// Tokens that don't occur in the text are passed over together.
    pub fn expand(
        &self,
        alloc: Global,
        attribute: Attribute,
        text: &[u8],
    ) -> Result<Expanded, NoMemory>
        ensures { IfOk result (λ out. out ≡ expanded self.now (name_of_attribute attribute) text.now) }
    {
        let mut out = Expanded {
            text: Word::from_bytes(alloc, text)?,
            too_long: false,
        };
        let mut at = 0;
        let mut tries = self.tries(&out);
        while at < self.items.len() {
            let place = self.place(tries, at, &out);
            if place >= self.items.len() {
                return Ok(out);
            }
            self.items[place].pass(alloc, attribute, &mut out)?;
            at = place + 1;
            tries = if tries > 0 {
                tries - 1
            } else {
                self.tries(&out)
            };
        }
        Ok(out)
    }
}
