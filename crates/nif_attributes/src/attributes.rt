//! The attributes of elements.
ghost use Rattle.std.specs.Prelude.{◌≡◌, IsTrue, ◌↔◌, None, Some, MatchOption};
ghost use Rattle.nif_attributes.specs.Attributes.{given, older, written, newer, names_type};

use crate::tokens::{Attribute, value};
use nif_text::Attrs;

impl Attribute {
    /// How older schemas spell it, where that differs.
    pub(crate) fn older(self) -> Option<&'static [u8]>
        ensures { MatchOption result (older self ≡ None) (λ text. older self ≡ Some text.now) }
    {
        match self {
            Attribute::Length => Some(b"arr1"),
            Attribute::Width => Some(b"arr2"),
            Attribute::Since => Some(b"ver1"),
            Attribute::Until => Some(b"ver2"),
            _ => None,
        }
    }

    /// Whether its text names a type of values.
    pub(crate) fn names_type(self) -> bool
        ensures { result ≡ names_type self }
    {
        match self {
            Attribute::Type | Attribute::Template => true,
            _ => false,
        }
    }
}

/// The value of the attribute of a name. An empty value counts as missing.
#[tactic(auto, unfolding(crate::specs::Attributes::given))]
pub fn given<'a>(attrs: &'a Attrs, name: &[u8]) -> Option<&'a [u8]>
    ensures { MatchOption result (given attrs.now name.now ≡ None)
        (λ value. given attrs.now name.now ≡ Some value.now) }
{
    let value = value(attrs, name)?;
    if value.is_empty() { None } else { Some(value) }
}

/// The text of an attribute of a field, as it is written. The older spelling counts where the newer one is missing.
#[tactic(auto, unfolding(crate::specs::Attributes::written))]
pub(crate) fn written<'a>(attrs: &'a Attrs, attribute: Attribute) -> Option<&'a [u8]>
    ensures { MatchOption result (written attrs.now attribute ≡ None)
        (λ text. written attrs.now attribute ≡ Some text.now) }
{
    if let Some(text) = given(attrs, attribute.name()) {
        return Some(text);
    }
    let older = attribute.older()?;
    given(attrs, older)
}

/// `#T#` in place of its older spelling `TEMPLATE`, and else the text itself.
#[tactic(auto, unfolding(crate::specs::Attributes::newer))]
pub(crate) fn newer(attribute: Attribute, text: &[u8]) -> &[u8]
    ensures { result.now ≡ newer attribute text.now }
{
    if attribute.names_type() && text == b"TEMPLATE".as_slice() {
        return b"#T#";
    }
    text
}
