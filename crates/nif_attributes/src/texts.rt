//! The texts of a field's attributes.
ghost use Rattle.std.specs.Prelude.{◌≡◌, IfOk};
ghost use Rattle.std.specs.Option.{option_map};
ghost use Rattle.nif_schema.specs.Declaration.{formula};
ghost use Rattle.nif_attributes.specs.Texts.{Either, IsFormula, plain, bound_of, exact_of};
ghost use Rattle.nif_attributes.specs.Texts.{texts};

use crate::attributes::{newer, written};
use crate::numbers::decimal;
use crate::tokens::{Attribute, Expanded, Tokens};
use nif_base::{NoMemory, Version, Word};
use nif_expr::{ExprFault, parse};
use nif_schema::{Bound, Exact, Formula};
use nif_text::Attrs;
use std::alloc::Global;

/// The attributes of a field, with what their texts are read by. Each reading takes memory from `alloc`.
#[derive(Clone, Copy)]
pub struct Texts<'a> {
    pub alloc: Global,
    /// The token groups of the whole schema text.
    pub tokens: &'a Tokens,
    /// The attributes as they are written.
    pub attrs: &'a Attrs,
}

impl<'a> Texts<'a> {
    /// The text of an attribute after the replacement of tokens. An empty text counts as missing.
    #[tactic(auto, unfolding(crate::specs::Attributes::text_of, crate::specs::Attributes::replaced_by))]
    pub fn text(&self, attribute: Attribute) -> Result<Option<Expanded>, NoMemory>
        ensures { IfOk result (λ text. texts self.now attribute ≡ text) }
    {
        let Some(text) = written(self.attrs, attribute) else {
            return Ok(None);
        };
        let text = self
            .tokens
            .expand(self.alloc, attribute, newer(attribute, text))?;
        if text.text.bytes().is_empty() {
            return Ok(None);
        }
        Ok(Some(text))
    }

    /// The bytes of an attribute that is kept as a text.
    pub fn word(&self, attribute: Attribute) -> Result<Option<Word>, NoMemory>
        ensures { IfOk result (λ word. plain (texts self.now attribute) ≡ word) }
    {
        match self.text(attribute)? {
            Some(text) => Ok(Some(text.text)),
            None => Ok(None),
        }
    }

    /// The expression of an attribute.
    pub fn formula(&self, attribute: Attribute) -> Result<Option<Formula>, NoMemory>
        ensures { IfOk result (λ read. Either IsFormula (texts self.now attribute) (option_map formula read)) }
    {
        match self.text(attribute)? {
            Some(text) => Ok(Some(formula(self.alloc, &text)?)),
            None => Ok(None),
        }
    }

    /// The version of an attribute.
    pub fn bound(&self, attribute: Attribute) -> Result<Option<Bound>, NoMemory>
        ensures { IfOk result (λ bound. option_map bound_of (texts self.now attribute) ≡ bound) }
    {
        match self.text(attribute)? {
            Some(text) => Ok(Some(bound(&text))),
            None => Ok(None),
        }
    }

    /// The user or BS version of an attribute.
    pub fn exact(&self, attribute: Attribute) -> Result<Option<Exact>, NoMemory>
        ensures { IfOk result (λ exact. option_map exact_of (texts self.now attribute) ≡ exact) }
    {
        match self.text(attribute)? {
            Some(text) => Ok(Some(exact(&text))),
            None => Ok(None),
        }
    }
}

/// The expression of a text, which is bad where the text is too long or no expression.
fn formula(alloc: Global, text: &Expanded) -> Result<Formula, NoMemory>
    ensures { IfOk result (λ read. IsFormula text.now (formula read)) }
{
    if text.too_long {
        return Ok(Formula::Bad);
    }
    match parse(alloc, text.text.bytes()) {
        Ok(expr) => Ok(Formula::Read { expr }),
        Err(ExprFault::TooLong) => Ok(Formula::Bad),
        Err(ExprFault::NotAnExpression) => Ok(Formula::Bad),
        Err(ExprFault::NoMemory) => Err(NoMemory),
    }
}

/// The version of a text, which is bad where the text is too long or no version text.
#[tactic(auto, unfolding(crate::specs::Texts::bound_of))]
fn bound(text: &Expanded) -> Bound
    ensures { bound_of text.now ≡ result }
{
    if text.too_long {
        return Bound::Bad;
    }
    match Version::parse(text.text.bytes()) {
        Some(version) => Bound::Read { version },
        None => Bound::Bad,
    }
}

/// The number of a text, which is bad where the text is no decimal number below 2^32.
#[tactic(auto, unfolding(crate::specs::Texts::exact_of))]
fn exact(text: &Expanded) -> Exact
    ensures { exact_of text.now ≡ result }
{
    match decimal(u32::MAX, text.text.bytes()) {
        Some(value) => Exact::Is { value },
        None => Exact::Bad,
    }
}
