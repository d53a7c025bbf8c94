//! Declarations of types.
ghost use Rattle.std.specs.Prelude.{◌≡◌, ◌^◌, ◌<◌, Some, length, IfOk};
ghost use Rattle.std.specs.Option.{option_map};
ghost use Rattle.nif_text.specs.Tree.{attrs_of, children_of};
ghost use Rattle.nif_attributes.specs.Attributes.{given, replaced_by};
ghost use Rattle.nif_read.specs.Declarations.{name_in, is_abstract};
ghost use Rattle.nif_read.specs.Kept.{WhatRead, DeclarationRead};

use crate::elements::{attrs_of, children_of};
use crate::fields::own_fields;
use crate::forms::Form;
use crate::members::members;
use nif_attributes::attributes::given;
use nif_attributes::tokens::Tokens;
use nif_base::{NoMemory, Word};
use nif_schema::{BitMembers, Decl, What, leaf_of};
use nif_text::{Attrs, Element};
use std::alloc::Global;

/// The value of an attribute, as a word.
fn word(alloc: Global, attrs: &Attrs, name: &[u8]) -> Result<Option<Word>, NoMemory>
    ensures { IfOk result (λ word. given attrs.now name.now ≡ word) }
{
    match given(attrs, name) {
        Some(text) => Ok(Some(Word::from_bytes(alloc, text)?)),
        None => Ok(None),
    }
}

/// Whether a block type says that it is abstract.
#[tactic(auto, unfolding(crate::specs::Declarations::is_abstract))]
fn is_abstract(attrs: &Attrs) -> bool
    ensures { result ≡ is_abstract attrs.now }
{
    match given(attrs, b"abstract") {
        Some(text) => text == b"true".as_slice() || text == b"1".as_slice(),
        None => false,
    }
}

/// What an element of this name declares, or none where a bit member of it lacks its name.
fn what(alloc: Global, form: Form, name: &[u8], element: &Element) -> Result<Option<What>, NoMemory>
    requires few { length (children_of element.now) < 2 ^ 32 }
    requires named { name_in (attrs_of element.now) ≡ Some name.now }
    ensures { IfOk result (λ read. WhatRead form name.now element.now read) }
{
    let attrs = attrs_of(element);
    match form {
        Form::Basic => Ok(Some(What::Basic {
            leaf: leaf_of(name, given(attrs, b"size")),
        })),
        Form::Enum => Ok(Some(What::Stored {
            storage: word(alloc, attrs, b"storage")?,
            members: BitMembers::new(alloc),
        })),
        Form::Bitfield => {
            let Some(members) = members(alloc, children_of(element))? else {
                return Ok(None);
            };
            Ok(Some(What::Stored {
                storage: word(alloc, attrs, b"storage")?,
                members,
            }))
        }
        Form::Struct => Ok(Some(What::Struct)),
        Form::Block => Ok(Some(What::Block {
            parent: word(alloc, attrs, b"inherit")?,
            is_abstract: is_abstract(attrs),
        })),
    }
}

/// The declaration of an element of this name, or none where a part of it lacks its name or its type.
#[tactic(auto, unfolding(crate::specs::Declarations::has_nameless))]
pub(crate) fn declaration(
    alloc: Global,
    tokens: &Tokens,
    form: Form,
    name: Word,
    element: &Element,
) -> Result<Option<Decl>, NoMemory>
    requires few { length (children_of element.now) < 2 ^ 32 }
    requires named { name_in (attrs_of element.now) ≡ Some name }
    ensures { IfOk result (λ read. DeclarationRead (replaced_by tokens.now) form element.now read) }
{
    let Some(what) = what(alloc, form, name.bytes(), element)? else {
        return Ok(None);
    };
    let Some(fields) = own_fields(alloc, tokens, form, element)? else {
        return Ok(None);
    };
    Ok(Some(Decl { name, what, fields }))
}
