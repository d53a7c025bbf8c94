//! Fields of structs and block types.
ghost use Rattle.std.specs.Prelude.{◌≡◌, ◌^◌, ◌<◌, false, length, IfOk, IsTrue, MatchOption};
ghost use Rattle.nif_schema.specs.Declaration.{formula};
ghost use Rattle.nif_attributes.specs.Texts.{Either, IsFormula};
ghost use Rattle.nif_read.specs.Fields.{width_of};
ghost use Rattle.nif_read.specs.Declarations.{is_field};
ghost use Rattle.nif_attributes.specs.Attributes.{replaced_by};
ghost use Rattle.nif_attributes.specs.Texts.{texts};
ghost use Rattle.nif_read.specs.Kept.{FieldRead, FieldsRead, OwnFieldsRead, HasFormulas, HasVersions, HasTypes, HasNames};
ghost use Rattle.nif_attributes.specs.declared.tokens.Attribute.TheVariants as the;
ghost use Rattle.std.specs.Option.{option_map, is_some};
ghost use Rattle.nif_text.specs.Tree.{children_of};

use crate::elements::{attrs_of, children_of, name_of};
use crate::forms::Form;
use nif_attributes::texts::Texts;
use nif_attributes::tokens::{Attribute, Tokens};
use nif_base::{NoMemory, Word};
use nif_schema::{Bound, Exact, Field, Fields, Formula};
use nif_text::Element;
use std::alloc::Global;

/// The attributes of a field that are expressions.
#[derive(Drop)]
struct Formulas {
    arg: Option<Formula>,
    length: Option<Formula>,
    width: Option<Formula>,
    cond: Option<Formula>,
    vercond: Option<Formula>,
}

/// The attributes of a field that name versions.
#[derive(Drop)]
struct Versions {
    since: Option<Bound>,
    until: Option<Bound>,
    user: Option<Exact>,
    bs: Option<Exact>,
}

/// The attributes of a field, but for its type, that name types.
#[derive(Drop)]
struct Types {
    template: Option<Word>,
    only: Option<Word>,
    exclude: Option<Word>,
}

/// The expression of a width, which is passed over where there is no length.
fn width(from: &Texts<'_>, has_length: bool) -> Result<Option<Formula>, NoMemory>
    requires { has_length ≡ is_some (texts from.now the.Length) }
    ensures { IfOk result (λ read. Either IsFormula (width_of (texts from.now)) (option_map formula read)) }
{
    if has_length {
        from.formula(Attribute::Width)
    } else {
        Ok(None)
    }
}

fn read_formulas(from: &Texts<'_>) -> Result<Formulas, NoMemory>
    ensures { IfOk result (λ read. HasFormulas (texts from.now) read) }
{
    let length = from.formula(Attribute::Length)?;
    let width = width(from, length.is_some())?;
    Ok(Formulas {
        arg: from.formula(Attribute::Arg)?,
        length,
        width,
        cond: from.formula(Attribute::Cond)?,
        vercond: from.formula(Attribute::Vercond)?,
    })
}

fn read_versions(from: &Texts<'_>) -> Result<Versions, NoMemory>
    ensures { IfOk result (λ read. HasVersions (texts from.now) read) }
{
    Ok(Versions {
        since: from.bound(Attribute::Since)?,
        until: from.bound(Attribute::Until)?,
        user: from.exact(Attribute::Userver)?,
        bs: from.exact(Attribute::Userver2)?,
    })
}

fn read_types(from: &Texts<'_>) -> Result<Types, NoMemory>
    ensures { IfOk result (λ read. HasTypes (texts from.now) read) }
{
    Ok(Types {
        template: from.word(Attribute::Template)?,
        only: from.word(Attribute::OnlyT)?,
        exclude: from.word(Attribute::ExcludeT)?,
    })
}

/// The name and the type of a field, where it has both.
#[tactic(auto, unfolding(crate::specs::Fields::is_nameless))]
fn name_and_type(from: &Texts<'_>) -> Result<Option<(Word, Word)>, NoMemory>
    ensures { IfOk result (λ read. HasNames (texts from.now) read) }
{
    let Some(name) = from.word(Attribute::Name)? else {
        return Ok(None);
    };
    let Some(kind) = from.word(Attribute::Type)? else {
        return Ok(None);
    };
    Ok(Some((name, kind)))
}

/// The field of these texts, or none where it lacks its name or its type.
fn field(from: &Texts<'_>) -> Result<Option<Field>, NoMemory>
    ensures { IfOk result (λ read. FieldRead (texts from.now) read) }
{
    let Some((name, kind)) = name_and_type(from)? else {
        return Ok(None);
    };
    let formulas = read_formulas(from)?;
    let versions = read_versions(from)?;
    let types = read_types(from)?;
    Ok(Some(Field {
        name,
        kind,
        template: types.template,
        arg: formulas.arg,
        length: formulas.length,
        width: formulas.width,
        cond: formulas.cond,
        vercond: formulas.vercond,
        since: versions.since,
        until: versions.until,
        user: versions.user,
        bs: versions.bs,
        only: types.only,
        exclude: types.exclude,
    }))
}

/// Whether a child of a struct or block type is a field.
#[tactic(auto, unfolding(crate::specs::Declarations::is_field))]
fn is_field(child: &Element) -> bool
    ensures { result ≡ is_field child.now }
{
    let name = name_of(child);
    name == b"field".as_slice() || name == b"add".as_slice()
}

/// The fields among these children, or none where a field lacks its name or its type.
fn fields(alloc: Global, tokens: &Tokens, children: &[Element]) -> Result<Option<Fields>, NoMemory>
    requires { length children.now < 2 ^ 32 }
    ensures { IfOk result (λ read. FieldsRead (replaced_by tokens.now) children.now read) }
{
    let mut fields = Fields::new(alloc);
    for child in children {
        if is_field(child) {
            let texts = Texts {
                alloc,
                tokens,
                attrs: attrs_of(child),
            };
            let Some(field) = field(&texts)? else {
                return Ok(None);
            };
            fields.push(field)?;
        }
    }
    Ok(Some(fields))
}

/// The fields of an element that declares so, or none where a field lacks its name or its type.
pub(crate) fn own_fields(
    alloc: Global,
    tokens: &Tokens,
    form: Form,
    element: &Element,
) -> Result<Option<Fields>, NoMemory>
    requires { length (children_of element.now) < 2 ^ 32 }
    ensures { IfOk result (λ read. OwnFieldsRead (replaced_by tokens.now) form element.now read) }
{
    match form {
        Form::Struct | Form::Block => fields(alloc, tokens, children_of(element)),
        Form::Basic | Form::Enum | Form::Bitfield => Ok(Some(Fields::new(alloc))),
    }
}
