//! Schema texts.
ghost use Rattle.std.specs.Prelude.{◌≡◌, ◌+◌, ◌-◌, ◌^◌, ◌<◌, ◌≤◌, [], length, map, None, Some, All, OnOk, IfOk, IfErr};
ghost use Rattle.nif_base.specs.Limits.{most_schema_bytes};
ghost use Rattle.nif_text.specs.Tree.{Tree, elements, children_of};
ghost use Rattle.nif_text.specs.Documents.{Written};
ghost use Rattle.nif_attributes.specs.Attributes.{replaced_by};
ghost use Rattle.nif_read.specs.Schemas.{Declares, IsRefused, AreDeclared, group_fault, fault_as, fault_at, first_fault, fault_of};
ghost use Rattle.nif_read.specs.Kept.{Stepped, IsFaultOf, StepAs};

use crate::declarations::declaration;
use crate::elements::{attrs_of, children_of, name_of};
use crate::forms::{Form, form_of};
use nif_attributes::attributes::given;
use nif_attributes::tokens::{Tokens, has_refused_child};
use nif_base::{NoMemory, Word};
use nif_schema::{Schema, SchemaFault};
use nif_text::laws::few_elements;
use nif_text::{Element, TextFault, read_elements};
use std::alloc::Global;

/// Refuses a token group with a child that gives no token.
#[tactic(auto, unfolding(crate::specs::Schemas::group_fault))]
fn group(number: u32, child: &Element) -> Result<(), SchemaFault>
    ensures ok { OnOk result (group_fault number child.now ≡ None) }
    ensures err { IfErr result (IsFaultOf (group_fault number child.now)) }
{
    if name_of(child) == b"token".as_slice() && has_refused_child(child) {
        return Err(SchemaFault::BadToken { element: number });
    }
    Ok(())
}

/// Puts the declaration of a child of the root behind the others.
fn declare(
    alloc: Global,
    tokens: &Tokens,
    number: u32,
    form: Form,
    child: &Element,
    schema: &mut Schema,
) -> Result<(), SchemaFault>
    requires few { length (children_of child.now) < 2 ^ 32 }
    requires room { length schema.old < 2 ^ 32 - 1 }
    ensures sound { OnOk result (fault_as (replaced_by tokens.now) (map (λ d. d.name) schema.old) number child.now
        (Some form) ≡ None) }
    ensures step { OnOk result (StepAs (replaced_by tokens.now) child.now schema.old schema.new (Some form)) }
    ensures err { IfErr result (IsFaultOf (fault_as (replaced_by tokens.now)
        (map (λ d. d.name) schema.old) number child.now (Some form))) }
{
    let Some(name) = given(attrs_of(child), b"name") else {
        return Err(SchemaFault::MissingName { element: number });
    };
    let Ok(name) = Word::from_bytes(alloc, name) else {
        return Err(SchemaFault::NoMemory);
    };
    if schema.find(name.bytes()).is_some() {
        return Err(SchemaFault::DuplicateName { name });
    }
    match declaration(alloc, tokens, form, name, child) {
        Ok(Some(decl)) => match schema.add(decl) {
            Ok(_) => Ok(()),
            Err(NoMemory) => Err(SchemaFault::NoMemory),
        },
        Ok(None) => Err(SchemaFault::MissingName { element: number }),
        Err(NoMemory) => Err(SchemaFault::NoMemory),
    }
}

/// What a child of the root does to the schema: it declares, or its tokens are looked at, or it is passed over.
fn child(
    alloc: Global,
    tokens: &Tokens,
    number: u32,
    child: &Element,
    schema: &mut Schema,
) -> Result<(), SchemaFault>
    requires few { length (children_of child.now) < 2 ^ 32 }
    requires room { length schema.old < 2 ^ 32 - 1 }
    ensures ok { OnOk result (Stepped (replaced_by tokens.now) number child.now schema.old schema.new) }
    ensures err { IfErr result (IsFaultOf (fault_at (replaced_by tokens.now)
        (map (λ d. d.name) schema.old) number child.now)) }
{
    match form_of(name_of(child)) {
        Some(form) => declare(alloc, tokens, number, form, child, schema),
        None => group(number, child),
    }
}

/// The schema of the children of the root, or the first fault among them.
fn declarations(alloc: Global, tokens: &Tokens, children: &[Element]) -> Result<Schema, SchemaFault>
    requires all { length children.now ≤ most_schema_bytes }
    requires few { All (λ child. length (children_of child) < 2 ^ 32) children.now }
    ensures sound { IfOk result (λ _. first_fault (replaced_by tokens.now) [] 0 children.now ≡ None) }
    ensures declared { IfOk result (λ schema. AreDeclared (replaced_by tokens.now) children.now schema) }
    ensures err { IfErr result (IsFaultOf (first_fault (replaced_by tokens.now) [] 0 children.now)) }
{
    let mut schema = Schema::new(alloc);
    for (number, element) in children.iter().enumerate() {
        child(alloc, tokens, number as u32, element, &mut schema)?;
    }
    Ok(schema)
}

/// The schema that a tree declares, or its fault.
fn schema_of(alloc: Global, root: &Element) -> Result<Schema, SchemaFault>
    requires { elements root.now ≤ most_schema_bytes }
    ensures ok { IfOk result (λ schema. Declares root.now schema) }
    ensures err { IfErr result (IsFaultOf (fault_of root.now)) }
{
    if name_of(root) != b"niftoolsxml".as_slice() {
        return Err(SchemaFault::NoRoot);
    }
    match Tokens::of(alloc, root) {
        Ok(tokens) => declarations(alloc, &tokens, children_of(root)),
        Err(NoMemory) => Err(SchemaFault::NoMemory),
    }
}

/// The schema that is declared by a text of at most 2^22 bytes. The text is written in a subset of XML, and its root is
/// `niftoolsxml`. `NotWritten` comes where the bytes write no tree of elements, `NoRoot` where the root has another
/// name, and else the first of `MissingName`, `DuplicateName` and `BadToken` in the order of the text.
pub fn read_schema(alloc: Global, bytes: &[u8]) -> Result<Schema, SchemaFault>
    requires { length bytes.now ≤ most_schema_bytes }
    // The bytes write a tree that declares the schema,
    ensures schema { IfOk result (λ schema. (tree : Tree) × Written tree bytes.now × Declares tree schema) }
    // or they write none, or one with this fault.
    ensures fault { IfErr result (λ fault. IsRefused bytes.now fault) }
{
    few_elements();
    match read_elements(alloc, bytes) {
        Ok(root) => schema_of(alloc, &root),
        Err(TextFault::NotWritten { after }) => Err(SchemaFault::NotWritten { after }),
        Err(TextFault::NoMemory) => Err(SchemaFault::NoMemory),
    }
}
