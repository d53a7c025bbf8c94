//! Tables of the names of fields.
ghost use Rattle.std.specs.Prelude.{◌≡◌, ℕ, ◌<◌, List, [], ◌∷◌, ◌++◌, map, length, OnOk, IfOk};
ghost use Rattle.nif_names.specs.Marks.{IsFound};
ghost use Rattle.nif_names.specs.Tables.{kinds};
ghost use Rattle.nif_schema.specs.Declaration as plain;
ghost use Rattle.nif_schema.specs.Declaration.{field};
ghost use Rattle.nif_schema.specs.declared.members.BitMember.{BitMember};
ghost use Rattle.nif_paths.specs.Shaped.{AreMarks, AreInsides, HasFields, HasInside, HasBits};

use crate::shapes::field_shape;
use nif_base::NoMemory;
use nif_names::{Names, Shape};
use nif_schema::{BitMembers, Field, Fields, Schema, What};
use std::alloc::Global;

/// Puts a field behind the others.
pub(crate) fn push_field(
    schema: &Schema,
    generic: &[bool],
    names: &mut Names,
    of: &Field,
) -> Result<(), NoMemory>
    requires { AreMarks schema.now generic.now }
    ensures fields { OnOk result ((fields : List plain.Field) → HasFields schema.now fields names.old
        → HasFields schema.now (fields ++ field of.now ∷ []) names.new) }
    ensures kept { OnOk result ((other key types : List ℕ) (stop : ℕ) → IsFound (kinds names.new other) key types stop
        → IsFound (kinds names.old other) key types stop) }
{
    names.push(of.name.bytes(), field_shape(schema, generic, of))
}

/// Takes the last field off.
pub(crate) fn pop_field(schema: &Schema, names: &mut Names, of: &Field)
    ensures fields { (fields : List plain.Field) → HasFields schema.now (fields ++ field of.now ∷ []) names.old
        → HasFields schema.now fields names.new }
    ensures kept { (other key types : List ℕ) (stop : ℕ) → IsFound (kinds names.new other) key types stop
        → IsFound (kinds names.old other) key types stop }
{
    names.pop(of.name.bytes());
}

fn struct_names(
    alloc: Global,
    schema: &Schema,
    generic: &[bool],
    fields: &Fields,
) -> Result<Names, NoMemory>
    requires { AreMarks schema.now generic.now }
    ensures { IfOk result (HasFields schema.now (map field fields.now)) }
{
    let mut names = Names::new(alloc);
    for place in 0..fields.len() {
        let Ok(()) = push_field(schema, generic, &mut names, fields.get(place)) else {
            return Err(NoMemory);
        };
    }
    Ok(names)
}

fn push_bit(names: &mut Names, name: &[u8]) -> Result<(), NoMemory>
    ensures { OnOk result ((members : List BitMember) (m : BitMember) → m.name ≡ name.now → HasBits members names.old
        → HasBits (members ++ m ∷ []) names.new) }
{
    if names.look(name).is_some() {
        return Ok(());
    }
    names.push(
        name,
        Shape {
            number: true,
            row: false,
            inner: None,
        },
    )
}

fn bit_names(alloc: Global, members: &BitMembers) -> Result<Names, NoMemory>
    ensures { IfOk result (HasBits members.now) }
{
    let mut names = Names::new(alloc);
    for place in 0..members.len() {
        let Ok(()) = push_bit(&mut names, members.get(place).name.bytes()) else {
            return Err(NoMemory);
        };
    }
    Ok(names)
}

fn inside_names(
    alloc: Global,
    schema: &Schema,
    generic: &[bool],
    number: u32,
) -> Result<Names, NoMemory>
    requires within { number < length schema.now }
    requires marks { AreMarks schema.now generic.now }
    ensures { IfOk result (HasInside schema.now number) }
{
    let decl = schema.decl(number);
    match &decl.what {
        What::Struct => struct_names(alloc, schema, generic, &decl.fields),
        What::Stored { members, .. } => bit_names(alloc, members),
        _ => Ok(Names::new(alloc)),
    }
}

/// For each declaration, the names inside its type.
pub fn inside_tables(
    alloc: Global,
    schema: &Schema,
    generic: &[bool],
) -> Result<Vec<Names>, NoMemory>
    requires { AreMarks schema.now generic.now }
    ensures { IfOk result (λ tables. AreInsides schema.now tables.items) }
{
    let mut tables = Vec::new(alloc);
    for number in 0..schema.count() {
        let names = match inside_names(alloc, schema, generic, number) {
            Ok(names) => names,
            Err(fault) => return Err(fault),
        };
        let Ok(()) = tables.push(names) else {
            return Err(NoMemory);
        };
    }
    Ok(tables)
}
