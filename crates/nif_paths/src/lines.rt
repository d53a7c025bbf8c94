//! Lines of fields.
ghost use Rattle.std.specs.Prelude.{◌≡◌, ◌≢◌, List, [], ◌∷◌, ◌++◌, OnOk, IfSome};
ghost use Rattle.std.specs.Option.{option_map_or};
ghost use Rattle.nif_names.specs.Tables.{held};
ghost use Rattle.nif_schema.specs.Declaration as plain;
ghost use Rattle.nif_schema.specs.Declaration.{field};
ghost use Rattle.nif_schema.specs.Schema as spec;
ghost use Rattle.nif_paths.specs.Marks.{IsLine};
ghost use Rattle.nif_paths.specs.Shaped.{AreMarks};

use crate::tables::{pop_field, push_field};
use nif_base::NoMemory;
use nif_names::{Names, Shapes};
use nif_schema::{Field, Schema};
use nif_sets::Sets;
use std::alloc::Global;

/// The names of the fields of a line, and the sets of types that paths led to.
#[derive(Drop)]
pub struct Line {
    pub names: Names,
    pub sets: Sets,
}

impl Line {
    /// A line of no fields. It takes no memory.
    pub fn new(alloc: Global) -> Line
        ensures { (schema : spec.Schema) → IsLine schema [] result }
    {
        Line {
            names: Names::new(alloc),
            sets: Sets::new(alloc),
        }
    }

    /// The shapes of the fields of a name, if there are any.
    pub fn look(&self, name: &[u8]) -> Option<&Shapes>
        ensures value { option_map_or (λ shapes. shapes.now.shapes) result [] ≡ held self.now.names name.now }
        ensures some { IfSome result (λ shapes. shapes.now.shapes ≢ []) }
    {
        self.names.look(name)
    }

    /// Puts a field behind the others; after want of memory the line isn't to be used again.
    pub fn push(&mut self, schema: &Schema, generic: &[bool], of: &Field) -> Result<(), NoMemory>
        requires { AreMarks schema.now generic.now }
        ensures { OnOk result ((fields : List plain.Field) → IsLine schema.now fields self.old
            → IsLine schema.now (fields ++ field of.now ∷ []) self.new) }
    {
        push_field(schema, generic, &mut self.names, of)
    }

    /// Takes the last field off.
    pub fn pop(&mut self, schema: &Schema, of: &Field)
        ensures { (fields : List plain.Field) → IsLine schema.now (fields ++ field of.now ∷ []) self.old
            → IsLine schema.now fields self.new }
    {
        pop_field(schema, &mut self.names, of);
    }

    /// Takes all fields off. The sets stay, if there is room for more.
    pub fn clear(&mut self, alloc: Global)
        ensures { (schema : spec.Schema) (fields : List plain.Field) → IsLine schema fields self.old
            → IsLine schema [] self.new }
    {
        self.names = Names::new(alloc);
        if self.sets.is_full() {
            self.sets = Sets::new(alloc);
        }
    }
}
