//! Laws of checked schemas, over the definitions alone.
ghost use Rattle.std.specs.Prelude.{◌≡◌, ℕ, ◌∷◌, ◌++◌, List, Option, Some, slice_get};
ghost use Rattle.nif_schema.specs.Declaration.{Field, Declaration};
ghost use Rattle.nif_schema.specs.Schema.{Schema};
ghost use Rattle.nif_schema.specs.Reasons.{IsOpen, IsReason, line_above};
ghost use Rattle.nif_schema.specs.Roles.{Roles, RoleFault};
ghost use Rattle.nif_schema.specs.declared.faults.Closed.{Closed};
ghost use Rattle.nif_check.specs.Values.{IsReadable};

/// In an open type each expression of each own field can be read, and each path in it has a value behind the fields
/// before it: those of the ancestors and the own ones. Each length and width is a number, or the width names earlier
/// arrays of numbers.
pub fn open_types_have_values()
    ensures { (schema : Schema) (number : ℕ) (d : Declaration) (before : List Field) (f : Field) (behind : List Field)
        → IsOpen schema number → slice_get schema number ≡ Some d → d.fields ≡ before ++ f ∷ behind
        → IsReadable schema (line_above schema number ++ before) f }
{}

/// A type has one reason, or none.
pub fn one_reason()
    ensures { (schema : Schema) (number : ℕ) (a b : Option Closed) → IsReason schema number a → IsReason schema number b
        → a ≡ b }
{}

/// A schema that keeps all rules has no first rule that fails.
pub fn no_fault()
    ensures { (schema : Schema) (rule : ℕ) → Roles schema → RoleFault schema rule → ⊥ }
{}

/// And there is one first rule at most.
pub fn one_fault()
    ensures { (schema : Schema) (a b : ℕ) → RoleFault schema a → RoleFault schema b → a ≡ b }
{}
