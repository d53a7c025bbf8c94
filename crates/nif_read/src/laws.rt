//! What holds of schemas and faults themselves, whoever reads them.
ghost use Rattle.std.specs.Prelude.{◌≡◌, ℕ, List, ◌⊎◌};
ghost use Rattle.nif_text.specs.Tree.{Tree};
ghost use Rattle.nif_schema.specs.Schema.{Schema};
ghost use Rattle.nif_schema.specs.declared.faults.SchemaFault.{SchemaFault};
ghost use Rattle.nif_read.specs.Schemas.{Declares, DeclaresNot};

use nif_expr::laws::{one_tree, tree_or_none};

/// A tree declares exactly one schema, or it has exactly one fault, and not both.
pub fn one_outcome()
    ensures schema { (root : Tree) (one other : Schema) → Declares root one → Declares root other → one ≡ other }
    ensures fault { (root : Tree) (one other : SchemaFault) → DeclaresNot root one → DeclaresNot root other
        → one ≡ other }
    ensures not_both { (root : Tree) (schema : Schema) (fault : SchemaFault) → Declares root schema
        → DeclaresNot root fault → ⊥ }
    ensures some { (root : Tree) → ((schema : Schema) × Declares root schema)
        ⊎ ((fault : SchemaFault) × DeclaresNot root fault) }
{
    one_tree();
    tree_or_none();
}
