//! Laws of the grammar and of values, over the definitions alone.
ghost use Rattle.std.specs.Prelude.{◌≡◌, ◌⊎◌, ◌<◌, ℕ, List, [], Some, Contains, length, map, slice_index, slice_index_or};
ghost use Rattle.nif_schema.specs.Expression.{Tree};
ghost use Rattle.nif_schema.specs.Paths.{paths_of};
ghost use Rattle.nif_expr.specs.Value.{Names, value, bound};
ghost use Rattle.nif_expr.specs.Parts.{Part, signs, first_sign, AreNotLonger};
ghost use Rattle.nif_expr.specs.Grammar.{IsExpression};

/// No text has two trees.
pub fn one_tree()
    ensures { (text : List ℕ) (a b : Tree) → IsExpression text a → IsExpression text b → a ≡ b }
{}

/// The operator that is taken is the longest that the text begins with.
pub fn longest_operator()
    ensures { (text rest : List ℕ) (p : Part) → first_sign signs text ≡ Some (p, rest) → AreNotLonger signs text rest }
{}

/// Each text has a tree or has none: which of the two can be told.
pub fn tree_or_none()
    ensures { (text : List ℕ) → ((t : Tree) × IsExpression text t) ⊎ ((t : Tree) → IsExpression text t → ⊥) }
{}

/// Where the slot of each path has what `of` says of it, and each path of a tree has a slot, the value of the tree is
/// the one with its paths as `of` says.
pub fn value_by_slots()
    ensures { (t : Tree) (of : Names → ℕ) (paths : List Names) (slots : List ℕ) (arg : ℕ)
        → ((i : ℕ) → i < length paths → slice_index slots i ≡ of (slice_index_or paths i []))
        → ((path : Names) → Contains (paths_of t) path → Contains paths path)
        → value t (bound paths slots) arg ≡ value t (map (λ path. (path, of path)) (paths_of t)) arg }
{}
