//! What holds of the grammar itself, whoever reads or writes by it.
ghost use Rattle.std.specs.Prelude.{◌≡◌, ℕ, ◌≤◌, List, length};
ghost use Rattle.nif_text.specs.Tree.{Tree, elements};
ghost use Rattle.nif_text.specs.Documents.{Written, IsAfter};

/// No bytes are written of two trees.
pub fn one_tree()
    ensures { (one other : Tree) (text : List ℕ) → Written one text → Written other text → one ≡ other }
{}

/// The number of children before a fault is one number for each text.
pub fn one_after()
    ensures { (text : List ℕ) (one other : ℕ) → IsAfter text one → IsAfter text other → one ≡ other }
{}

/// A tree has no more elements than bytes that it is written by.
pub fn few_elements()
    ensures { (tree : Tree) (text : List ℕ) → Written tree text → elements tree ≤ length text }
{}
