//! Laws of cells, over the definitions alone.
ghost use Rattle.std.specs.Prelude.{ℕ, ◌<◌, List, length};
ghost use Rattle.std.specs.declared.option.Option.{Option};
ghost use Rattle.nif_base.specs.Node.{Node, refs};
ghost use Rattle.nif_cells.specs.Building.{Level};
ghost use Rattle.nif_cells.specs.Small.{HasBytes};
ghost use Rattle.nif_cells.specs.Progress.{IsOpenInside, HasBytesOpen};
ghost use Rattle.nif_cells.specs.Laws.{IsKnown, IsMet, IsFewCells, IsIndexed, TakesTarget, IsOpenKnown, IsFewOpen};

/// The cells of a node are read as that node.
pub fn tree_is_known()
    ensures { (n : Node) → HasBytes n → IsKnown n }
{}

/// A walk through the cells of a node meets what a walk through the node meets.
pub fn walk_is_met()
    ensures { (n : Node) → HasBytes n → IsMet n }
{}

/// A node takes at most two cells for each node in it and one for each eight bytes.
pub fn few_cells()
    ensures { (n : Node) → IsFewCells n }
{}

/// Each reference is found by the index at the end of the cells.
pub fn references_are_indexed()
    ensures { (n : Node) (k : ℕ) → k < length (refs n) → IsIndexed n k }
{}

/// To write another target in the cell of a reference gives the node with that target, and no other change.
pub fn target_is_taken()
    ensures { (n : Node) (k : ℕ) (target : Option ℕ) → TakesTarget n k target }
{}

/// A tree that is being built is read from its cells.
pub fn open_is_known()
    ensures { (levels : List Level) → IsOpenInside levels → HasBytesOpen levels → IsOpenKnown levels }
{}

/// What is open takes no more cells than the node that it becomes may.
pub fn few_open()
    ensures { (levels : List Level) → IsFewOpen levels }
{}
