//! Laws of edits, over the definitions alone.
ghost use Rattle.nif_edit.specs.Laws.{KeepsGraph, KeepsHeader, LeavesSeen, OneFault, Survives, StaysTyped, KeepsTyped, KeepsAcyclic, ReplacesItself};
ghost use Rattle.nif_edit.specs.Fits.{ValuesDeclare, KeepsValues, KeepsFits, AllKeepFits};

/// An accepted edit leaves a graph, and under each name it leaves what the definition by names says. The header, but for
/// what it says of the blocks, and what the file says of itself stay.
pub fn graphs_stay()
    ensures graph { KeepsGraph }
    ensures seen { LeavesSeen }
    ensures header { KeepsHeader }
{}

/// An edit has at most one fault.
pub fn one_fault()
    ensures { OneFault }
{}

/// A block that is there may be replaced by itself, whatever the limits, and that changes nothing.
pub fn replaces_itself()
    ensures { ReplacesItself }
{}

/// Over each list of accepted edits, reference k of a block that was neither removed nor replaced by another, or of the
/// footer, which no edit pointed, has its first target, or none where that block was removed.
pub fn references_survive()
    ensures { Survives }
{}

/// Over each such list, such a reference that was well typed is, and where all references were, all are.
pub fn types_stay()
    ensures one { StaysTyped }
    ensures all { KeepsTyped }
{}

/// Over each such list, where no block reached itself by strong references, none does.
pub fn no_new_cycles()
    ensures { KeepsAcyclic }
{}

/// After an accepted edit, where blocks and footer were values of their types, they are; and where the graph fitted the
/// schema, so that also what is written of it was within the limits, it does. So it is after each list of accepted edits.
pub fn fits_stay()
    ensures values { KeepsValues }
    ensures one { KeepsFits }
    ensures all { AllKeepFits }
{}

/// Of a graph whose blocks and footer are values of their types, the schema declares the types of the blocks, and those
/// that references want.
pub fn types_declared()
    ensures { ValuesDeclare }
{}
