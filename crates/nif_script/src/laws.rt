//! What holds of scripts themselves, whoever reads them.
ghost use Rattle.std.specs.Prelude.{◌≡◌, ℕ, List, ◌⊎◌, Some};
ghost use Rattle.nif_edit.specs.declared.edits.Edit.{Edit};
ghost use Rattle.nif_script.specs.Scripts.{edits_of, bad_line};

/// A script spells exactly one list of edits, or it has exactly one first line of no form, and not both.
pub fn one_outcome()
    ensures edits { (script : List ℕ) (one other : List Edit) → edits_of script ≡ Some one
        → edits_of script ≡ Some other → one ≡ other }
    ensures line { (script : List ℕ) (one other : ℕ) → bad_line script ≡ Some one → bad_line script ≡ Some other
        → one ≡ other }
    ensures not_both { (script : List ℕ) (edits : List Edit) (line : ℕ) → edits_of script ≡ Some edits
        → bad_line script ≡ Some line → ⊥ }
    ensures some { (script : List ℕ) → ((edits : List Edit) × (edits_of script ≡ Some edits))
        ⊎ ((line : ℕ) × (bad_line script ≡ Some line)) }
{}
