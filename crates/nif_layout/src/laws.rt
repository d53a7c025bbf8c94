//! Laws of values, over the definitions alone.
ghost use Rattle.std.specs.Prelude.{◌≤◌, ℕ, List, Contains};
ghost use Rattle.std.specs.declared.option.Option.{Option};
ghost use Rattle.nif_schema.specs.Declaration.{Field};
ghost use Rattle.nif_schema.specs.Schema.{Schema, line};
ghost use Rattle.nif_layout.specs.Context.{Context};
ghost use Rattle.nif_layout.specs.Earlier.{Env};
ghost use Rattle.nif_layout.specs.Kind.{Kind};
ghost use Rattle.nif_layout.specs.Shape.{Shape};
ghost use Rattle.nif_base.specs.Node.{Node, depth};
ghost use Rattle.nif_layout.specs.Form.{Form, form_of};
ghost use Rattle.nif_layout.specs.Fault.{Fault};
ghost use Rattle.nif_layout.specs.Members.{Check};
ghost use Rattle.nif_layout.specs.Defined.{AllDefined};
ghost use Rattle.nif_layout.specs.Laws.{Fits, AllFit, IsOpenType, HasTemplate, OneNode, NoProperPrefix, OneForm, OneLine, SpelledOrFails, FormSpelledOrFails, LineSpelledOrFails};
ghost use Rattle.nif_layout.specs.ZeroLaws.{LeadsNowhere, IsZeroValue};

/// Two values of a type that are spelled by the same bytes are one.
pub fn same_bytes_same_node()
    ensures { (S : Schema) (C : Context) (number : ℕ) (template : Option ℕ) (arg : ℕ) → Fits C
        → OneNode S C number template arg }
{}

/// No spelling of a value of a type is a proper prefix of another.
pub fn no_proper_prefix()
    ensures { (S : Schema) (C : Context) (number : ℕ) (template : Option ℕ) (arg : ℕ) → Fits C
        → NoProperPrefix S C number template arg }
{}

/// At each place a value of an open type is spelled, or it fails in exactly one way.
pub fn spelled_or_fails()
    ensures { (S : Schema) (C : Context) (number : ℕ) (template : Option ℕ) (arg : ℕ) → Fits C → IsOpenType S number
        → HasTemplate S number template → SpelledOrFails S C number template arg }
{}

/// The bytes of the value of a field, whatever stands behind them, are those of one value.
pub fn one_form()
    ensures { (S : Schema) (C : Context) (form : Form) → Fits C → OneForm S C form }
{}

/// At each place the value of a field of an open type is spelled, or it fails in exactly one way.
pub fn form_spelled_or_fails()
    ensures { (S : Schema) (C : Context) (number : ℕ) (template : Option ℕ) (arg : ℕ) (f : Field) (E : Env) → Fits C
        → IsOpenType S number → HasTemplate S number template → Contains (line S number) f
        → FormSpelledOrFails S C (form_of S C template arg E f) }
{}

/// The bytes of the members of a line, whatever stands behind them, are those of one list of members. Each member may
/// have a context of its own, and be refused for a reason of the caller's.
pub fn one_line<W>()
    ensures { (S : Schema) (at : Env → Context) (template : Option ℕ) (arg : ℕ) (check : Check W) (fields : List Field)
        (E : Env) → AllFit at → OneLine S at template arg check fields E }
{}

/// At each place the members of the line of an open type are spelled, or they fail in exactly one way.
pub fn line_spelled_or_fails<W>()
    ensures { (S : Schema) (at : Env → Context) (number : ℕ) (template : Option ℕ) (arg : ℕ) (by_fault : Fault → W)
        (check : Check W) → AllFit at → IsOpenType S number → HasTemplate S number template
        → LineSpelledOrFails S at template arg by_fault check (line S number) }
{}

/// In an open type each expression of each field of its line was read, and each path in it has a value, whatever was
/// read of the fields before it; and a `width` that is the bare name of an array names arrays of numbers alone.
///
/// This is of the definition of values: it leaves no path out. It does not say where a path leads: `path_value` has a
/// value for each path whose first name is that of an earlier field, and 0 where there is nothing. That each path of an
/// open type leads to numbers alone is `nif_check::laws::open_types_have_values`, which says the more of its fields.
pub fn all_defined()
    ensures { (S : Schema) (number : ℕ) → IsOpenType S number → AllDefined S number }
{}

/// Groups lie no deeper in a value than its bound.
pub fn depth_within()
    ensures { (S : Schema) (C : Context) (d : ℕ) (kind : Kind) (at : Node) → Shape S C d kind at → depth at ≤ d }
{}

/// Each reference of the zero node of a type is empty; and where no group lies 65 deep in it, the zero node of an open
/// type is a value of that type.
pub fn zero_values()
    ensures empty { LeadsNowhere }
    ensures value { IsZeroValue }
{}
