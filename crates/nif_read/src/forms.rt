//! What the children of the root declare, by their names.
ghost use Rattle.std.specs.Prelude.{◌≡◌};
ghost use Rattle.nif_read.specs.Declarations.{form_of};

/// What an element declares.
#[derive(Clone, Copy)]
pub(crate) enum Form {
    Basic,
    /// An enum or bitflags.
    Enum,
    Bitfield,
    Struct,
    Block,
}

/// What an element of this name declares, where it declares.
#[tactic(auto, unfolding(crate::specs::Declarations::form_of))]
pub(crate) fn form_of(name: &[u8]) -> Option<Form>
    ensures { result ≡ form_of name.now }
{
    if name == b"basic".as_slice() {
        return Some(Form::Basic);
    }
    if name == b"enum".as_slice() {
        return Some(Form::Enum);
    }
    if name == b"bitflags".as_slice() {
        return Some(Form::Enum);
    }
    if name == b"bitfield".as_slice() {
        return Some(Form::Bitfield);
    }
    if name == b"struct".as_slice() {
        return Some(Form::Struct);
    }
    if name == b"compound".as_slice() {
        return Some(Form::Struct);
    }
    if name == b"niobject".as_slice() {
        return Some(Form::Block);
    }
    None
}
