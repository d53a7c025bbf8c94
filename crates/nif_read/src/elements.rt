//! The parts of an element.
ghost use Rattle.std.specs.Prelude.{◌≡◌};
ghost use Rattle.nif_text.specs.Tree.{name_of, attrs_of, children_of};

use nif_text::{Attrs, Element};

pub(crate) fn name_of(element: &Element) -> &[u8]
    ensures { result.now ≡ name_of element.now }
{
    element.name.bytes()
}

pub(crate) fn attrs_of(element: &Element) -> &Attrs
    ensures { result.now ≡ attrs_of element.now }
{
    &element.attrs
}

pub(crate) fn children_of(element: &Element) -> &[Element]
    ensures { result.now ≡ children_of element.now }
{
    element.children.as_slice()
}
