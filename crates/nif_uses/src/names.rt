//! What the names in a field stand for.
ghost use Rattle.std.specs.Prelude.{◌≡◌, ◌<◌, length, IfSome};
ghost use Rattle.nif_schema.specs.Declaration.{field};
ghost use Rattle.nif_schema.specs.Uses.{named, named_template};

use crate::templates::is_own_template;
use nif_base::Word;
use nif_schema::{Field, Schema};

/// The number of the declaration that a name in a field names; `#T#` names none.
pub fn named(schema: &Schema, name: &Word) -> Option<u32>
    ensures value { result ≡ named schema.now name.now }
    ensures within { IfSome result (λ number. number < length schema.now) }
{
    if is_own_template(name) {
        return None;
    }
    schema.find(name.bytes())
}

/// The number of the declaration that the template of a field names.
pub(crate) fn named_template(schema: &Schema, of: &Field) -> Option<u32>
    ensures value { result ≡ named_template schema.now (field of.now) }
    ensures within { IfSome result (λ number. number < length schema.now) }
{
    match &of.template {
        Some(template) => named(schema, template),
        None => None,
    }
}
