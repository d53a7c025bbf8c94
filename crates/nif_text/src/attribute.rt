//! The attributes of an element.
ghost use Rattle.std.specs.Prelude.{◌≡◌, ℕ, ◌+◌, ◌^◌, ◌<◌, ◌≤◌, Bool, true, false, List, [], ◌∷◌, ◌++◌, length, IfOk, OnOk, IfSome};
ghost use Rattle.nif_base.specs.Limits.{most_schema_bytes};
ghost use Rattle.nif_text.specs.Reading.{AttributeRead, AttributesRead};

use crate::cursor::Cursor;
use crate::stop::Stop;
use crate::tree::Attrs;
use crate::value::assigned;
use nif_base::Word;
use std::alloc::Global;

/// The next attribute. Where none comes next, the text goes over the blanks that do.
fn attribute(text: &mut Cursor<'_>, alloc: Global) -> Result<Option<(Word, Word)>, Stop>
    ensures read { AttributeRead text.old text.new result }
    ensures shorter { IfOk result (λ pair. IfSome pair (λ _. length text.new + 1 ≤ length text.old)) }
    ensures not_longer { OnOk result (length text.new ≤ length text.old) }
{
    let before = text.rest().len();
    text.skip_blanks();
    if text.rest().len() == before {
        return Ok(None);
    }
    let Some(name) = text.name() else {
        return Ok(None);
    };
    let value = assigned(text, alloc)?;
    let name = Word::from_bytes(alloc, name)?;
    Ok(Some((name, value)))
}

/// All attributes that come next. The text goes over the blanks behind them, too.
pub fn attributes(text: &mut Cursor<'_>, alloc: Global) -> Result<Attrs, Stop>
    requires { length text.old ≤ most_schema_bytes }
    ensures read { AttributesRead text.old text.new result }
    ensures not_longer { OnOk result (length text.new ≤ length text.old) }
{
    let mut attrs = Attrs::new(alloc);
    while let Some(pair) = attribute(text, alloc)? {
        attrs.push(pair)?;
    }
    Ok(attrs)
}
