//! What one value of a type is.
ghost use Rattle.std.specs.Prelude.{◌≡◌, ◌<◌, length, None};
ghost use Rattle.nif_schema.specs.Declaration.{declaration};
ghost use Rattle.nif_schema.specs.Schema.{Schema};
ghost use Rattle.nif_layout.specs.Kind as spec;
ghost use Rattle.nif_layout.specs.Laws.{IsOpenType, HasTemplate};
ghost use Rattle.nif_scope.specs.Scope.{IsKnown, context_of, kind_of};
ghost use Rattle.nif_scope.specs.Leaves.{IsReadable};

use crate::forms::Kind;
use crate::numbers::leaf_of;
use crate::settings::ValueContext;
use nif_schema::{Leaf, Schema, What};

/// How many bytes a `bool` has.
fn bool_width(context: &ValueContext) -> u8
    ensures { result ≡ spec.bool_width (context_of context.now) }
{
    if context.context.version.number < 0x04010001 {
        return 4;
    }
    1
}

/// What a value of a basic is.
fn kind_of_leaf(context: &ValueContext, template: Option<u32>, leaf: Leaf) -> Kind
    ensures value { (schema : Schema) → kind_of schema result
        ≡ spec.kind_of_leaf (context_of context.now) template leaf }
    ensures known { (schema : Schema) → IsReadable leaf → IsKnown schema result }
{
    match leaf {
        Leaf::Num { width, little, .. } => Kind::Number { width, little },
        Leaf::Bool => Kind::Number {
            width: bool_width(context),
            little: false,
        },
        Leaf::Line => Kind::Line,
        Leaf::Ref => Kind::Ref {
            strong: true,
            wanted: template,
        },
        Leaf::Ptr => Kind::Ref {
            strong: false,
            wanted: template,
        },
        Leaf::Text => Kind::Text,
        Leaf::Unread => Kind::Unknown,
    }
}

/// What a value of a type is, under a template and with an argument.
pub(crate) fn kind_of(
    schema: &Schema,
    context: &ValueContext,
    number: u32,
    template: Option<u32>,
    arg: u64,
) -> Kind
    requires open { IsOpenType schema.now number }
    requires template { HasTemplate schema.now number template }
    ensures value { kind_of schema.now result ≡ spec.kind_of schema.now (context_of context.now) number template arg }
    ensures known { IsKnown schema.now result }
{
    prove!(number < schema.count());
    let what = &schema.decl(number).what;
    match what {
        What::Basic { .. } => kind_of_leaf(context, template, leaf_of(schema, what)),
        What::Stored { .. } => kind_of_leaf(context, None, leaf_of(schema, what)),
        What::Struct => Kind::Group {
            number,
            template,
            arg,
        },
        What::Block { .. } => Kind::Group {
            number,
            template: None,
            arg: 0,
        },
    }
}
