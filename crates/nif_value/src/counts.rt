//! The nodes and bytes of a tree, counted in its cells.
ghost use Rattle.std.specs.Prelude.{◌≡◌, ◌<◌, IsSome, IfSome};
ghost use Rattle.nif_base.specs.Node.{nodes};
ghost use Rattle.nif_region.specs.Contents.{find};
ghost use Rattle.nif_cells.specs.Building.{bytes_of};
ghost use Rattle.nif_cells.specs.Reading.{tree_in};
ghost use Rattle.nif_value.specs.Counts.{nodes_said, bytes_said};
ghost use Rattle.nif_value.specs.Kept.{IsTree};

use nif_cells::Content;
use nif_region::{Region, RunId};

/// How many nodes begin with a cell that says this, an absent member among them.
fn nodes_of(content: Content) -> u32
    ensures { result ≡ nodes_said content }
{
    match content {
        Content::Word { .. } | Content::Tail { .. } | Content::End | Content::Place { .. } => 0,
        _ => 1,
    }
}

/// How many bytes spell what begins with a cell that says this, without those of its members.
fn bytes_of_content(content: Content) -> u32
    requires { bytes_said content < 4294967296 }
    ensures { result ≡ bytes_said content }
{
    match content {
        Content::Number { width, .. } => width as u32,
        Content::Line { len } => len + 1,
        Content::Reference { .. } | Content::Text { .. } => 4,
        Content::Bytes { len } => len,
        _ => 0,
    }
}

/// How many nodes the tree in a run has.
pub(crate) fn count_nodes(region: &Region, run: RunId) -> u32
    requires live { IsSome (find region.now.runs run.key) }
    requires tree { IfSome (find region.now.runs run.key) IsTree }
    ensures { IfSome (find region.now.runs run.key) (λ cells. result ≡ nodes (tree_in cells)) }
{
    let mut count = 0;
    for place in 0..region.len(run) {
        count += nodes_of(Content::of(region.get(run, place)));
    }
    count
}

/// How many bytes spell the tree in a run.
pub(crate) fn count_bytes(region: &Region, run: RunId) -> u32
    requires live { IsSome (find region.now.runs run.key) }
    requires tree { IfSome (find region.now.runs run.key) IsTree }
    ensures { IfSome (find region.now.runs run.key) (λ cells. result ≡ bytes_of (tree_in cells)) }
{
    let mut count = 0;
    for place in 0..region.len(run) {
        count += bytes_of_content(Content::of(region.get(run, place)));
    }
    count
}
