//! Values of all kinds, by the names of a schema.
ghost use Rattle.std.specs.Prelude.{◌≤◌, IsSomeAnd, false, ◌≡◌, ◌+◌, ◌*◌};
ghost use Rattle.nif_base.specs.Limits.{most_nodes};
ghost use Rattle.nif_base.specs.Node.{Members};
ghost use Rattle.nif_cells.specs.Building.{TakesAbsent};
ghost use Rattle.nif_schema.specs.Declaration.{field};
ghost use Rattle.nif_layout.specs.Form.{row_of, width_at, Row, One};
ghost use Rattle.nif_layout.specs.Shape.{Shape, IsForm};
ghost use Rattle.nif_layout.specs.Fails.{Fails, FormFails};
ghost use Rattle.nif_scope.specs.Scope.{IsSetting, IsField, IsKnown, Tells, asks, context_in, earlier, kind_of, width_of};
ghost use Rattle.nif_scope.specs.Told as kept;
ghost use Rattle.nif_scope.specs.Told.{member_told};
ghost use Rattle.nif_decode.specs.Answers.{Answers, IsReady, stand};
ghost use Rattle.nif_decode.specs.Groups.{GroupShape, GroupStops, ValueShape, ValueStops, MemberAnswers};

use crate::faults::ValueFault;
use crate::leaves::{read_line, read_number, read_ref, read_text};
use crate::opens::{begin_group, begin_row, end_items, leave_out, settle_item};
use crate::runs::read_run;
use nif_base::{NoMemory, Source};
use nif_schema::Field;
use nif_scope::{Entry, Kind, Setting, Size, keeping, scopes};
use nif_stream::Taker;
use nif_value::Store;
use std::alloc::Global;

/// Reads one value, in which groups lie at most `depth` deep.
#[cycle(values)]
#[tactic(none)]
pub(crate) fn read_one<S: Source>(
    alloc: Global,
    at: &Setting<'_>,
    of: Kind,
    depth: u32,
    taker: &mut Taker<'_, S>,
    store: &mut Store,
    nodes: &mut u32,
    told: &mut Vec<Entry>,
) -> Result<(), ValueFault>
    requires setting { IsSetting at.now }
    requires known { IsKnown at.now.schema.now of }
    requires ready { IsReady (stand taker.old nodes.old store.old told.old.items) (3 * depth) }
    ensures trees { store.new.trees ≡ store.old.trees }
    ensures answers { Answers S.left S.still S.read_faults (context_in at.now).order
        (Shape at.now.schema.now (context_in at.now) depth (kind_of at.now.schema.now of))
        (Fails at.now.schema.now (context_in at.now) depth (kind_of at.now.schema.now of)) kept.told
        (stand taker.old nodes.old store.old told.old.items)
        (stand taker.new nodes.new store.new told.new.items) result }
    ensures counted { nodes.new ≤ most_nodes }
{
    match of {
        Kind::Number { width, little } => read_number(
            at.context, width, little, taker, store, nodes, told,
        ),
        Kind::Line => read_line(at.context, taker, store, nodes, told),
        Kind::Ref { strong, wanted } => read_ref(
            at.context, strong, wanted, taker, store, nodes, told,
        ),
        Kind::Text => read_text(at.context, taker, store, nodes, told),
        Kind::Group {
            number,
            template,
            arg,
        } => {
            if depth == 0 {
                return Err(ValueFault::TooDeep { at: taker.place() });
            }
            let inner = Setting {
                schema: at.schema,
                context: at.context,
                number,
                template,
                arg,
            };
            read_group(alloc, &inner, depth - 1, taker, store, nodes, told)
        }
        Kind::Unknown => unreachable!(),
    }
}

/// Reads a group of the line of a setting, in whose members groups lie at most `depth` deep.
#[cycle(values)]
#[tactic(none)]
pub(crate) fn read_group<S: Source>(
    alloc: Global,
    at: &Setting<'_>,
    depth: u32,
    taker: &mut Taker<'_, S>,
    store: &mut Store,
    nodes: &mut u32,
    told: &mut Vec<Entry>,
) -> Result<(), ValueFault>
    requires setting { IsSetting at.now }
    requires ready { IsReady (stand taker.old nodes.old store.old told.old.items) (3 * depth + 3) }
    ensures trees { store.new.trees ≡ store.old.trees }
    ensures answers { Answers S.left S.still S.read_faults (context_in at.now).order (GroupShape at.now depth)
        (GroupStops at.now depth) kept.told
        (stand taker.old nodes.old store.old told.old.items)
        (stand taker.new nodes.new store.new told.new.items) result }
    ensures counted { nodes.new ≤ most_nodes }
{
    match begin_group(taker, store, nodes) {
        Ok(()) => {}
        Err(fault) => return Err(fault),
    }
    let mut entries: Vec<Entry> = Vec::new(alloc);
    for of in at.schema.line_of(at.number) {
        match read_member(alloc, at, of, depth, taker, store, nodes, &mut entries) {
            Ok(()) => {}
            Err(fault) => return Err(fault),
        }
    }
    store.close();
    match keeping::tell_group(told, &entries) {
        Ok(()) => Ok(()),
        Err(NoMemory) => Err(ValueFault::NoMemory),
    }
}

/// Reads the next member of the group that is open, behind the members that are kept, or leaves it out.
#[cycle(values)]
#[tactic(none)]
pub(crate) fn read_member<S: Source>(
    alloc: Global,
    at: &Setting<'_>,
    of: &Field,
    depth: u32,
    taker: &mut Taker<'_, S>,
    store: &mut Store,
    nodes: &mut u32,
    told: &mut Vec<Entry>,
) -> Result<(), ValueFault>
    requires setting { IsSetting at.now }
    requires field { IsField at.now (field of.now) }
    requires ready { IsReady (stand taker.old nodes.old store.old told.old.items) (3 * depth + 2) }
    requires group { IsSomeAnd store.old.building (λ b. TakesAbsent b.levels) }
    ensures trees { store.new.trees ≡ store.old.trees }
    ensures answers { (held : Members) → Tells at.now told.old.items held
        → MemberAnswers S.left S.still S.read_faults at.now depth (earlier at.now held) (field of.now)
        (stand taker.old nodes.old store.old told.old.items)
        (stand taker.new nodes.new store.new told.new.items) result }
    ensures counted { nodes.new ≤ most_nodes }
{
    if !scopes::is_present(at, told, of) {
        return leave_out(taker, store, nodes, told);
    }
    read_value(alloc, at, of, depth, taker, store, nodes, told)
}

/// Reads the value of a field that is present.
#[cycle(values)]
#[tactic(none)]
fn read_value<S: Source>(
    alloc: Global,
    at: &Setting<'_>,
    of: &Field,
    depth: u32,
    taker: &mut Taker<'_, S>,
    store: &mut Store,
    nodes: &mut u32,
    told: &mut Vec<Entry>,
) -> Result<(), ValueFault>
    requires setting { IsSetting at.now }
    requires field { IsField at.now (field of.now) }
    requires ready { IsReady (stand taker.old nodes.old store.old told.old.items) (3 * depth + 2) }
    ensures trees { store.new.trees ≡ store.old.trees }
    ensures answers { (held : Members) → Tells at.now told.old.items held
        → Answers S.left S.still S.read_faults (context_in at.now).order
        (ValueShape at.now depth (earlier at.now held) (field of.now))
        (ValueStops at.now depth (earlier at.now held) (field of.now))
        (member_told (asks at.now.schema.now at.now.number (field of.now)))
        (stand taker.old nodes.old store.old told.old.items)
        (stand taker.new nodes.new store.new told.new.items) result }
    ensures counted { nodes.new ≤ most_nodes }
{
    let (kind, size) = scopes::form_of(at, told, of);
    match size {
        Size::One => read_one(alloc, at, kind, depth, taker, store, nodes, told),
        Size::Array { count, run } => {
            let asked = scopes::asks_items(at, of);
            read_array(
                alloc, at, kind, count, run, asked, depth, taker, store, nodes, told,
            )
        }
        Size::Rows { count, run } => {
            let asked = scopes::asks_items(at, of);
            read_rows(
                alloc, at, of, kind, count, run, asked, depth, taker, store, nodes, told,
            )
        }
    }
}

/// Reads a row of rows, of which each is as long as the `width` of the field says.
#[cycle(values)]
#[tactic(none)]
fn read_rows<S: Source>(
    alloc: Global,
    at: &Setting<'_>,
    of: &Field,
    kind: Kind,
    count: u64,
    run: bool,
    asked: bool,
    depth: u32,
    taker: &mut Taker<'_, S>,
    store: &mut Store,
    nodes: &mut u32,
    told: &mut Vec<Entry>,
) -> Result<(), ValueFault>
    requires setting { IsSetting at.now }
    requires field { IsField at.now (field of.now) }
    requires known { IsKnown at.now.schema.now kind }
    requires ready { IsReady (stand taker.old nodes.old store.old told.old.items) (3 * depth + 2) }
    ensures trees { store.new.trees ≡ store.old.trees }
    ensures answers { (held : Members) → Tells at.now told.old.items held
        → Answers S.left S.still S.read_faults (context_in at.now).order
        (IsForm (Shape at.now.schema.now (context_in at.now) depth)
        (Row count (λ i. row_of run (kind_of at.now.schema.now kind)
        (width_of (width_at at.now.schema.now (context_in at.now) (earlier at.now held) at.now.arg)
        (field of.now).width i))))
        (FormFails (context_in at.now).order (Shape at.now.schema.now (context_in at.now) depth)
        (Fails at.now.schema.now (context_in at.now) depth)
        (Row count (λ i. row_of run (kind_of at.now.schema.now kind)
        (width_of (width_at at.now.schema.now (context_in at.now) (earlier at.now held) at.now.arg)
        (field of.now).width i))))
        (member_told asked) (stand taker.old nodes.old store.old told.old.items)
        (stand taker.new nodes.new store.new told.new.items) result }
    ensures counted { nodes.new ≤ most_nodes }
{
    let end = told.len();
    match begin_row(taker, store, nodes, told) {
        Ok(()) => {}
        Err(fault) => return Err(fault),
    }
    for row in 0..count {
        let item = told.len();
        let width = scopes::width_at(at, &told[..end], of, row);
        match read_array(
            alloc, at, kind, width, run, false, depth, taker, store, nodes, told,
        ) {
            Ok(()) => {}
            Err(fault) => return Err(fault),
        }
        settle_item(asked, item, told);
    }
    store.close();
    end_items(asked, end, told);
    Ok(())
}

/// Reads a run of so many bytes, or a row of so many values of a kind.
#[cycle(values)]
#[tactic(none)]
fn read_array<S: Source>(
    alloc: Global,
    at: &Setting<'_>,
    of: Kind,
    count: u64,
    run: bool,
    asked: bool,
    depth: u32,
    taker: &mut Taker<'_, S>,
    store: &mut Store,
    nodes: &mut u32,
    told: &mut Vec<Entry>,
) -> Result<(), ValueFault>
    requires setting { IsSetting at.now }
    requires known { IsKnown at.now.schema.now of }
    requires ready { IsReady (stand taker.old nodes.old store.old told.old.items) (3 * depth + 1) }
    ensures trees { store.new.trees ≡ store.old.trees }
    ensures answers { Answers S.left S.still S.read_faults (context_in at.now).order
        (IsForm (Shape at.now.schema.now (context_in at.now) depth) (row_of run (kind_of at.now.schema.now of) count))
        (FormFails (context_in at.now).order (Shape at.now.schema.now (context_in at.now) depth)
        (Fails at.now.schema.now (context_in at.now) depth) (row_of run (kind_of at.now.schema.now of) count))
        (member_told asked) (stand taker.old nodes.old store.old told.old.items)
        (stand taker.new nodes.new store.new told.new.items) result }
    ensures counted { nodes.new ≤ most_nodes }
{
    if run {
        return read_run(
            at.context.context.order,
            asked,
            count,
            taker,
            store,
            nodes,
            told,
        );
    }
    read_row(
        alloc, at, of, count, asked, depth, taker, store, nodes, told,
    )
}

/// Reads a row of so many values of a kind.
#[cycle(values)]
#[tactic(none)]
fn read_row<S: Source>(
    alloc: Global,
    at: &Setting<'_>,
    of: Kind,
    count: u64,
    asked: bool,
    depth: u32,
    taker: &mut Taker<'_, S>,
    store: &mut Store,
    nodes: &mut u32,
    told: &mut Vec<Entry>,
) -> Result<(), ValueFault>
    requires setting { IsSetting at.now }
    requires known { IsKnown at.now.schema.now of }
    requires ready { IsReady (stand taker.old nodes.old store.old told.old.items) (3 * depth + 1) }
    ensures trees { store.new.trees ≡ store.old.trees }
    ensures answers { Answers S.left S.still S.read_faults (context_in at.now).order
        (IsForm (Shape at.now.schema.now (context_in at.now) depth) (row_of false (kind_of at.now.schema.now of) count))
        (FormFails (context_in at.now).order (Shape at.now.schema.now (context_in at.now) depth)
        (Fails at.now.schema.now (context_in at.now) depth) (row_of false (kind_of at.now.schema.now of) count))
        (member_told asked) (stand taker.old nodes.old store.old told.old.items)
        (stand taker.new nodes.new store.new told.new.items) result }
    ensures counted { nodes.new ≤ most_nodes }
{
    let start = told.len();
    match begin_row(taker, store, nodes, told) {
        Ok(()) => {}
        Err(fault) => return Err(fault),
    }
    for _item in 0..count {
        let item = told.len();
        match read_one(alloc, at, of, depth, taker, store, nodes, told) {
            Ok(()) => {}
            Err(fault) => return Err(fault),
        }
        settle_item(asked, item, told);
    }
    store.close();
    end_items(asked, start, told);
    Ok(())
}
