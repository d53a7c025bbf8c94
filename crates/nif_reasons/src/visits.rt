//! An order of types in which each comes soon after its parent.
ghost use Rattle.std.specs.Prelude.{◌≡◌, ◌+◌, ◌<◌, ◌∷◌, ◌++◌, [], length, None, IfOk, OnOk};
ghost use Rattle.nif_reasons.specs.Visits.{AreVisits, AreBelow, AreChildren, AreParted};

use nif_base::NoMemory;
use nif_schema::Schema;
use std::alloc::Global;

/// The declarations without a parent, and the children of each declaration.
#[derive(Drop)]
pub struct Children {
    pub roots: Vec<u32>,
    pub below: Vec<Vec<u32>>,
}

fn push(numbers: &mut Vec<u32>, number: u32) -> Result<(), NoMemory>
    ensures { OnOk result (numbers.new.items ≡ numbers.old.items ++ number ∷ []) }
{
    match numbers.push(number) {
        Ok(()) => Ok(()),
        Err(_) => Err(NoMemory),
    }
}

fn no_children(alloc: Global, schema: &Schema) -> Result<Children, NoMemory>
    ensures { IfOk result (AreParted schema.now 0) }
{
    let mut below = Vec::new(alloc);
    for _number in 0..schema.count() {
        let Ok(()) = below.push(Vec::new(alloc)) else {
            return Err(NoMemory);
        };
    }
    Ok(Children {
        roots: Vec::new(alloc),
        below,
    })
}

/// Puts a declaration among the children of its parent, or among those that have none.
fn add_child(schema: &Schema, children: &mut Children, number: u32) -> Result<(), NoMemory>
    requires within { number < length schema.now }
    requires before { AreParted schema.now number children.old }
    ensures { OnOk result (AreParted schema.now (number + 1) children.new) }
{
    match schema.parent(number) {
        Some(parent) => push(&mut children.below[parent as usize], number),
        None => push(&mut children.roots, number),
    }
}

fn add_children(schema: &Schema, children: &mut Children) -> Result<(), NoMemory>
    requires { AreParted schema.now 0 children.old }
    ensures { OnOk result (AreParted schema.now (length schema.now) children.new) }
{
    for number in 0..schema.count() {
        match add_child(schema, children, number) {
            Ok(()) => {}
            Err(fault) => return Err(fault),
        }
    }
    Ok(())
}

/// The order in which each declaration is followed by its children, each with all below it; it begins with those that
/// wait, the last first.
fn order_of(
    alloc: Global,
    schema: &Schema,
    waiting: &mut Vec<u32>,
    below: &[Vec<u32>],
) -> Result<Vec<u32>, NoMemory>
    requires roots { AreBelow schema.now None (length schema.now) waiting.old.items }
    requires below { AreChildren schema.now (length schema.now) below.now }
    ensures { IfOk result (λ order. AreVisits schema.now order.items) }
{
    let mut order = Vec::new(alloc);
    'down: while let Some(number) = waiting.pop() {
        let Ok(()) = order.push(number) else {
            return Err(NoMemory);
        };
        let Ok(()) = waiting.extend_from_slice(&below[number as usize]) else {
            return Err(NoMemory);
        };
    }
    Ok(order)
}

/// The declarations whose walk of parents ends, each once: one that inherits from another comes behind it, with none
/// in between that doesn't inherit from the other, too. It takes time linear in declarations.
pub fn visits(alloc: Global, schema: &Schema) -> Result<Vec<u32>, NoMemory>
    ensures { IfOk result (λ order. AreVisits schema.now order.items) }
{
    let mut children = match no_children(alloc, schema) {
        Ok(children) => children,
        Err(fault) => return Err(fault),
    };
    match add_children(schema, &mut children) {
        Ok(()) => order_of(
            alloc,
            schema,
            &mut children.roots,
            children.below.as_slice(),
        ),
        Err(fault) => Err(fault),
    }
}
