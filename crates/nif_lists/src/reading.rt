//! The lists of a header that was read.
ghost use Rattle.std.specs.Prelude.{◌≡◌, IfOk, IfSome, IsSomeAnd};
ghost use Rattle.nif_region.specs.Contents.{find};
ghost use Rattle.nif_schema.specs.Roles.{Roles};
ghost use Rattle.nif_file.specs.Files.{IsHeader, head_of, members_of};
ghost use Rattle.nif_value.specs.Trees.{IsLive};
ghost use Rattle.nif_lists.specs.Passing.{behind_step, members_ahead};
ghost use Rattle.nif_lists.specs.Lists.{ArePlaces, AreListsOf, IsNameOf, kept_of};

use crate::lists::Lists;
use crate::passing::{keep_one, read_run};
use crate::roles::role_at;
use nif_base::{NoMemory, Word};
use nif_encode::pass_one;
use nif_graph::RolePlaces;
use nif_schema::Schema;
use nif_value::{Step, Store, TreeId, Walk};
use std::alloc::Global;

/// How many members the group has that a walk meets next.
fn open_group(walk: &mut Walk<'_>) -> u32
    ensures ahead { walk.new.ahead ≡ behind_step walk.old.ahead }
    ensures members { result ≡ members_ahead walk.old.ahead }
{
    match walk.next() {
        Some(Step::Group { members }) => members,
        _ => 0,
    }
}

/// What the members of a group give to the lists, each by its place.
pub(crate) fn gather(
    alloc: Global,
    schema: &Schema,
    store: &Store,
    header: TreeId,
    places: &RolePlaces,
) -> Result<Lists, NoMemory>
    requires { IsLive store.now header.run.key }
    ensures { IfOk result (λ lists. IfSome (find store.now.trees header.run.key)
        (λ node. lists ≡ kept_of schema.now places.now node)) }
{
    let mut lists = Lists::new(alloc);
    let mut walk = store.walk(header);
    let members = open_group(&mut walk);
    for place in 0..members {
        match keep_one(alloc, &mut walk, schema, role_at(places, place), &mut lists) {
            Ok(()) => {}
            Err(NoMemory) => return Err(NoMemory),
        }
    }
    Ok(lists)
}

/// The lists of a header that was read, by the schema and the places of its members.
pub fn read_lists(
    alloc: Global,
    schema: &Schema,
    store: &Store,
    header: TreeId,
    places: &RolePlaces,
) -> Result<Lists, NoMemory>
    requires header { IsSomeAnd (find store.now.trees header.run.key) (IsHeader schema.now) }
    requires places { ArePlaces schema.now places.now }
    requires roles { Roles schema.now }
    ensures { IfOk result (λ lists. IfSome (find store.now.trees header.run.key)
        (λ node. AreListsOf schema.now (head_of schema.now (members_of node)) lists)) }
{
    // The contract of `count` says that the names of a schema are different, and its basics of their kinds.
    let _declarations = schema.count();
    gather(alloc, schema, store, header, places)
}

/// The name that an entry of the types of a header has.
pub fn type_name(
    alloc: Global,
    store: &Store,
    header: TreeId,
    places: &RolePlaces,
    entry: u32,
) -> Result<Word, NoMemory>
    requires { IsLive store.now header.run.key }
    ensures { IfOk result (λ word. IfSome (find store.now.trees header.run.key)
        (λ node. IsNameOf places.now entry node word)) }
{
    let mut walk = store.walk(header);
    let _group = walk.next();
    for _ in 0..places.types.unwrap_or(0) {
        pass_one(&mut walk);
    }
    let _row = walk.next();
    for _ in 0..entry {
        pass_one(&mut walk);
    }
    let _string = walk.next();
    let _length = walk.next();
    read_run(alloc, &mut walk)
}
