//! The users of each declaration.
ghost use Rattle.std.specs.Prelude.{◌≡◌, ℕ, ◌<◌, ◌+◌, [], ◌∷◌, ◌++◌, All, length, vec_len, slice_get, Some, IfOk, OnOk, option_to_list};
ghost use Rattle.nif_schema.specs.Declaration.{field};
ghost use Rattle.nif_schema.specs.Uses.{is_generic, uses, uses_of_field};
ghost use Rattle.nif_schema.specs.Schema.{parent};
ghost use Rattle.nif_uses.specs.Marks.{unmarked};
ghost use Rattle.nif_uses.specs.Users.{pairs, uses_by, uses_below, IsLinked, IsMarking, AreUsersMarked};

use crate::names::{named, named_template};
use nif_base::NoMemory;
use nif_schema::{Field, Schema};
use std::alloc::Global;

/// A use of one declaration by another, and the place of the use before it of the same declaration.
#[derive(Drop)]
struct Link {
    used: u32,
    user: u32,
    before: Option<usize>,
}

/// Uses in the order in which they were met, and the place of the latest use of each declaration.
#[derive(Drop)]
pub(crate) struct Users {
    latest: Vec<Option<usize>>,
    links: Vec<Link>,
}

impl Users {
    /// No uses of so many declarations.
    fn none(alloc: Global, count: u32) -> Result<Users, NoMemory>
        ensures count { IfOk result (λ users. length users.latest.items ≡ count) }
        ensures linked { IfOk result (λ users. IsLinked users.latest.items users.links.items) }
        ensures links { IfOk result (λ users. users.links.items ≡ []) }
    {
        let mut latest = Vec::new(alloc);
        for _number in 0..count {
            let Ok(()) = latest.push(None) else {
                return Err(NoMemory);
            };
        }
        Ok(Users {
            latest,
            links: Vec::new(alloc),
        })
    }

    /// Adds a use.
    fn add(&mut self, used: u32, user: u32) -> Result<(), NoMemory>
        requires within { used < length self.old.latest.items }
        requires linked { IsLinked self.old.latest.items self.old.links.items }
        ensures count { length self.new.latest.items ≡ length self.old.latest.items }
        ensures linked { OnOk result (IsLinked self.new.latest.items self.new.links.items) }
        ensures links { OnOk result (pairs self.new.links.items ≡ pairs self.old.links.items ++ (used, user) ∷ []) }
    {
        let place = self.links.len();
        let before = self.latest[used as usize];
        let Ok(()) = self.links.push(Link { used, user, before }) else {
            return Err(NoMemory);
        };
        self.latest[used as usize] = Some(place);
        Ok(())
    }

    /// Adds what a field of a declaration uses.
    fn add_field(
        &mut self,
        schema: &Schema,
        generic: &[bool],
        user: u32,
        of: &Field,
    ) -> Result<(), NoMemory>
        requires count { length self.old.latest.items ≡ length schema.now }
        requires linked { IsLinked self.old.latest.items self.old.links.items }
        requires generic_count { length generic.now ≡ length schema.now }
        requires generic { (number : ℕ) → number < length schema.now
            → slice_get generic.now number ≡ Some (is_generic schema.now number) }
        ensures count { length self.new.latest.items ≡ length self.old.latest.items }
        ensures linked { OnOk result (IsLinked self.new.latest.items self.new.links.items) }
        ensures links { OnOk result (pairs self.new.links.items
            ≡ pairs self.old.links.items ++ uses_by user (uses_of_field schema.now (field of.now))) }
    {
        let Some(kind) = named(schema, &of.kind) else {
            return Ok(());
        };
        self.add(kind, user)?;
        if !generic[kind as usize] {
            return Ok(());
        }
        match named_template(schema, of) {
            Some(template) => {
                self.add(template, user)?;
                Ok(())
            }
            None => Ok(()),
        }
    }

    /// Adds what a declaration uses.
    fn add_declaration(
        &mut self,
        schema: &Schema,
        generic: &[bool],
        user: u32,
    ) -> Result<(), NoMemory>
        requires user { user < length schema.now }
        requires count { length self.old.latest.items ≡ length schema.now }
        requires linked { IsLinked self.old.latest.items self.old.links.items }
        requires generic_count { length generic.now ≡ length schema.now }
        requires generic { (number : ℕ) → number < length schema.now
            → slice_get generic.now number ≡ Some (is_generic schema.now number) }
        ensures count { length self.new.latest.items ≡ length self.old.latest.items }
        ensures linked { OnOk result (IsLinked self.new.latest.items self.new.links.items) }
        ensures links { OnOk result (pairs self.new.links.items
            ≡ pairs self.old.links.items ++ uses_by user (uses schema.now user)) }
    {
        self.add_parent(schema, user)?;
        let fields = &schema.decl(user).fields;
        for place in 0..fields.len() {
            match self.add_field(schema, generic, user, fields.get(place)) {
                Ok(()) => (),
                Err(fault) => return Err(fault),
            }
        }
        Ok(())
    }

    /// Adds the use of the parent of a declaration.
    fn add_parent(&mut self, schema: &Schema, user: u32) -> Result<(), NoMemory>
        requires user { user < length schema.now }
        requires count { length self.old.latest.items ≡ length schema.now }
        requires linked { IsLinked self.old.latest.items self.old.links.items }
        ensures count { length self.new.latest.items ≡ length self.old.latest.items }
        ensures linked { OnOk result (IsLinked self.new.latest.items self.new.links.items) }
        ensures links { OnOk result (pairs self.new.links.items
            ≡ pairs self.old.links.items ++ uses_by user (option_to_list (parent schema.now user))) }
    {
        match schema.parent(user) {
            Some(parent) => self.add(parent, user),
            None => Ok(()),
        }
    }

    /// All uses of a schema, whose generic structs are marked. It takes time linear in declarations and fields.
    pub(crate) fn of(alloc: Global, schema: &Schema, generic: &[bool]) -> Result<Users, NoMemory>
        requires generic_count { length generic.now ≡ length schema.now }
        requires generic { (number : ℕ) → number < length schema.now
            → slice_get generic.now number ≡ Some (is_generic schema.now number) }
        ensures count { IfOk result (λ users. length users.latest.items ≡ length schema.now) }
        ensures linked { IfOk result (λ users. IsLinked users.latest.items users.links.items) }
        ensures links { IfOk result (λ users. pairs users.links.items ≡ uses_below schema.now (length schema.now)) }
    {
        let mut users = match Users::none(alloc, schema.count()) {
            Ok(users) => users,
            Err(fault) => return Err(fault),
        };
        for user in 0..schema.count() {
            match users.add_declaration(schema, generic, user) {
                Ok(()) => (),
                Err(fault) => return Err(fault),
            }
        }
        Ok(users)
    }

    /// Marks the users of a declaration, and puts those that were not marked among those that wait.
    pub(crate) fn mark(
        &self,
        used: u32,
        marks: &mut Vec<bool>,
        waiting: &mut Vec<u32>,
    ) -> Result<(), NoMemory>
        requires within { used < length self.now.latest.items }
        requires linked { IsLinked self.now.latest.items self.now.links.items }
        requires users { All (λ l. l.user < length marks.old.items) self.now.links.items }
        ensures marked { OnOk result (AreUsersMarked self.now.links.items used marks.old.items waiting.old.items marks.new.items waiting.new.items) }
        ensures count { length marks.new.items ≡ length marks.old.items }
        ensures fewer { OnOk result (unmarked marks.new.items + length waiting.new.items
            ≡ unmarked marks.old.items + length waiting.old.items) }
    {
        let mut at = self.latest[used as usize];
        while let Some(place) = at {
            let link = &self.links[place];
            match mark_one(link.user, marks, waiting) {
                Ok(()) => (),
                Err(fault) => return Err(fault),
            }
            at = link.before;
        }
        Ok(())
    }
}

/// Marks a declaration, and puts it among those that wait, unless it was marked before.
fn mark_one(number: u32, marks: &mut Vec<bool>, waiting: &mut Vec<u32>) -> Result<(), NoMemory>
    requires { number < length marks.old.items }
    ensures marked { OnOk result
        (IsMarking number marks.old.items waiting.old.items marks.new.items waiting.new.items) }
    ensures count { length marks.new.items ≡ length marks.old.items }
{
    if marks[number as usize] {
        return Ok(());
    }
    marks[number as usize] = true;
    match waiting.push(number) {
        Ok(()) => Ok(()),
        Err(_) => Err(NoMemory),
    }
}
