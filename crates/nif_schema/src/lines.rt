//! Walks over the fields of a declaration, those of its ancestors first.
ghost use Rattle.std.specs.Prelude.{◌≡◌, ℕ, ◌≤◌, ◌<◌, length, Some, IsSome, IfSome, Contains, take};
ghost use Rattle.std.specs.Iterator.{YieldsFirstBy, item_count};
ghost use Rattle.nif_schema.specs.Declaration.{field};
ghost use Rattle.nif_schema.specs.Schema.{ancestor, line, Ends};
ghost use Rattle.nif_schema.specs.Kept.{AreWaypoints};

use crate::fields::Field;
use crate::schemas::Schema;
use arrayvec::ArrayVec;
use std::marker::Model;

/// How many waypoints are kept; each halves what is left of a walk, so that there is always room.
const WAYPOINTS: usize = 32;

/// A declaration on a walk of parents, and how many steps it is above the one where the walk begins.
#[derive(Clone, Copy, Default)]
struct Waypoint {
    above: u32,
    number: u32,
}

/// An iterator over a line of fields.
#[derive(Drop)]
pub struct Line<'a> {
    schema: &'a Schema,
    own: u32,
    above: u32,
    number: u32,
    place: u32,
    waypoints: ArrayVec<Waypoint, WAYPOINTS>,
}

impl<'a> Model for Line<'a> {
    ghost use Rattle.std.specs.Prelude.{List};
    ghost use Rattle.std.specs.Coded.{coded_list};
    ghost use Rattle.nif_schema.specs.Declaration.{Field};
    ghost use Rattle.nif_schema.specs.Codes.{coded_field};

    ghost Value = { List Field };

    ghost coded = { coded_list coded_field };

    ghost use Rattle.nif_schema.specs.Kept.{left_of, IsOnWalk};

    ghost view = { λ l. left_of l.schema.now l.own l.above l.number l.place };

    ghost invariant = { λ l. IsOnWalk l.schema.now l.own l.above l.number l.waypoints.items };
}

impl<'a> Line<'a> {
    /// The line of a declaration. It goes up to the root, and so takes a step for each ancestor.
    pub(crate) fn new(schema: &'a Schema, own: u32) -> Line<'a>
        requires within { own < length schema.now }
        requires ends { Ends schema.now own }
        ensures { result ≡ line schema.now own }
    {
        let mut number = own;
        for above in 0..schema.count() {
            let Some(parent) = schema.parent(number) else {
                return Line {
                    schema,
                    own,
                    above,
                    number,
                    place: 0,
                    waypoints: ArrayVec::new(),
                };
            };
            number = parent;
        }
        unreachable!()
    }
}

impl<'a> Iterator for Line<'a> {
    type Item = &'a Field;

    ghost next_gives = { YieldsFirstBy (λ f. field f.now) (λ l. l) };

    ghost remaining = { item_count (λ l. l) };

    fn next(&mut self) -> Option<&'a Field> {
        let schema = self.schema;
        loop {
            let fields = &schema.decl(self.number).fields;
            if self.place < fields.len() {
                let field = fields.get(self.place);
                self.place += 1;
                return Some(field);
            }
            if self.above == 0 {
                return None;
            }
            self.above -= 1;
            self.number = climb(schema, self.own, self.above, &mut self.waypoints);
            self.place = 0;
        }
    }
}

/// The declaration that is `target` steps above `own`. It goes up from the nearest waypoint, and leaves waypoints at
/// half of what is left of the way, at half of what is left then, and so on.
fn climb(
    schema: &Schema,
    own: u32,
    target: u32,
    waypoints: &mut ArrayVec<Waypoint, WAYPOINTS>,
) -> u32
    requires within { own < length schema.now }
    requires reaches { IsSome (ancestor schema.now target own) }
    requires remembered { AreWaypoints schema.now own waypoints.old.items }
    ensures value { ancestor schema.now target own ≡ Some result }
    ensures remembered { AreWaypoints schema.now own waypoints.new.items }
{
    let mut at = nearest(waypoints, target).unwrap_or(Waypoint {
        above: 0,
        number: own,
    });
    while at.above < target {
        let far = target - at.above;
        let steps = far - far / 2;
        at = Waypoint {
            above: at.above + steps,
            number: go_up(schema, at.number, steps),
        };
        if !waypoints.is_full() {
            waypoints.push(at);
        }
    }
    at.number
}

/// The last waypoint that is at most `target` steps up; those behind it are dropped.
fn nearest(waypoints: &mut ArrayVec<Waypoint, WAYPOINTS>, target: u32) -> Option<Waypoint>
    ensures below { IfSome result (λ waypoint. waypoint.above ≤ target) }
    ensures known { IfSome result (Contains waypoints.old.items) }
    ensures kept { (n : ℕ) × (waypoints.new.items ≡ take n waypoints.old.items) }
{
    while let Some(waypoint) = waypoints.as_slice().last() {
        if waypoint.above <= target {
            return Some(*waypoint);
        }
        waypoints.pop();
    }
    None
}

/// The declaration that is so many steps above another.
fn go_up(schema: &Schema, number: u32, steps: u32) -> u32
    requires within { number < length schema.now }
    requires reaches { IsSome (ancestor schema.now steps number) }
    ensures value { ancestor schema.now steps number ≡ Some result }
    ensures within { result < length schema.now }
{
    let mut at = number;
    for _done in 0..steps {
        let Some(parent) = schema.parent(at) else {
            unreachable!();
        };
        at = parent;
    }
    at
}
