//! Why a path of an expression closes a type, behind the fields of a line. It stands on `nif_schema`, `nif_uses`,
//! `nif_names` and `nif_sets`. It promises that the answer is exactly the reason by definition, by tables of names: one
//! of the fields of the line, to which a field is put and from which it is taken off exactly, and one of what is inside
//! each type. In the table of the line types are marked under a second name with where it stops, and lose the mark when
//! they are taken off: so each is looked at once for each such name. Of runs of these types it keeps sets, for paths of
//! three to 32 names, while there is room: so in each set a name is looked up once.
#![tactic(auto)]

mod lines;
mod pairs;
mod paths;
mod runs;
mod shapes;
mod tables;
mod types;

pub use lines::Line;
pub use paths::path_reason;
pub use shapes::storage_width;
pub use tables::inside_tables;
