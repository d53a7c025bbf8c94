//! Sets of types, and what a name means in all types of a set. It stands on `nif_base`, `nif_names` and `indexmap`.
//! It promises that a joined set has the types of its parts, that later sets change no earlier one, and that what it
//! tells of a name is so of all types of the set, by the tables of these types: whether one of them lacks the name, and
//! else whether all that it means are numbers, whether names may follow all of it, and the set of the types whose names
//! may follow; the same of a list of types, of which nothing is kept. What was answered of a set is kept and found in
//! logarithmic time, whatever the names, so each set is looked at once under each name, in time as it has parts: sets of
//! up to 64 types have these as their parts, and larger ones the sets that they were joined of. Its size is how much is
//! kept, and tells when to begin anew. To look at a set goes as deep as sets lie in it: by one more for each name that
//! was followed, and each join of joined sets, at most.
#![tactic(auto)]

pub mod distinct;
pub mod meanings;
pub mod sets;

pub use meanings::{Meaning, meaning_in};
pub use sets::{Inside, Sets, TypeSet};
