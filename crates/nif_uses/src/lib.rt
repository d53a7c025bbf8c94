//! Which structs are generic, and which declarations lead to some of them by a walk of uses. It stands on
//! `nif_schema`, and promises that both are exactly as defined there, in time linear in declarations and fields.
#![tactic(auto)]

mod names;
mod spread;
mod templates;
mod users;

pub use names::named;
pub use spread::reaching;
pub use templates::{generic_structs, is_own_template};
