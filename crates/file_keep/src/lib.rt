//! The stable storage of a node in a file, as a keep of `synod`, over the trees of the kit's
//! SQLite.
//!
//! Three trees say the kept part of a node and the number of its changes (`specs/Rows`): `accepted`
//! has the ballot of each accepted entry by slot, `texts` its value by slot, and `node` one row
//! with the promise, the round and the number of changes. A *content* is what they say. A change is
//! one transaction.
//!
//! Reading order: `value_columns`, `rows`, `tables`, `reading`, `file_keep`, `witness`,
//! `node_keep`, `marks`.
#![tactic(auto)]

mod file_keep;
mod marks;
mod node_keep;
mod reading;
mod rows;
mod tables;
mod value_columns;
mod witness;

pub use file_keep::FileKeep;
pub use marks::{has_tables, mark_store};
pub use node_keep::{NodeKeep, Opener};
pub use rows::{ACCEPTED, NODE, TEXTS, push_number};
pub use value_columns::ValueColumns;
pub use witness::{Witness, WitnessedKeep};
