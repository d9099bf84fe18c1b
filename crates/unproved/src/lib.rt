//! Finds each `$p` that is not proved, and makes a library in which these are `$a`.
//!
//! The main contract: `LegalDatabase::unproved` returns the positions of exactly the `$p`
//! that are not proved, in order, with any number of workers. `keep_legal` leaves out the
//! statements that break a rule.
//!
//! Reading order: `legal_database` (statements with their frames), `statement_range` (consecutive
//! statements as jobs of a pool), `search` (all `$p` that are not proved), `legal_part`, `laws`.
#![tactic(auto)]

mod laws;
mod legal_database;
mod legal_part;
mod search;
mod statement_range;

pub use laws::assumed_statements_are_good;
pub use legal_database::LegalDatabase;
pub use legal_part::{LeftOut, LegalPart, close_blocks, keep_legal, text_position};
