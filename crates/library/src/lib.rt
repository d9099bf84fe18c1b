//! One replica of the library: applies entries of the log, and keeps their verdicts and the
//! statements that they validly add.
//!
//! The main contract, which `world` uses: applying an entry changes the replica as `Applies` of
//! `specs/LibraryOf` defines, and returns the verdict; if an allocation fails, nothing is decided.
//!
//! Reading order: `submission`, `charter`, `entry` (the entries of a log), `verdict`; `library`,
//! `decided`; `entry_text` (reads a text under the charter in force), `checked_database` (all or
//! nothing), `adding` (the rules), `proof_jobs` (the first proof that is not right); `queries`
//! (questions on a label), `axioms_used`, `cited_by`; `listed` (the assertions); `laws`. The README
//! explains the words: charter, good, right, heavy, gate.
#![tactic(auto)]

mod adding;
mod axioms_used;
mod charter;
mod checked_database;
mod cited_by;
mod decided;
mod entry;
mod entry_text;
mod laws;
mod library;
mod listed;
mod proof_jobs;
mod queries;
mod submission;
mod verdict;

pub use charter::{MAX_NAMES, Names};
pub use entry::Entry;
pub use laws::{
    libraries_are_good, libraries_grow, limit_keeps_statements, no_limit, one_library, one_verdict,
    plain_without_charters, too_costly_if_past, works_add_up,
};
pub use library::Library;
pub use listed::Listed;
pub use queries::AskFault;
pub use submission::{MAX_BYTES, Submission};
pub use verdict::{Cause, Verdict};
