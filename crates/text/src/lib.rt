//! Text that the program reads and writes beside databases: decimal numbers, words, escapes, and
//! the names of files.
//!
//! Reading order: `number`, `run`, `escapes`; `file_name` with `specs/FileNames`, `laws`.
#![tactic(auto)]

mod escapes;
mod file_name;
mod laws;
mod number;
mod run;

pub use escapes::{push_html, push_quoted};
pub use file_name::{INDEX_FILE, STYLE_FILE, push_file_name};
pub use laws::{names_differ, names_stay_in_a_folder};
pub use number::{parse_number, push_number};
pub use run::next_run;
