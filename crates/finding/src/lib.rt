//! Finds assertions by a pattern of symbols, by words of their descriptions or by a pattern of
//! their labels, and writes each as a line.
//!
//! `found_lines` returns a line for exactly the assertions that match, in order. A description is
//! the comment before an assertion.
//!
//! Reading order: `words` (the words of a text), `part` and `pattern` (a pattern, parsed from
//! words), `matching` (whether an expression has a run that matches a pattern), `search_words`
//! (words in a description), `label_pattern` (a pattern of labels); `query` (the pattern or words,
//! and where they are searched for), `declared_symbols` (whether a database has the symbols of a
//! pattern), `expressions` (a pattern in an expression), `hypotheses` (a pattern in a mandatory
//! `$e`), `essential_lines` (an assertion with its `$e`), `lines` (`found_lines`).
#![tactic(auto)]

mod declared_symbols;
mod essential_lines;
mod expressions;
mod hypotheses;
mod label_pattern;
mod lines;
mod matching;
mod part;
mod pattern;
mod query;
mod search_words;
mod words;

pub use label_pattern::LabelPattern;
pub use lines::found_lines;
pub use pattern::{Pattern, PatternFault};
pub use query::{SearchQuery, SearchedDatabase};
pub use search_words::SearchWords;
