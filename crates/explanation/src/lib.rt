//! Explains in words why a database is refused, with the place in the text.
//!
//! `explain_refusal` returns the lines of an explanation, at most 65,536 bytes; it is called only
//! after a refusal and parses the text again. `explain_after` does the same for a text that follows
//! the statements of a library. `explain_unproved` explains one `$p` of statements that the caller
//! has parsed, and `explain_left_out`, `explain_misread` and so on another fault of a text of which
//! the rest is judged. The explanation relies on the clauses of `places`, `rule_violation` and
//! `explain`; its messages have no contract.
//!
//! Reading order: `explained_refusal`, `written_lines`, `text_fault`, `shape_fault`, `broken_rule`
//! with `statement_symbols` and `left_out`; `limited_library`; `proof` with `text_tokens`,
//! `theorem`, `item_spots`, `step_fault`, `expressions`, `code_break`, `missing_pairs` and `stack`.
#![tactic(auto)]

mod broken_rule;
mod code_break;
mod explained_refusal;
mod expressions;
mod item_spots;
mod left_out;
mod limited_library;
mod missing_pairs;
mod proof;
mod shape_fault;
mod stack;
mod statement_symbols;
mod step_fault;
mod text_fault;
mod text_tokens;
mod theorem;
mod written_lines;

pub use explained_refusal::{
    DatabaseFault, explain_after, explain_misread, explain_refusal, explain_refused_byte,
    explain_unproved,
};
pub use left_out::{explain_left_out, explain_open_end};
pub use stack::items_so_far;
pub use text_tokens::TextTokens;
pub use written_lines::MAX_BYTES;
