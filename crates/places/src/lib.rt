//! Finds lines, columns, tokens, comment faults and descriptions in a text.
//!
//! `line_and_column` returns the line and the column of an offset. `token_span` returns the span of
//! a token of a statement in a text that reads as statements, `statement_start_index` the index of
//! the first token of the statement that contains a token. `comment_fault_kind` returns the kind of
//! a comment fault. `descriptions` returns, for each statement, the span of the contents of the
//! comment that describes it, or `None`. `read_around_faults` reads the statements of a text around
//! what is no statement, and `readable_text` is a text without bytes that are not allowed.
//!
//! Reading order: `lines_and_columns`, `statement_tokens`, `comments`, `description`, `misread`,
//! `refused_bytes`.
#![tactic(auto)]

mod comments;
mod description;
mod lines_and_columns;
mod misread;
mod refused_bytes;
mod statement_tokens;

pub use comments::{CommentFaultKind, comment_fault_kind};
pub use description::descriptions;
pub use lines_and_columns::{LineAndColumn, line_and_column};
pub use misread::{Misread, PartialReading, read_around_faults};
pub use refused_bytes::{readable_text, refused_runs};
pub use statement_tokens::{statement_start_index, token_span, token_span_within};
