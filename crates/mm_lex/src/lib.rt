//! Splits a Metamath text into tokens, and stores lists of words.
//!
//! `tokens` returns the spans of a text's tokens, comments excluded. `next_token`, `symbols` and
//! `count_tokens` walk through a text without such a list; a fault in its comments is an error when
//! they reach it. `Word` stores a short word without an allocation, `Words` many in one buffer.
//!
//! Reading order: `span`, `fault`, `lanes`, `visible_run`, `comment`, `scan`; `word`, `words`,
//! `word_iter`; `walk`, `spaced_prefix`, `symbol_list`; `label`; `laws`.
#![tactic(auto)]

mod comment;
mod fault;
mod label;
mod lanes;
mod laws;
mod scan;
mod spaced_prefix;
mod span;
mod symbol_list;
mod visible_run;
mod walk;
mod word;
mod word_iter;
mod words;

pub use fault::LexFault;
pub use label::is_label;
pub use laws::{one_answer, one_split};
pub use scan::{first_bad_byte, tokens};
pub use span::Span;
pub use symbol_list::{is_symbol, symbols};
pub use walk::{count_tokens, next_token};
pub use word::Word;
pub use word_iter::WordIter;
pub use words::Words;
