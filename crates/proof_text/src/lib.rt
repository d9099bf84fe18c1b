//! A proof as text: a `$p` with its proof in normal or in compressed form.
//!
//! `proof_text` returns the statement, wrapped into lines of at most 79 bytes. Its proof is written
//! from the table of steps (`steps`): in normal form each step stands wherever it is taken, in
//! compressed form once, and its result is marked and recalled where it is taken again. No clause
//! says how it is written: the text is read back and verified, its steps are compared with those of
//! the table, and only a text that has passed is returned.
//!
//! Reading order: `form` (forms and faults), `request`, `statement`, `walk` (the order in which
//! steps are written), `labels`, `position_numbers`, `label_order` (the order of labels),
//! `compressed_code` (labels and letters), `lines` (wraps words), `writing` (the whole text);
//! `same_steps`, `spelled_steps`, `verification` and `text` (what is proved of it).
#![tactic(auto)]

mod compressed_code;
mod form;
mod label_order;
mod labels;
mod lines;
mod position_numbers;
mod request;
mod same_steps;
mod spelled_steps;
mod statement;
mod text;
mod verification;
mod walk;
mod writing;

pub use form::{TextFault, TextForm};
pub use request::TextRequest;
pub use text::proof_text;
