//! The commands that ask about a database: from a question and an input to an answer and an exit
//! status.
//!
//! Everywhere `output` is the writer of the standard output, and `stderr` that of the standard
//! error. `rt` is the host's runtime, which gives memory, threads and waiting.
//!
//! Reading order: `fault` (why a command ends without its answer, and the line that says so),
//! `streams` (reading and printing), `named_text`; `databases` (a database that is read and
//! checked), `answers` (the answers of the commands that ask about a library), `proofs` (the steps
//! of a proof), `proof_texts` (a proof as text), `so_far` (its steps up to its first fault),
//! `searches` (searches for assertions), `shown` (the answers to `show`: statements as
//! blocks of lines), `works` (how much work a database is), `pages` (a site), `unproved_proofs`
//! (questions that are answered even if some `$p` are not proved, among them `check --all`, which
//! checks every `$p` by itself), `all_faults` (so too a text with other faults), `assumed`
//! (each `$p` that is not proved taken as a `$a`), `refused_texts` and `refused_questions` (why
//! there is no answer).
#![tactic(auto)]

mod all_faults;
mod answers;
mod assumed;
mod databases;
mod fault;
mod named_text;
mod pages;
mod proof_texts;
mod proofs;
mod refused_questions;
mod refused_texts;
mod searches;
mod shown;
mod so_far;
mod streams;
mod unproved_proofs;
mod works;

pub use answers::{derivation_lines, write_answer};
pub use databases::{answer_question, print_outline};
pub use fault::Fault;
pub use named_text::NamedText;
pub use pages::write_pages;
pub use refused_texts::fault_of;
pub use searches::pattern_lines;
pub use shown::library_block;
pub use streams::{print, read_at_most};
pub use works::print_work;
