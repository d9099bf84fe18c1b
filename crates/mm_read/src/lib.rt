//! Reads the statements of a Metamath text, and writes them back as text.
//!
//! `Stmt` is a statement, of one of nine shapes. `read` returns the one list of statements that a
//! text reads as, or a `ReadFault`; `spell` writes statements back as a text, in the export form.
//! `specs/Reads` defines which statements a text reads as.
//!
//! Reading order: `stmt`, `fault`, `parse`, `statement`, `part`, `keyword`; `export`; `laws`.
#![tactic(auto)]

mod export;
mod fault;
mod keyword;
mod laws;
mod parse;
mod part;
mod statement;
mod stmt;

pub use export::{push_line, push_line_with_proof, spell};
pub use fault::ReadFault;
pub use laws::{
    export_reads, joined_reads, one_shape_fault, one_statement_list, statements_or_fault,
};
pub use parse::read;
pub use stmt::Stmt;
