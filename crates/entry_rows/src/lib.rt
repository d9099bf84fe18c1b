//! An entry of the log as columns of a row, for the stable storage of a node in a file.
#![tactic(auto)]

mod entry_columns;

pub use entry_columns::EntryColumns;
