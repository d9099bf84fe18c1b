//! Gives each name a number, its code: `NameTable` is a list of distinct names, and the code of a
//! name is its index in it.
//!
//! `NameTable::add` gives a name its code, `find` returns the code of a name, and `name` the name
//! of a code. Read `names` first. The module `name_list` stores the bytes of names, `table` is the
//! hash table that finds a code by the key of its name, `keys` computes keys, `name_keys` stores
//! them by code, and `overflow` has the names that found no slot in the table.
#![tactic(auto)]

mod keys;
mod name_keys;
mod name_list;
mod names;
mod overflow;
mod table;

pub use names::NameTable;
