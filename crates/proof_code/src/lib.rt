//! From the tokens of a Metamath proof to its items: citations, recalls and marks.
//!
//! `normal` reads a normal proof, `packed` a compressed one. Each returns the items that the tokens
//! write; if they write none, it returns `Unfinished` if a token has the byte `?`, else
//! `Malformed`.
//! `Items` stores a table of labels and a number for each item; contracts see the list of items.
//! `Reader::read` reads one compressed proof after another into one buffer, without the labels of
//! the mandatory hypotheses, which the caller has.
//!
//! Reading order: `item`, `items`, `fault`, `normal_proof`; `listing` (counts the labels),
//! `byte_step` (a table for `letter_numbers`), `letter_numbers`, `reader`, `compressed_proof`;
//! `laws`.
#![tactic(auto)]

mod byte_step;
mod compressed_proof;
mod fault;
mod item;
mod items;
mod laws;
mod letter_numbers;
mod listing;
mod normal_proof;
mod reader;

pub use compressed_proof::{is_compressed, label_set, packed};
pub use fault::{CodeFault, is_unfinished, items_or_none};
pub use item::Item;
pub use items::{ItemParts, Items};
pub use laws::{numbers_by_formula, one_answer, one_list_of_items};
pub use normal_proof::normal;
pub use reader::{Heading, MAX_LABELS_OR_LETTERS, Reader};
