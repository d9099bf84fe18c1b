//! Writes the descriptions of statements as HTML, finds the headings that divide a database into
//! parts, and makes the index of a site: pages that list all assertions in order, below these
//! headings, and pages that list the parts.
//!
//! Reading order: `page_start`, `page_link` (a label as a link to its page); `byte_roles`, `word`,
//! `description` (a description with its links, its code and its emphasis); `headings` (the heading
//! of one comment), `items` (all headings and statements of a text, in order); `paged_rows` (rows
//! that are divided into pages), `rows` (the row of an assertion, of a heading), `index_draft` (the
//! rows of a database), `family` (the two families of pages and their file names), `page`, `pages`.
#![tactic(auto)]

mod byte_roles;
mod description;
mod family;
mod headings;
mod index_draft;
mod items;
mod page;
mod page_link;
mod page_start;
mod paged_rows;
mod pages;
mod rows;
mod word;

pub use description::{LabelPages, push_description};
pub use headings::{Heading, heading_of};
pub use index_draft::IndexSources;
pub use items::{IndexItem, index_items};
pub use page_link::push_page_link;
pub use page_start::push_page_start;
pub use pages::{IndexPage, index_pages};
