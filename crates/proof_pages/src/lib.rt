//! Writes proofs and statements for readers: the steps as lines of text, as a graph in the DOT
//! language of Graphviz, and as an HTML page, alone or as part of a site; a statement as a block of
//! lines (its line and column in the text, its description, its frame, and the statement itself).
//!
//! Each label, symbol and description of a database is escaped in a page, by `push_html` of `text`,
//! and in a graph, by its `push_quoted`; a line of text has it as it is. A file name in a link
//! needs no escape: `push_file_name` makes it from the label.
//!
//! Reading order: `step_lines`, `graph`, `writing`; `typecodes`, `css_classes`, `notation`, `rows`;
//! `contents`, `page_values`, `style`, `label_pages`, `neighbours`, `opening`, `sections`,
//! `partition`, `frame_part`, `proof_part`, `page`; `block_input`, `statement_line`,
//! `frame_lines`, `wrapping` (a description in lines of at most 78 bytes), `block`.
#![tactic(auto)]

mod block;
mod block_input;
mod contents;
mod css_classes;
mod frame_lines;
mod frame_part;
mod graph;
mod label_pages;
mod neighbours;
mod notation;
mod opening;
mod page;
mod page_values;
mod partition;
mod proof_part;
mod rows;
mod sections;
mod statement_line;
mod step_lines;
mod style;
mod typecodes;
mod wrapping;
mod writing;

pub use block::push_block;
pub use block_input::BlockInput;
pub use contents::{PageContents, ProofSteps, RelatedItems};
pub use page::{write_page, write_site_page};
pub use style::style_sheet;
pub use typecodes::Typecodes;
pub use writing::{WriteFault, write_dot, write_step_lines};
