//! What `serve --store` asks of a folder in which nodes keep their stable storage, and what such a
//! folder keeps, as lines.
#![tactic(auto)]

mod found_file;
mod keep_folder;
mod stored_lines;

pub use found_file::may_vote;
pub use keep_folder::{FolderRefusal, FolderTerms, KeepFolder, KeptNode};
pub use stored_lines::{push_damaged_line, push_damages, push_kept_line, push_stored};
