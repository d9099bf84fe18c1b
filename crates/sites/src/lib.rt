//! Writes the files of a site: a page for each assertion of a library, an index of them, and a
//! style sheet, each file completely or not at all.
//!
//! Reading order: `folder` (the trait of a folder that files are written into), `memory_folder` (in
//! memory), `system_folder` (of the file system); `citations` (of one proof), `collector`
//! (positions, each once), `references` (the axioms that each theorem rests on, and the theorems
//! that cite each statement, for all statements in one pass); `assertion_page` (one page),
//! `progress` (prints how many pages are written), `site` (`write_site`).
#![tactic(auto)]

mod assertion_page;
mod citations;
mod collector;
mod folder;
mod memory_folder;
mod progress;
mod references;
mod site;
mod system_folder;

pub use folder::{Folder, FolderFault};
pub use memory_folder::{MemoryFolder, WrittenFile};
pub use references::{CrossReferences, cross_references};
pub use site::{SiteFault, SiteSources, write_site};
pub use system_folder::SystemFolder;
