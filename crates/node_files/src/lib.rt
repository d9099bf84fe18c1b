//! The folder of a store: the files in which the nodes of a library keep their stable storage.
//!
//! In the folder stand the file `library`, which says for which nodes it was made, and for node K
//! `node-K.db`, its log `node-K.db-wal`, and `node-K.seen`, its witness. `library` is written last,
//! once all nodes have their files, so a folder without it has no library yet.
//!
//! Reading order: `checksum`, `terms`, `seen`, `tables`, `node_file`, `folder`.
#![tactic(auto)]

mod checksum;
mod folder;
mod node_file;
mod seen;
mod tables;
mod terms;

pub use folder::SystemFolders;
pub use node_file::{FileNodeKeep, NodeFile};
pub use seen::Seen;
