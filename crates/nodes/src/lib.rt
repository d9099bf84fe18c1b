//! The nodes of a cluster as threads of one process.
//!
//! Under the locks, threads and desks change the switch and the cells only by `Switch::play` and
//! the calls of `cluster`, and record what they become in one history, which contracts alone see
//! (`moment`). A desk has seen a prefix of it; each call sees more, and its answer is that of a
//! moment between the two. A clause of a call that waits for a lock holds if the call returns. By
//! its type, the counts of a `Report` add up to its `events`.
//!
//! Terms: the *switch* has all nodes, their packets and their keeps. A *keep* is the stable storage
//! of a node; its record is all that a restart keeps. The *cell* of a node has the entries taken
//! over from its log, and the library of those applied. A *hint* is the number of a posted packet,
//! sent to the thread of its receiver. A thread passes a *gate* before it applies an entry and
//! before it checks a proof.
//!
//! Read `moment`, `book` and `account` (the history and a lock's part in it), `weather`,
//! `shared_switch`, `shared_senders` and `shared_cell` (what the locks guard), `shared_nodes` (the
//! locks), `node_loop` (a node's thread), then `node_threads`, `desk`, `questions`, `adding` and
//! `report`.
#![tactic(auto)]

mod account;
mod adding;
mod book;
mod desk;
mod moment;
mod node_loop;
mod node_threads;
mod questions;
mod report;
mod shared_cell;
mod shared_nodes;
mod shared_senders;
mod shared_switch;
mod weather;

pub use book::{Naming, Opened};
pub use desk::Desk;
pub use moment::Moment;
pub use node_threads::{Cluster, ClusterSetup, start};
pub use report::Report;
pub use weather::{Clear, Fate, Weather};
