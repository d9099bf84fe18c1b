//! One node of Multi-Paxos: proposer, acceptor and learner at once.
//!
//! `NodeCore` takes the steps of Multi-Paxos: the contract of each call cites the definition of its
//! step in `specs/Step.antt` or `specs/Proposer.antt`, with the packets that it posts and the
//! refusal that it may meet. A step is staged first: staging allocates, may fail and changes
//! nothing but capacity. Then the step is committed, which does not allocate. The public calls that
//! stage a step are named `ready_..`, the functions that they are made of `stage_..`.
//!
//! Reading order:
//! - the messages and the kept part: `value`, `weights`, `ballot`, `packet`, `change`, `record`,
//!   `copies`, `keep`;
//! - the parts of a node: `posts`; for its acceptor `promise`; for its proposer `promise_pages`,
//!   `proposer`, `leading`; for its learner `tally`, `other_tallies`, `learner`;
//! - the node: `refusal`, `ready`, `node`.
#![tactic(auto)]

mod ballot;
mod change;
mod copies;
mod keep;
mod leading;
mod learner;
mod node;
mod other_tallies;
mod packet;
mod posts;
mod promise;
mod promise_pages;
mod proposer;
mod ready;
mod record;
mod refusal;
mod tally;
mod value;
mod weights;

pub use ballot::Ballot;
pub use change::{AcceptedEntry, Change};
pub use copies::{copy_record, ready_change};
pub use keep::{Failed, Keep};
pub use node::{NodeCore, NodeState};
pub use packet::{Body, MAX_PAGES, PAGE_REPORTS, Packet, Reports, SlotReport};
pub use proposer::{Heard, MAX_WAITING, Role};
pub use ready::Ready;
pub use record::Record;
pub use refusal::Refusal;
pub use tally::Tally;
pub use value::{MAX_VALUE_BYTES, Value, copy_value};
pub use weights::{MAX_NODES, MAX_WEIGHT, Weights};
