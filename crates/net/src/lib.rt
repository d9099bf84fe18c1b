//! All nodes and all packets of one replicated log of any values, driven by events.
//!
//! The contract that the crates above use is `agreement`, which `Net::history` states for every
//! net: any two logs, of any nodes at any moments, agree (one is a prefix of the other), whatever
//! packets were lost, repeated or delayed and whichever nodes restarted. `kept_part` states which
//! part of a node survives a restart; `logs_grow` states that only a restart shortens a log.
//!
//! Read `event` and `fault`, then the definitions: specs/World, Chosen, Agree, KeptPart, Laws,
//! History, Agreement; then `laws`, `staged` (an event that is ready to be committed), `net` and
//! `node_state`.
#![tactic(auto)]

mod event;
mod fault;
mod ghost_value;
mod laws;
mod net;
mod node_state;
mod staged;

pub use event::Event;
pub use fault::StepFault;
pub use laws::{agreement, crash, kept_part, logs_grow, resume};
pub use net::Net;
pub use staged::StagedEvent;
