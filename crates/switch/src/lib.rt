//! The nodes of one replicated log of any values, each with a keep (its stable storage) that may
//! fail.
//!
//! The main contract is that of `Switch::play`. If it returns no error, the history has grown by
//! the event (after the pending one, if there is one, at the restart of a node that was down), and
//! no event of it meets a fault (`Plays` of `specs/Switch.antt`). The clauses of `Switch::history`
//! hold for every switch.
//!
//! Reading order: `node_store` and `switch`, then `events`, `restart` and `node_state`; the
//! definitions are in `NodeStore`, `Switch` and `LogPrefixes` of `specs`.
#![tactic(auto)]

mod events;
mod node_state;
mod node_store;
mod restart;
mod switch;

pub use events::Delivered;
pub use switch::Switch;
