//! All nodes that agree on one log, each with its library, driven by a list of events.
//!
//! The main theorem is `headline`: whatever packets are lost, repeated or delayed and whichever
//! nodes restart, of any two nodes' libraries, at any two moments, the statements of one are a
//! prefix of the other's. `headline_goes_on` says the same across crashes of the process. `program`
//! and `run_pictures` use `World`, `cluster` uses `NodeLibrary`; `run` serves tests.
//!
//! Reading order: the definitions in `specs/Carried`, `WorldView` and `Headline`; then the modules
//! `carried`, `node_library`, `health`, `world`, `run_of_events` and `laws`.
#![tactic(auto)]

mod carried;
mod health;
mod laws;
mod node_library;
mod run_of_events;
mod world;

pub use carried::Carried;
pub use health::{Health, NodeStatus};
pub use laws::{headline, headline_goes_on};
pub use node_library::NodeLibrary;
pub use run_of_events::run;
pub use world::World;
