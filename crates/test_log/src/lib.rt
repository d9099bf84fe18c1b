//! Tests of the replicated log that rows cannot express: one node over plain numbers at its limits,
//! a keep (the stable storage of a node) that fails at one of its calls, a gap in a log that is
//! filled, a list of events in one call, and the application of an entry after a failed allocation.
//!
//! `fail_once_keep` has the keep that fails, and helpers that the other modules share.
#![tactic(auto)]

#[cfg(test)]
mod fail_once_keep;
#[cfg(test)]
mod gap;
#[cfg(test)]
mod keep_failures;
#[cfg(test)]
mod node_limits;
#[cfg(test)]
mod worlds;
