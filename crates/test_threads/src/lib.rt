//! Tests of `nodes` with three nodes on real threads.
//!
//! A node's thread is told of a packet by a hint, the packet's number; its weather says whether a
//! hint passes, is lost, is repeated or is delayed. A desk is the handle at which a caller submits
//! texts and asks questions. A keep stores the part of a node that survives a restart: its promise,
//! round and accepted entries.
//!
//! `three_nodes` has helpers that the other modules share.
#![tactic(auto)]

#[cfg(test)]
mod agreeing;
#[cfg(test)]
mod failed_allocations;
#[cfg(test)]
mod gates;
#[cfg(test)]
mod three_nodes;
#[cfg(test)]
mod weathers;
