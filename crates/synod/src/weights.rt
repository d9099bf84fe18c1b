//! The weights of the nodes.
ghost use Rattle.std.specs.Prelude.{◌≡◌, ◌≤◌, ◌<◌, ◌↔◌, false, length, replicate, slice_index_or};
ghost use Rattle.std.specs.Prelude.{IsSome, IfSome, if◌then◌else◌};
ghost use Rattle.synod.specs.Weights.{IsWeights, is_quorum};

use std::marker::Model;

/// The maximum number of nodes.
pub const MAX_NODES: usize = 9;

/// The maximum weight of a node.
pub const MAX_WEIGHT: u8 = 100;

/// The weights of 1 to 9 nodes, each from 1 to 100. They are stored inline.
///
/// Source: Lamport, Paxos Made Simple, 2.2; a majority is more than half of the total weight.
#[derive(Clone, Copy)]
pub struct Weights {
    padded_weights: [u8; MAX_NODES],
    count: usize,
}

impl Model for Weights {
    ghost use Rattle.std.specs.Prelude.{List, ℕ, take, length};
    ghost use Rattle.synod.specs.Stored.PaddedWeights.{padded, ArePadded};

    ghost Value = { List ℕ };

    ghost view = { λ w. take w.count w.padded_weights };

    ghost invariant = { λ w. ArePadded w.count w.padded_weights };

    ghost inverse = { λ ws. record { padded_weights = padded ws; count = length ws } };

    ghost inverse_ok = { λ w h i. record { padded_weights = h.padding i; count = h.length_is i } };
}

impl Weights {
    /// Creates the weights of the nodes 0, 1, and so on. It does not allocate.
    ///
    /// Returns `None` unless there are 1 to 9 numbers, each from 1 to 100.
    pub fn new(numbers: &[u8]) -> Option<Self>
        ensures weights { IfSome result (λ weights. weights ≡ numbers.now) }
        ensures some { IsSome result ↔ IsWeights numbers.now }
    {
        if numbers.is_empty() || numbers.len() > MAX_NODES {
            return None;
        }
        let mut padded_weights = [0; MAX_NODES];
        for (i, number) in numbers.iter().enumerate() {
            if *number == 0 || *number > MAX_WEIGHT {
                return None;
            }
            padded_weights[i] = *number;
        }
        Some(Weights {
            padded_weights,
            count: numbers.len(),
        })
    }

    /// Creates the weights of `nodes` nodes, each 1. It does not allocate.
    pub fn equal(nodes: u8) -> Self
        requires some { 1 ≤ nodes }
        requires few { nodes ≤ MAX_NODES }
        ensures { result ≡ replicate nodes 1 }
    {
        let mut padded_weights = [0; MAX_NODES];
        for i in 0..nodes {
            padded_weights[i as usize] = 1;
        }
        Weights {
            padded_weights,
            count: nodes as usize,
        }
    }

    /// Returns the number of nodes.
    pub fn count(&self) -> u8
        ensures count { result ≡ length self.now }
        ensures weights { IsWeights self.now }
    {
        self.count as u8
    }

    /// Returns the weights in the order of the nodes.
    pub fn as_slice(&self) -> &[u8]
        ensures weights { result.now ≡ self.now }
        ensures few { length self.now ≤ MAX_NODES }
    {
        &self.padded_weights[..self.count]
    }

    /// Returns whether the marked nodes are a quorum: whether their weight is more than half of the
    /// total.
    pub fn is_quorum(&self, marks: &[bool]) -> bool
        requires { length self.now ≤ length marks.now }
        ensures { result ≡ is_quorum self.now (λ k. slice_index_or marks.now k false) }
    {
        let weights = self.as_slice();
        let mut total = 0u32;
        let mut marked = 0u32;
        for (i, weight) in weights.iter().enumerate() {
            total += u32::from(*weight);
            marked += weight_if_marked(*weight, marks[i]);
        }
        total < 2 * marked
    }
}

/// Returns the weight if the node is marked, else 0.
fn weight_if_marked(weight: u8, mark: bool) -> u32
    ensures { result ≡ (if mark then weight else 0) }
{
    if mark { u32::from(weight) } else { 0 }
}
