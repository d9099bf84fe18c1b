//! Ballot numbers.
ghost use Rattle.std.specs.Prelude.{◌≡◌};

/// A ballot number, written ROUND.NODE. Ballots are ordered by round, then by node.
///
/// Source: Lamport, Paxos Made Simple, 2.2, where each proposal has a number.
#[derive(Clone, Copy, PartialEq, Eq, Hash)]
pub struct Ballot {
    pub round: u64,
    pub node: u8,
}

impl Ballot {
    ghost use Rattle.synod.specs.Ballots.{is_below, is_same, zero_ballot};

    /// Returns the ballot 0.0, which a new node has promised.
    pub fn zero() -> Self
        ensures { result ≡ zero_ballot }
    {
        Ballot { round: 0, node: 0 }
    }

    /// Returns whether this ballot is lower than `other`.
    pub fn is_below(self, other: Ballot) -> bool
        ensures { result ≡ is_below self other }
    {
        self.round < other.round || (self.round == other.round && self.node < other.node)
    }

    /// Returns whether the two ballots are equal.
    pub fn is_same(self, other: Ballot) -> bool
        ensures { result ≡ is_same self other }
    {
        self.round == other.round && self.node == other.node
    }
}
