//! The votes at one slot under one ballot.
ghost use Rattle.std.specs.Prelude.{◌≡◌, ◌<◌};
ghost use Rattle.synod.specs.Learner.{with_voter, no_voters};

use crate::ballot::Ballot;
use crate::weights::MAX_NODES;

/// The nodes whose votes at a slot under a ballot were counted: a mark for each node.
#[derive(Clone, Copy)]
pub struct Tally {
    pub ballot: Ballot,
    pub voters: [bool; MAX_NODES],
}

impl Tally {
    /// Creates the tally of one vote.
    pub(crate) fn of_vote(ballot: Ballot, node: u8) -> Self
        requires { node < MAX_NODES }
        ensures ballot { result.ballot ≡ ballot }
        ensures voters { result.voters ≡ with_voter no_voters node }
    {
        Tally {
            ballot,
            voters: with_mark([false; MAX_NODES], node),
        }
    }

    /// Returns the tally with one more vote.
    pub(crate) fn with_vote(self, node: u8) -> Self
        requires { node < MAX_NODES }
        ensures ballot { result.ballot ≡ self.ballot }
        ensures voters { result.voters ≡ with_voter self.voters node }
    {
        Tally {
            ballot: self.ballot,
            voters: with_mark(self.voters, node),
        }
    }
}

/// Returns the marks with `node` marked too.
pub(crate) fn with_mark(mut voters: [bool; MAX_NODES], node: u8) -> [bool; MAX_NODES]
    requires { node < MAX_NODES }
    ensures { result ≡ with_voter voters node }
{
    voters[node as usize] = true;
    voters
}
