//! Collects positions in rounds; `ordered` returns those of a round, each once.
ghost use Rattle.std.specs.Prelude.{◌≡◌, [], true, get_or, slice_set, IfOk, OnOk};
ghost use Rattle.frame.specs.Stored.Hypotheses.{In, ListsExactly, HasMore};

use crate::citations::sort_dedup;
use std::alloc::{AllocError, Global};
use std::marker::Model;

/// The positions collected since the last `begin_round`; the pass over the statements begins a
/// round for each of them. Contracts see `list`. It has no position twice that is at most the
/// argument `last` of `Collector::new`.
#[derive(Drop)]
pub struct Collector {
    alloc: Global,
    list: Vec<usize>,
    /// The round in which each position was last added, or 0.
    last_rounds: Vec<usize>,
    /// The number of the current round, from 1.
    round: usize,
}

impl Model for Collector {
    ghost use Rattle.std.specs.Prelude.{List, ℕ};
    ghost use Rattle.sites.specs.PassState.{IsRoundTable};

    ghost Value = { List ℕ };

    ghost view = { λ a. a.list.items };

    ghost invariant = { λ a. IsRoundTable a.list.items a.last_rounds.items a.round };
}

impl Collector {
    /// Returns an empty collector that adds each position up to `last` only once in a round.
    pub fn new(alloc: Global, last: usize) -> Result<Collector, AllocError>
        ensures { IfOk result (λ collector. collector ≡ []) }
    {
        let count = last.checked_add(1).ok_or(AllocError)?;
        Ok(Collector {
            alloc,
            list: Vec::new(alloc),
            last_rounds: vec![in alloc; 0usize; count]?,
            round: 1,
        })
    }

    /// Begins a new round, in which no position is collected yet.
    pub fn begin_round(&mut self) -> Result<(), AllocError>
        ensures { OnOk result (self.new ≡ []) }
    {
        self.round = self.round.checked_add(1).ok_or(AllocError)?;
        self.list.clear();
        Ok(())
    }

    /// Adds a position, unless it was added in this round and is at most the argument `last` of
    /// `Collector::new`.
    #[tactic(auto, using(crate::proofs::ListLemmas::has_already, crate::proofs::ListLemmas::has_pushed, crate::proofs::ListLemmas::rounds_more))]
    pub fn add(&mut self, position: usize) -> Result<(), AllocError>
        ensures { OnOk result (HasMore (λ p. p ≡ position) self.old self.new) }
    {
        if is_collected(&self.last_rounds, position, self.round) {
            return Ok(());
        }
        self.list.push(position)?;
        record_round(&mut self.last_rounds, position, self.round);
        Ok(())
    }

    /// Adds each of the positions as `add` does.
    pub fn add_all(&mut self, positions: &[usize]) -> Result<(), AllocError>
        ensures { OnOk result (HasMore (λ p. In p positions.now) self.old self.new) }
    {
        for position in positions {
            self.add(*position)?;
        }
        Ok(())
    }

    /// Returns the positions collected in this round in ascending order, each once.
    pub fn ordered(&self) -> Result<Vec<usize>, AllocError>
        ensures { IfOk result (λ list. ListsExactly (λ p. In p self.now) list.items) }
    {
        let mut list = Vec::from_slice(self.alloc, self.list.as_slice())?;
        sort_dedup(&mut list);
        Ok(list)
    }
}

/// Returns whether `last_rounds` has an entry for a position that is this round.
fn is_collected(last_rounds: &Vec<usize>, position: usize, round: usize) -> bool
    ensures { result ≡ true → get_or last_rounds.now.items position 0 ≡ round }
{
    position < last_rounds.len() && last_rounds[position] == round
}

/// Records the round in which a position was added, if `last_rounds` has an entry for the position.
fn record_round(last_rounds: &mut Vec<usize>, position: usize, round: usize)
    ensures { last_rounds.new.items ≡ slice_set last_rounds.old.items position round }
{
    if position < last_rounds.len() {
        last_rounds[position] = round;
    }
}
