//! The weights of nodes and the count of workers, as a command line gives them.
ghost use Rattle.std.specs.Prelude.{◌≡◌, ◌≤◌, ◌<◌, ◌⊎◌, MatchOption};
ghost use Rattle.commands.specs.declared.weights.TheConstants.{MAX_WORKERS};

use crate::pieces::split_first_piece;
use synod::{MAX_NODES, Weights};
use text::parse_number;

/// The greatest count of workers.
pub const MAX_WORKERS: usize = 16;

/// How many threads read one text and check its proofs: 1 to 16.
#[derive(Clone, Copy, Debug)]
pub struct WorkerCount {
    pub count: usize,
    ghost positive: { 1 ≤ count },
    ghost bounded: { count ≤ MAX_WORKERS },
}

impl WorkerCount {
    /// Returns a count of workers, or `None` if it is not 1 to 16.
    pub fn new(count: u64) -> Option<WorkerCount>
        ensures { MatchOption result
            ((count ≡ 0) ⊎ (MAX_WORKERS < count))
            (λ workers. workers.count ≡ count) }
    {
        if count == 0 || count > MAX_WORKERS as u64 {
            return None;
        }
        Some(WorkerCount {
            count: count as usize,
        })
    }
}

/// Parses decimal numbers that are joined by commas. Returns `None` if they are not the weights of
/// `nodes` nodes.
pub(crate) fn parse_weights(text: &[u8], nodes: u8) -> Option<Weights>
    requires { nodes ≤ MAX_NODES }
{
    let mut weights = [0u8; MAX_NODES];
    let mut rest = Some(text);
    for index in 0..nodes as usize {
        let (word, left) = split_first_piece(rest?, b',');
        weights[index] = u8::try_from(parse_number(word)?).ok()?;
        rest = left;
    }
    if rest.is_some() {
        return None;
    }
    Weights::new(&weights[..nodes as usize])
}
