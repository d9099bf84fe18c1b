//! The size of an assertion, which counts in the work of a text.
ghost use Rattle.std.specs.Prelude.{◌≡◌, ◌+◌, ◌-◌, ◌≤◌, ◌<◌, length, sum_by, take, IfOk};
ghost use Rattle.frame.specs.NumberedWork.{numbered_row};
ghost use Rattle.frame.specs.Stored.Counts.{HasTwoSymbolsIfFloat};
ghost use Rattle.frame.specs.Stored.EntryMeanings.{statements_of};
ghost use Rattle.frame.specs.Stored.Hypotheses.{AreHypotheses};
ghost use Rattle.frame.specs.Stored.EntrySizes.{listed_size, size_by};
ghost use Rattle.frame.specs.Stored.Whole.{AreStored};
ghost use Rattle.frame.specs.Below.{AreBelow};

use crate::pairs::Pairs;
use crate::storage::Storage;
use entries::{EntryRef, Kind};
use std::alloc::AllocError;

/// Returns the sum of two counts.
///
/// Errors: a sum of 2^64 or more is reported as a failed allocation.
fn sum(a: u64, b: u64) -> Result<u64, AllocError>
    ensures { IfOk result (λ n. n ≡ a + b) }
{
    a.checked_add(b).ok_or(AllocError)
}

/// Returns the size of an assertion at `at` with these mandatory hypotheses and symbols: the number
/// of both, the lengths of the `$e`, and the rows of the variables of the `$f`.
///
/// Errors: the size is 2^64 or more. Cost: the hypotheses, and for each `$f` the number of the `$d`
/// active at `at` that have its variable.
pub fn size_of_assertion(
    storage: &Storage,
    at: usize,
    hypotheses: &[u32],
    codes: &[u32],
) -> Result<u64, AllocError>
    requires stored { AreStored storage.now }
    requires place { (1 ≤ at) × (at ≤ length (statements_of storage.now) + 1) }
    requires hypotheses { AreHypotheses storage.now.entries hypotheses.now }
    ensures { IfOk result
        (λ size. size ≡ length hypotheses.now + length codes.now + sum_by
        (listed_size storage.now (take (at - 1) (statements_of storage.now))) hypotheses.now) }
{
    let pairs = Pairs { storage, at };
    let mut size = sum(hypotheses.len() as u64, codes.len() as u64)?;
    for position in hypotheses {
        let entry = storage.entries.entry(*position as usize - 1);
        size = sum(size, size_of_hypothesis(&pairs, entry)?)?;
    }
    Ok(size)
}

/// Returns what a mandatory hypothesis adds to the size of an assertion at the position of the
/// pairs: the length of a `$e`, the row of the variable of a `$f`.
///
/// Errors: the row is 2^64 or more. Cost: for a `$f` that of `row`.
fn size_of_hypothesis(pairs: &Pairs<'_>, entry: EntryRef<'_>) -> Result<u64, AllocError>
    requires symbols { HasTwoSymbolsIfFloat entry.kind entry.symbols.now }
    requires below { AreBelow (length pairs.now.names) entry.symbols.now }
    ensures { IfOk result (λ size. size ≡ size_by pairs.now entry.entry.kind entry.entry.symbols.now) }
{
    match entry.kind {
        Kind::Float => row(pairs, entry.symbols[1]),
        _ => Ok(entry.symbols.len() as u64),
    }
}

/// Returns the row of a variable: how many variables the active `$d` that have it list, together.
///
/// Errors: the row is 2^64 or more. Cost: the number of these `$d`, and a binary search.
fn row(pairs: &Pairs<'_>, variable: u32) -> Result<u64, AllocError>
    requires { variable < length pairs.now.names }
    ensures { IfOk result (λ row. row ≡ numbered_row pairs.now variable) }
{
    let mut row = 0;
    let mut disjoints = pairs.disjoints_with(variable);
    while let Some(list) = disjoints.next() {
        row = sum(row, list.len() as u64)?;
    }
    Ok(row)
}
