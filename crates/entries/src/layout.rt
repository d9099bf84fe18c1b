//! The layout of a statement's parts among its numbers.
ghost use Rattle.std.specs.Prelude.{◌≡◌, ◌≤◌, ◌<◌, ◌^◌, length, IfOk, true};
ghost use Rattle.entries.specs.Stored.Records.{layout_of_counts, layout_in, counts_of};
ghost use Rattle.entries.specs.declared.layout.TheConstants.{COUNTS};

use crate::buffer_part::{item, to_u32};
use crate::parts::AssertionParts;
use std::alloc::AllocError;

/// How many numbers precede the parts of an assertion: the four counts of its hypotheses, its
/// symbols, its groups and the variables of its groups, and the lower and the upper half of its
/// size.
pub const COUNTS: usize = 6;

/// How many numbers of 32 bits there are.
const HALVES: u64 = 4294967296;

/// Where each part of a statement begins among its numbers, and where the last part ends. Each part
/// ends where the next one begins. Also what the counts before the parts say of no part.
#[derive(Clone, Copy, Drop)]
pub struct Layout {
    /// The typecodes of its hypotheses.
    pub typecodes: usize,
    /// Its hypotheses, each as the one number that `number_of` returns for it.
    pub numbered_hypotheses: usize,
    /// Its symbols.
    pub symbols: usize,
    /// The positions of its hypotheses.
    pub hypotheses: usize,
    /// The variables of its groups.
    pub grouped_variables: usize,
    /// Where the variables of its groups end.
    pub end: usize,
    /// How many groups it has.
    pub group_count: usize,
    /// Its size, as `EntryHeader` says.
    pub size: u64,
}

/// Returns the layout of `count` hypotheses, `symbols` symbols, `group_count` groups and
/// `grouped_variables` variables of groups, the first part of which begins at `typecodes`, for a
/// statement of this size.
#[inline(always)]
pub fn layout_by_counts(
    typecodes: usize,
    count: usize,
    symbols: usize,
    group_count: usize,
    grouped_variables: usize,
    size: u64,
) -> Layout
    requires { (layout_of_counts typecodes count symbols group_count grouped_variables size).end < 2 ^ 64 }
    ensures { result ≡ layout_of_counts typecodes count symbols group_count grouped_variables size }
{
    let numbered_hypotheses = typecodes + count;
    let hypotheses = numbered_hypotheses + count + symbols;
    Layout {
        typecodes,
        numbered_hypotheses,
        symbols: numbered_hypotheses + count,
        hypotheses,
        grouped_variables: hypotheses + count,
        end: hypotheses + count + grouped_variables,
        group_count,
        size,
    }
}

/// Returns the layout of the assertion that begins at the first of these numbers.
#[inline(always)]
pub fn assertion_layout(numbers: &[u32]) -> Layout
    requires { COUNTS ≤ length numbers.now }
    ensures { result ≡ layout_in true numbers.now }
{
    layout_by_counts(
        COUNTS,
        item(numbers, 0) as usize,
        item(numbers, 1) as usize,
        item(numbers, 2) as usize,
        item(numbers, 3) as usize,
        item(numbers, 4) as u64 + item(numbers, 5) as u64 * HALVES,
    )
}

/// Returns the numbers that precede the parts of a statement of this size.
pub fn counts(size: u64, parts: &AssertionParts<'_>) -> Result<[u32; COUNTS], AllocError>
    ensures { IfOk result (λ counts. counts ≡ counts_of size parts.now) }
{
    Ok([
        to_u32(parts.hypotheses.len())?,
        to_u32(parts.symbols.len())?,
        to_u32(parts.groups.len())?,
        to_u32(parts.grouped_variables.len())?,
        (size % HALVES) as u32,
        (size / HALVES) as u32,
    ])
}
