//! Why a proof is wrong.

use crate::excerpt::Excerpt;

/// Why a proof is wrong. Statements are given by their positions, counted from 1, symbols by their
/// numbers in `Frames`.
#[derive(Debug, Drop)]
pub enum Reason {
    /// An item, counted from 0, has a fault.
    Item { item: usize, fault: ItemFault },
    /// The number of results on the stack at the end is `count`, and not 1.
    ResultCount { count: usize },
    /// The only result at the end is not the theorem's expression.
    OtherTheorem { proved: Excerpt },
}

/// A fault of an item.
#[derive(Debug, Drop)]
pub enum ItemFault {
    /// No statement has the label.
    UnknownLabel,
    /// The hypothesis is not active at the theorem.
    Inactive {
        hypothesis: usize,
    },
    /// The statement is the theorem itself or a later one.
    NotEarlier {
        statement: usize,
    },
    /// The assertion requires more results than are present on the stack.
    TooFewResults {
        assertion: usize,
        required: usize,
        present: usize,
    },
    /// The result for a `$f` does not begin with the typecode of the `$f`.
    OtherTypecode {
        assertion: usize,
        hypothesis: usize,
        result: Excerpt,
    },
    /// The result for a `$e` is not the expression that the `$e` requires: its own under the
    /// substitution.
    OtherExpression {
        assertion: usize,
        hypothesis: usize,
        required: Excerpt,
        result: Excerpt,
    },
    /// The variables `first` and `second` of the assertion must be disjoint, but `in_first_image`
    /// occurs in the image of `first` and `in_second_image` in that of `second`, and these two are
    /// the same variable or no active `$d` has both.
    NotDisjoint {
        assertion: usize,
        first: u32,
        second: u32,
        in_first_image: u32,
        in_second_image: u32,
    },
    /// The lengths of the results of all citations and recalls up to this item add up to more than
    /// `SYMBOLS_LIMIT`, the limit of a proof's weight.
    TooManySymbols,
    /// There is no result to mark, or none marked with this number.
    NoMarkedResult,
}
