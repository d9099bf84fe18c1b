//! The heights of the two stacks of the rules, and how many frame statements are active.

/// How many variables are active (`variables`), how many of them have an active `$f` (`typed`), and
/// how many `$f`, `$e` and `$d` are active (`frame_statements`).
#[derive(Clone, Copy, Debug, Drop, PartialEq, Eq)]
pub struct StackHeights {
    pub variables: usize,
    pub typed: usize,
    pub frame_statements: usize,
}
