//! The last active statements before a statement.

/// The last active statement of each of four kinds, by position, or 0 if there is none. A
/// search for active statements starts from it.
#[derive(Clone, Copy, Drop)]
pub struct LastActive {
    /// `${`
    pub block: u32,
    /// `$e`
    pub essential: u32,
    /// `$v`
    pub variable: u32,
    /// `$d`
    pub disjoint: u32,
}
