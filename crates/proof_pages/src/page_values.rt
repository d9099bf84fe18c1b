//! The values that the parts of a page share.
use crate::contents::PageContents;
use crate::notation::Notation;

/// The values that the parts of a page share.
#[derive(Drop)]
pub struct PageValues<'a> {
    pub contents: &'a PageContents<'a>,
    pub notation: Notation<'a>,
    /// The positions of the mandatory hypotheses.
    pub hypotheses: &'a [u32],
    /// Whether all steps are shown besides the essential ones.
    pub shows_all_steps: bool,
}
