//! The items of which a proof consists.

use mm_lex::Word;

/// One item of a proof: what one label, one number or one letter Z of it tells the verifier to do.
///
/// Source: Metamath, 4.3 and appendix B.
#[derive(Drop)]
pub enum Item {
    /// Cites the statement with this label.
    Cite(Word),
    /// Recalls the result that the mark of this number saved. Marks are numbered from 1, in order.
    Recall(usize),
    /// Saves the result of the previous item, so that later items can recall it.
    Mark,
}
