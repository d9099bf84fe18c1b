//! The pages that a description links to.
ghost use Rattle.std.specs.Prelude.{◌≡◌, Some};
ghost use Rattle.proof_pages.specs.LabelPages.{assertion_page, is_assertion_at, position_in};

use frame::{Frames, is_assertion};
use markup::LabelPages;
use mm_read::Stmt;

/// The pages of the assertions of a database.
#[derive(Drop)]
pub(crate) struct SitePages<'a> {
    pub statements: &'a [Stmt],
    /// The frames of these statements.
    pub frames: &'a Frames,
    /// Whether the page is one of a site; else no label has a page.
    pub is_linked: bool,
}

impl<'a> LabelPages for SitePages<'a> {
    ghost use Rattle.proof_pages.specs.LabelPages.{linked_page};

    ghost page_of = { λ site label. linked_page site.is_linked site.statements.now site.frames.now.statements label };

    fn page_of(&self, label: &[u8]) -> Option<usize> {
        if !self.is_linked {
            return None;
        }
        match position_of(self.frames, label) {
            Some(position) => assertion_page(self.statements, position),
            None => None,
        }
    }
}

/// Returns a position if there is an assertion.
fn assertion_page(statements: &[Stmt], position: usize) -> Option<usize>
    ensures { result ≡ assertion_page statements.now (Some position) }
{
    if is_assertion_at(statements, position) {
        Some(position)
    } else {
        None
    }
}

/// Returns the position of the statement with a label.
#[tactic(auto, using(crate::proofs::PositionLemmas::position_is, crate::proofs::PositionLemmas::position_empty))]
fn position_of(frames: &Frames, label: &[u8]) -> Option<usize>
    ensures { result ≡ position_in frames.now.statements label.now }
{
    let found = frames.position(label);
    if frames.len() == 0 {
        return None;
    }
    // The clause of this call says that no two statements have the same label.
    let _pairs = frames.active_pairs(1);
    found
}

/// Returns whether there is an assertion at a position.
pub(crate) fn is_assertion_at(statements: &[Stmt], position: usize) -> bool
    ensures { result ≡ is_assertion_at statements.now position }
{
    if position == 0 || position > statements.len() {
        return false;
    }
    is_assertion(&statements[position - 1])
}
