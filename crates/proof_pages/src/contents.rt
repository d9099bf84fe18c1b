//! The contents of a page.
use crate::typecodes::Typecodes;
use frame::Frames;
use mm_read::Stmt;
use steps::ProofTable;

/// The contents of the page of an assertion.
#[derive(Drop)]
pub struct PageContents<'a> {
    /// All statements of the database.
    pub statements: &'a [Stmt],
    /// The frames of these statements (no clause requires it).
    pub frames: &'a Frames,
    /// The CSS classes of the typecodes of the database.
    pub typecodes: &'a Typecodes,
    /// The position of the assertion.
    pub at: usize,
    /// The steps of its proof, if it is a theorem (no clause requires it).
    pub proof: Option<ProofSteps<'a>>,
    /// The axioms, citing theorems and description that the page shows.
    pub related: RelatedItems<'a>,
}

/// The steps of a proof.
#[derive(Drop)]
pub struct ProofSteps<'a> {
    /// All steps.
    pub steps: &'a ProofTable,
    /// The essential steps.
    pub essential: &'a ProofTable,
}

/// The axioms that an assertion rests on, the theorems that cite it, and its description.
#[derive(Drop)]
pub struct RelatedItems<'a> {
    /// The positions of the axioms that it rests on, ascending.
    pub axioms: &'a [u32],
    /// The positions of the theorems whose proofs cite it, ascending.
    pub cited_by: &'a [u32],
    /// For each statement whether it is a theorem that is not proved and was taken as a `$a`; a
    /// statement without a mark is none.
    pub is_unproved: &'a [bool],
    /// The text of its description, between the delimiters of the comment.
    pub description: Option<&'a [u8]>,
}
