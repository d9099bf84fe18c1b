//! Makes the page of one assertion.
ghost use Rattle.std.specs.Prelude.{◌≡◌, ◌+◌, ◌<◌, length, get_or, option_map, slice_get, IfOk, IsTrue};
ghost use Rattle.frame.specs.Citations.{Carries};
ghost use Rattle.frame.specs.FrameOf.{HasAssertion};
ghost use Rattle.mm_lex.specs.Alphabet.{word};
ghost use Rattle.mm_read.specs.declared.stmt.Stmt.{Stmt as Statement};
ghost use Rattle.mm_read.specs.declared.stmt.Stmt.TheVariants.{Open};
ghost use Rattle.scope.specs.Active.{is_assertion};
ghost use Rattle.sites.specs.AssertionPages.{ArePageSources, IsPageOf, IsShownProof, database_of};
ghost use Rattle.sites.specs.AssertionPages.{description_at, items_or_none};

use crate::CrossReferences;
use crate::site::{SiteFault, SiteSources};
use frame::Frames;
use mm_lex::Span;
use mm_read::Stmt;
use proof_pages::{PageContents, ProofSteps, RelatedItems, Typecodes, write_site_page};
use std::alloc::{AllocError, Global};
use steps::{essential_table, proof_table};

/// The library and the tables that pages are made from.
#[derive(Drop)]
pub struct PageSources<'a> {
    pub site: &'a SiteSources<'a>,
    /// The frames of the statements of the library.
    pub frames: &'a Frames,
    pub references: CrossReferences,
    /// The CSS classes of the typecodes of the library.
    pub typecodes: Typecodes,
    /// For each statement, in order, the span of its description in the text.
    pub descriptions: Vec<Option<Span>>,
}

/// Returns the page of the assertion at an index.
///
/// Errors: an allocation fails.
pub fn page_at(alloc: Global, sources: &PageSources<'_>, index: usize) -> Result<Vec<u8>, SiteFault>
    requires within { index < length (database_of sources.now) }
    requires sources { ArePageSources sources.now }
    requires assertion { IsTrue (is_assertion (get_or (database_of sources.now) index Open)) }
    ensures { IfOk result (λ page. IsPageOf sources.now (index + 1) page.items) }
{
    match &sources.site.library.statements()[index] {
        Stmt::Prove { label, .. } => theorem_page(alloc, sources, index + 1, label.as_bytes()),
        _ => page_with_proof(alloc, sources, index + 1, None),
    }
}

/// Returns the page of the `$p` at a position, which has this label.
fn theorem_page(
    alloc: Global,
    sources: &PageSources<'_>,
    at: usize,
    label: &[u8],
) -> Result<Vec<u8>, SiteFault>
    requires sources { ArePageSources sources.now }
    requires named { (s : Statement) × Carries (database_of sources.now) at s label.now }
    ensures { IfOk result (λ page. IsPageOf sources.now at page.items) }
{
    let found = sources.site.library.items(label)?;
    let steps = proof_table(alloc, sources.frames, at, &found.1)?;
    let essential = essential_table(alloc, sources.frames, at, &steps)?;
    let proof = ProofSteps {
        steps: &steps,
        essential: &essential,
    };
    page_with_proof(alloc, sources, at, Some(proof))
}

/// Returns the page of the assertion at a position, with the steps of its proof if it has one.
fn page_with_proof(
    alloc: Global,
    sources: &PageSources<'_>,
    at: usize,
    proof: Option<ProofSteps<'_>>,
) -> Result<Vec<u8>, SiteFault>
    requires sources { ArePageSources sources.now }
    requires assertion { (s : Statement) × HasAssertion sources.now.frames.now.statements at s }
    ensures { IfOk result (λ page.
        IsShownProof (database_of sources.now) at sources.now.frames.now.names proof.entry
        → IsPageOf sources.now at page.items) }
{
    let index = at.saturating_sub(1);
    let axioms = positions_at(alloc, sources.references.axioms.as_slice(), index)?;
    let cited_by = positions_at(alloc, sources.references.cited_by.as_slice(), index)?;
    let contents = PageContents {
        statements: sources.site.library.statements(),
        frames: sources.frames,
        typecodes: &sources.typecodes,
        at,
        proof,
        related: RelatedItems {
            axioms: axioms.as_slice(),
            cited_by: cited_by.as_slice(),
            is_unproved: sources.site.is_unproved,
            description: description_at(sources.site.text, sources.descriptions.as_slice(), index),
        },
    };
    let mut page = Vec::new(alloc);
    write_site_page(alloc, &mut page, &contents)?;
    Ok(page)
}

/// Returns the positions of the list at an index, or an empty list if there is none.
fn positions_at(alloc: Global, lists: &[Vec<usize>], index: usize) -> Result<Vec<u32>, AllocError>
    ensures { IfOk result (λ positions. positions.items ≡ items_or_none (slice_get lists.now index)) }
{
    match lists.get(index) {
        Some(list) => numbers_of(alloc, list.as_slice()),
        None => Ok(Vec::new(alloc)),
    }
}

/// Returns positions as numbers of 32 bits.
fn numbers_of(alloc: Global, positions: &[usize]) -> Result<Vec<u32>, AllocError>
    ensures { IfOk result (λ numbers. numbers.items ≡ positions.now) }
{
    let mut numbers = Vec::new(alloc);
    for position in positions {
        if *position > u32::MAX as usize {
            return Err(AllocError);
        }
        numbers.push(*position as u32)?;
    }
    Ok(numbers)
}

/// Returns the description of the statement at an index, if it has one; `spans` are those of the
/// descriptions in the text.
fn description_at<'a>(text: &'a [u8], spans: &[Option<Span>], index: usize) -> Option<&'a [u8]>
    ensures { option_map (λ d. d.now) result ≡ description_at text.now spans.now index }
{
    if index >= spans.len() {
        return None;
    }
    match spans[index] {
        Some(span) => Some(span_bytes(text, span)),
        None => None,
    }
}

/// Returns the bytes of a span, as far as it lies in the text.
fn span_bytes(text: &[u8], span: Span) -> &[u8]
    ensures { result.now ≡ word text.now span }
{
    if span.start >= span.end || span.start >= text.len() {
        return &[];
    }
    let (_, rest) = text.split_at(span.start);
    let len = span.end - span.start;
    if len >= rest.len() {
        return rest;
    }
    rest.split_at(len).0
}
