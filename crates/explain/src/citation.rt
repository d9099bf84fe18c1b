//! Explains why one citation fails.
ghost use Rattle.std.specs.Prelude.{◌≡◌, ℕ, ◌+◌, ◌<◌, ◌≤◌, length, IfOk, MatchOption, Some};
ghost use Rattle.mm_read.specs.declared.stmt.Stmt.{Stmt as Statement};
ghost use Rattle.frame.specs.Below.{AllBelow};
ghost use Rattle.frame.specs.FrameOf.{HasAssertion, hypotheses};
ghost use Rattle.frame.specs.AssertionView.{IsViewOf};
ghost use Rattle.frame.specs.AtPosition.{HasLegalProperties};
ghost use Rattle.explain.specs.CitationFaults.{IsMismatchFault};
ghost use Rattle.explain.specs.CitationResults.{CannotCite, named_results};
ghost use Rattle.explain.specs.FirstFault.{IsCitationFault};
ghost use Rattle.explain.specs.WrongResults.{AreCorrectResults, IsResultsFault, ResultsMatch};
ghost use Rattle.explain.specs.LastResults.{AreRead, last_named};
ghost use Rattle.scope.specs.Active.{before, stmt_at};

use crate::excerpt::Excerpt;
use crate::reason::ItemFault;
use entries::{AssertionView, Hypothesis};
use frame::{FrameBuffers, Frames, Meaning};
use std::alloc::{AllocError, Global};
use verify::Results;

/// Returns why the statement at a position cannot be cited, given the earlier results.
///
/// Errors: an allocation fails. Cost: at most that of the citation.
pub fn citation_fault(
    alloc: Global,
    frames: &Frames,
    at: usize,
    statement: usize,
    results: &mut Results,
) -> Result<ItemFault, AllocError>
    requires position { (1 ≤ at) × (at ≤ length frames.now.statements) }
    requires results { AllBelow (length frames.now.names) results.old.results.stack }
    requires stuck { CannotCite frames.now at statement results.old }
    ensures { (s : Statement) → stmt_at frames.now.statements statement ≡ Some s
        → IfOk result
        (IsCitationFault frames.now.statements frames.now.names at
        (named_results frames.now results.old) statement s) }
{
    match frames.meaning(at, statement) {
        Meaning::Hypothesis(_) => Ok(ItemFault::TooManySymbols),
        Meaning::Assertion => assertion_fault(alloc, frames, at, statement, results),
        Meaning::Nothing if statement < at => Ok(ItemFault::Inactive {
            hypothesis: statement,
        }),
        Meaning::Nothing => Ok(ItemFault::NotEarlier { statement }),
    }
}

/// Returns why an earlier assertion cannot be cited.
fn assertion_fault(
    alloc: Global,
    frames: &Frames,
    at: usize,
    cited_at: usize,
    results: &mut Results,
) -> Result<ItemFault, AllocError>
    requires position { (1 ≤ at) × (at ≤ length frames.now.statements) }
    requires earlier { cited_at < at }
    requires assertion { (s : Statement) × HasAssertion frames.now.statements cited_at s }
    requires results { AllBelow (length frames.now.names) results.old.results.stack }
    requires stuck { CannotCite frames.now at cited_at results.old }
    ensures { (s : Statement) → stmt_at frames.now.statements cited_at ≡ Some s
        → IfOk result
        (IsCitationFault frames.now.statements frames.now.names at
        (named_results frames.now results.old) cited_at s) }
{
    let mut mandatory = Vec::new(alloc);
    frames.mandatory(cited_at, &mut mandatory)?;
    let mut frame_buffers = FrameBuffers::new(alloc);
    let cited = frames.cited_view(cited_at, &mut frame_buffers)?;
    let present = results.len();
    let required = mandatory.len();
    if present < required {
        return Ok(ItemFault::TooFewResults {
            assertion: cited_at,
            required,
            present,
        });
    }
    results.read_untyped(&cited.hypotheses)?;
    match results_fault(
        alloc,
        frames,
        at,
        cited_at,
        mandatory.as_slice(),
        &cited,
        &*results,
    )? {
        Some(fault) => Ok(fault),
        None => Ok(ItemFault::TooManySymbols),
    }
}

/// Returns the fault of the last results, one for each hypothesis of an assertion, or `None` if its
/// hypotheses require them and its disjoint variable conditions hold. Does not compute the
/// conclusion.
fn results_fault(
    alloc: Global,
    frames: &Frames,
    at: usize,
    cited_at: usize,
    mandatory: &[u32],
    cited: &AssertionView<'_>,
    results: &Results,
) -> Result<Option<ItemFault>, AllocError>
    requires legal { HasLegalProperties frames.now.statements frames.now.names }
    requires position { (1 ≤ at) × (at ≤ length frames.now.statements) }
    requires earlier { cited_at < at }
    requires assertion { (s : Statement) × HasAssertion frames.now.statements cited_at s }
    requires mandatory { (s : Statement) → stmt_at frames.now.statements cited_at ≡ Some s
        → mandatory.now ≡ hypotheses (before frames.now.statements cited_at) s }
    requires cited { (s : Statement) → stmt_at frames.now.statements cited_at ≡ Some s
        → IsViewOf frames.now.statements frames.now.names cited_at s cited.now }
    requires read { AreRead frames.now cited.now.hypotheses results.now }
    ensures { (s : Statement) → stmt_at frames.now.statements cited_at ≡ Some s
        → IfOk result
        (λ r. MatchOption r
        (AreCorrectResults frames.now.statements at cited_at s
        (last_named frames.now cited.now.hypotheses results.now))
        (IsResultsFault frames.now.statements frames.now.names at cited_at s (last_named frames.now cited.now.hypotheses results.now))) }
{
    if let Some(fault) = first_mismatch(alloc, frames, cited_at, mandatory, cited, results)? {
        return Ok(Some(fault));
    }
    let pairs = frames.active_pairs(at);
    let groups = frames.groups(cited_at)?;
    let violation = results.first_violation(alloc, &pairs, &groups.as_groups())?;
    if let Some(violation) = violation {
        return Ok(Some(ItemFault::NotDisjoint {
            assertion: cited_at,
            first: violation.first,
            second: violation.second,
            in_first_image: violation.in_first_image,
            in_second_image: violation.in_second_image,
        }));
    }
    Ok(None)
}

/// Returns the fault of the first hypothesis whose result is not the one that it requires, if there
/// is one.
///
/// Errors: an allocation fails. Cost: a look-up for each symbol of the hypotheses, and the symbols
/// that agree.
fn first_mismatch(
    alloc: Global,
    frames: &Frames,
    cited_at: usize,
    mandatory: &[u32],
    cited: &AssertionView<'_>,
    results: &Results,
) -> Result<Option<ItemFault>, AllocError>
    requires legal { HasLegalProperties frames.now.statements frames.now.names }
    requires assertion { (s : Statement) × HasAssertion frames.now.statements cited_at s }
    requires mandatory { (s : Statement) → stmt_at frames.now.statements cited_at ≡ Some s
        → mandatory.now ≡ hypotheses (before frames.now.statements cited_at) s }
    requires cited { (s : Statement) → stmt_at frames.now.statements cited_at ≡ Some s
        → IsViewOf frames.now.statements frames.now.names cited_at s cited.now }
    requires read { AreRead frames.now cited.now.hypotheses results.now }
    ensures { (s : Statement) → stmt_at frames.now.statements cited_at ≡ Some s
        → IfOk result
        (λ r. MatchOption r
        (ResultsMatch frames.now.statements cited_at s (last_named frames.now cited.now.hypotheses results.now))
        (IsMismatchFault frames.now.statements frames.now.names cited_at s (last_named frames.now cited.now.hypotheses results.now))) }
{
    let base = results.len() - mandatory.len();
    for k in 0..mandatory.len() {
        let hypothesis = mandatory[k] as usize;
        let expr = frames.expr(hypothesis);
        if results.matches(base + k, expr) {
            continue;
        }
        let result = Excerpt::new(alloc, results.get(base + k))?;
        return match cited.hypotheses.get(k) {
            Hypothesis::Float(_) => Ok(Some(ItemFault::OtherTypecode {
                assertion: cited_at,
                hypothesis,
                result,
            })),
            Hypothesis::Essential(_) => Ok(Some(ItemFault::OtherExpression {
                assertion: cited_at,
                hypothesis,
                required: Excerpt::of_applied(alloc, results, expr)?,
                result,
            })),
        };
    }
    Ok(None)
}
