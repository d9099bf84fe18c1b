//! The cross references of a library.
ghost use Rattle.std.specs.Prelude.{◌≡◌, ◌+◌, ◌-◌, ◌≤◌, ◌<◌, ◌++◌, ◌∷◌, [], length, get_or};
ghost use Rattle.std.specs.Prelude.{replicate, slice_set, IsTrue, IfOk, OnOk};
ghost use Rattle.frame.specs.Ascending.{Ascends};
ghost use Rattle.frame.specs.Stored.Hypotheses.{ListsExactly, HasMore, HoldsForSome};
ghost use Rattle.library.specs.Good.{Good};
ghost use Rattle.library.specs.Uses.{Cites, Uses, is_axiom};
ghost use Rattle.sites.specs.References.{AreReferences};
ghost use Rattle.sites.specs.PassState.{lists_of, AddsAxiom, AreWithin, AreExtendedAt};
ghost use Rattle.sites.specs.PassState.{AreListsOfFirst};

use crate::citations::cited_at;
use crate::collector::Collector;
use library::Library;
use mm_read::Stmt;
use std::alloc::{AllocError, Global};

/// Two lists of positions for each statement of a library. Statements are indexed from 0; the
/// positions in a list count from 1 and ascend.
#[derive(Drop)]
pub struct CrossReferences {
    /// The positions of the `$a` that a `$p` rests on; empty for another statement.
    pub axioms: Vec<Vec<usize>>,
    /// The positions of the `$p` whose proofs cite the statement.
    pub cited_by: Vec<Vec<usize>>,
}

/// Returns the cross references of a library. `Library::trace` returns the labels of the statements
/// in `axioms` for a `$p`, and `Library::usage` with `all` false those of the statements in
/// `cited_by` for a statement with a label.
///
/// Errors: an allocation fails. Cost: the size of the proofs, each read once; for each statement
/// that a proof cites, the length of the cited statement's list of axioms; sorting the citations of
/// each proof and each list of axioms; two lists and a number in the `Collector` for each
/// statement.
/// Source: Metamath, 4.2.6 and appendix B.
pub fn cross_references(alloc: Global, library: &Library) -> Result<CrossReferences, AllocError>
    ensures { IfOk result (λ found. AreReferences library.now.replica.statements
        (lists_of found.axioms.items) (lists_of found.cited_by.items)) }
{
    let count = library.statements().len();
    let mut collector = Collector::new(alloc, count)?;
    let mut axioms = Vec::new(alloc);
    let mut cited_by = empty_lists(alloc, count)?;
    for index in 0..count {
        let cited = cited_at(alloc, library, index)?;
        append_citing_position_to_all(&mut cited_by, cited.as_slice(), index + 1)?;
        let list = axioms_of_cited(
            library.statements(),
            &axioms,
            cited.as_slice(),
            &mut collector,
        )?;
        axioms.push(list)?;
    }
    Ok(CrossReferences { axioms, cited_by })
}

/// Returns `count` empty lists.
fn empty_lists(alloc: Global, count: usize) -> Result<Vec<Vec<usize>>, AllocError>
    ensures { IfOk result (λ lists. lists_of lists.items ≡ replicate count []) }
{
    let mut lists = Vec::new(alloc);
    for _ in 0..count {
        lists.push(Vec::new(alloc))?;
    }
    Ok(lists)
}

/// Appends the position `at` of a citing statement to the list of each of the cited positions.
fn append_citing_position_to_all(
    cited_by: &mut [Vec<usize>],
    cited: &[usize],
    at: usize,
) -> Result<(), AllocError>
    requires ascends { Ascends cited.now }
    requires within { AreWithin (length cited_by.old) cited.now }
    ensures { OnOk result (AreExtendedAt at cited.now (lists_of cited_by.old) (lists_of cited_by.new)) }
{
    for position in cited {
        append_citing_position(cited_by, *position, at)?;
    }
    Ok(())
}

/// Appends the position `at` of a citing statement to the list of a position.
fn append_citing_position(
    cited_by: &mut [Vec<usize>],
    position: usize,
    at: usize,
) -> Result<(), AllocError>
    requires { (0 < position) × (position ≤ length cited_by.old) }
    ensures { OnOk result (lists_of cited_by.new ≡ slice_set (lists_of cited_by.old) (position - 1)
        (get_or (lists_of cited_by.old) (position - 1) [] ++ at ∷ [])) }
{
    let list = &mut cited_by[position - 1];
    list.push(at)?;
    Ok(())
}

/// Returns the positions of the `$a` that are cited or that a cited statement rests on, in
/// ascending order, each once.
fn axioms_of_cited(
    statements: &[Stmt],
    axioms: &[Vec<usize>],
    cited: &[usize],
    collector: &mut Collector,
) -> Result<Vec<usize>, AllocError>
    requires axioms { AreWithin (length axioms.now) cited.now }
    requires statements { length axioms.now ≤ length statements.now }
    ensures { IfOk result
        (λ list. ListsExactly (HoldsForSome (AddsAxiom statements.now (lists_of axioms.now)) cited.now) list.items) }
{
    collector.begin_round()?;
    for position in cited {
        add_axioms_of(statements, axioms, *position, collector)?;
    }
    collector.ordered()
}

/// Collects the position if the statement there is a `$a`, and the positions of the `$a` that the
/// statement rests on.
fn add_axioms_of(
    statements: &[Stmt],
    axioms: &[Vec<usize>],
    position: usize,
    collector: &mut Collector,
) -> Result<(), AllocError>
    requires axioms { (0 < position) × (position ≤ length axioms.now) }
    requires statements { length axioms.now ≤ length statements.now }
    ensures { OnOk result
        (HasMore (AddsAxiom statements.now (lists_of axioms.now) position) collector.old collector.new) }
{
    add_if_axiom(&statements[position - 1], position, collector)?;
    collector.add_all(axioms[position - 1].as_slice())
}

/// Collects the position of a statement if the statement is a `$a`.
fn add_if_axiom(
    statement: &Stmt,
    position: usize,
    collector: &mut Collector,
) -> Result<(), AllocError>
    ensures { OnOk result
        (HasMore (λ p. IsTrue (is_axiom statement.now) × (p ≡ position)) collector.old collector.new) }
{
    match statement {
        Stmt::Axiom { .. } => collector.add(position),
        _ => Ok(()),
    }
}
