//! The theorems that use a statement: the `$p` that cite it or, if all users are asked for, that
//! rest on it.
ghost use Rattle.std.specs.Prelude.{◌≡◌, ◌≤◌, ◌↔◌, true, false, Some, length, take, IfOk};
ghost use Rattle.frame.specs.AtPosition.{HasLabelsOnce};
ghost use Rattle.library.specs.UseMarks.{is_marked, DecidesNumbersCiteMarked, ProofCitesMarked};
ghost use Rattle.library.specs.UseMarks.{ListsNone, ListsSome};
ghost use Rattle.library.specs.Uses.{IsUser, AreLabelsOf};
ghost use Rattle.mm_read.specs.declared.stmt.Stmt.{Stmt as Statement};
ghost use Rattle.scope.specs.Active.{proof_of};
ghost use Rattle.std.specs.List.{list_any};
ghost use Rattle.verify.specs.Right.{IsProvable};

use crate::checked_database::CheckedDatabase;
use frame::Frames;
use mm_lex::{Word, Words};
use mm_read::Stmt;
use proof_code::{Heading, Reader, is_compressed};
use std::alloc::AllocError;

/// Returns the labels of the `$p` that cite the statement at a position, each once, in order; with
/// `all` also of those that cite one of them, and so on.
///
/// Errors: an allocation fails. Cost: a byte for each statement, and the proofs after the position,
/// each read once, or twice if it lists a label that is sought.
///
/// A position is marked if the statement there is sought: `marks` has a flag for each position.
/// These are not the marks of proof code.
pub(crate) fn citing_labels(
    database: &CheckedDatabase,
    at: usize,
    all: bool,
) -> Result<Vec<Word>, AllocError>
    requires { (1 ≤ at) × (at ≤ length database.now) }
    ensures { IfOk result (λ labels. AreLabelsOf database.now (IsUser database.now all at) labels.items) }
{
    let statements = database.statements();
    let alloc = database.alloc();
    let mut sought = vec![in alloc; false; statements.len()]?;
    sought[at - 1] = true;
    let mut labels = Vec::new(alloc);
    let mut search = Search {
        reader: Reader::new(alloc),
        mandatory: Vec::new(alloc),
        label_marks: Vec::new(alloc),
    };
    for index in at..statements.len() {
        if let Stmt::Prove { label, proof, .. } = database.statement(index + 1) {
            if search.cites_marked(database, index + 1, proof, &sought)? {
                labels.push(label.copy(alloc)?)?;
                sought[index] = all;
            }
        }
    }
    Ok(labels)
}

/// Reads proofs, one after another, for what they cite, and keeps its buffers.
#[derive(Drop)]
struct Search {
    reader: Reader,
    /// The positions of a proof's mandatory hypotheses.
    mandatory: Vec<u32>,
    /// For each label of a proof, those of mandatory hypotheses first, whether the statement is
    /// marked.
    label_marks: Vec<bool>,
}

impl Search {
    /// Returns whether the proof of the `$p` at a position, whose tokens these are, cites a marked
    /// statement. A normal proof cites the labels that it lists. The letters of a compressed one
    /// need not be read if no mandatory hypothesis and no listed label is marked.
    fn cites_marked(
        &mut self,
        database: &CheckedDatabase,
        at: usize,
        tokens: &Words,
        marks: &[bool],
    ) -> Result<bool, AllocError>
        requires { (s : Statement) × IsProvable database.now at s × (proof_of s ≡ tokens.now) }
        ensures { IfOk result (λ found. found ≡ true ↔ ProofCitesMarked database.now at marks.now) }
    {
        let frames = database.frames();
        if !is_compressed(tokens) {
            return Ok(lists_marked(frames, tokens, marks));
        }
        self.mandatory.clear();
        frames.mandatory(at, &mut self.mandatory)?;
        if !has_marked(&self.mandatory, marks) {
            if !lists_marked(frames, tokens, marks) {
                return Ok(false);
            }
        }
        let count = self.mandatory.as_slice().len();
        let Some(heading) = self.reader.read(tokens, count)? else {
            return Ok(false);
        };
        numbers_cite_marked(
            frames,
            heading,
            self.reader.numbers(),
            &self.mandatory,
            marks,
            &mut self.label_marks,
        )
    }
}

/// Returns whether one of the numbers cites a marked statement. Puts into `label_marks` a flag for
/// each mandatory hypothesis and then for each listed label: whether its statement is marked. A
/// label that is listed is usually cited, so the numbers are searched once the first marked label
/// is found, and again after the last label if nothing was found.
fn numbers_cite_marked(
    frames: &Frames,
    heading: Heading<'_>,
    numbers: &[u32],
    mandatory: &[u32],
    marks: &[bool],
    label_marks: &mut Vec<bool>,
) -> Result<bool, AllocError>
    requires once { HasLabelsOnce frames.now.statements }
    requires listed { heading.count ≤ length heading.words }
    ensures { IfOk result
        (DecidesNumbersCiteMarked frames.now.statements marks.now mandatory.now
        (take heading.entry.count heading.entry.words) numbers.now) }
{
    label_marks.clear();
    for position in mandatory {
        label_marks.push(is_marked(marks, Some(*position as usize)))?;
    }
    let mut words = heading.words;
    let mut searched = false;
    for _ in 0..heading.count {
        let Some(label) = words.next() else {
            unreachable!();
        };
        let marked = is_marked(marks, frames.position(label));
        label_marks.push(marked)?;
        if marked && !searched {
            if has_marked(numbers, label_marks) {
                return Ok(true);
            }
            searched = true;
        }
    }
    Ok(has_marked(numbers, label_marks))
}

/// Returns whether one of the numbers is marked. They are positions, or numbers of items if `marks`
/// has the flags of labels: a number that cites a label is the place of its flag, from 1.
fn has_marked(numbers: &[u32], marks: &[bool]) -> bool
    ensures { result ≡ list_any (λ number. is_marked marks.now (Some number)) numbers.now }
{
    numbers
        .iter()
        .any(|number| is_marked(marks, Some(*number as usize)))
}

/// Returns whether a token before `)` is the label of a marked statement.
fn lists_marked(frames: &Frames, tokens: &Words, marks: &[bool]) -> bool
    requires once { HasLabelsOnce frames.now.statements }
    ensures none { result ≡ false → ListsNone frames.now.statements tokens.now marks.now }
    ensures some { result ≡ true → ListsSome frames.now.statements tokens.now marks.now }
{
    let mut remaining = tokens.iter();
    while let Some(token) = remaining.next() {
        if token == b")".as_slice() {
            return false;
        }
        if is_marked(marks, frames.position(token)) {
            return true;
        }
    }
    false
}

/// Returns whether the position is marked.
fn is_marked(marks: &[bool], position: Option<usize>) -> bool
    ensures { result ≡ is_marked marks.now position }
{
    position.is_some_and(|position| position > 0 && position <= marks.len() && marks[position - 1])
}
