//! The meanings of the labels of a proof, each looked up once.

ghost use Rattle.std.specs.Prelude.{◌≡◌, ◌≤◌, ◌++◌, List, OnOk, IfOk, IsTrue, not, length, take};
ghost use Rattle.frame.specs.AtPosition.{HasLegalProperties, IsPosition};
ghost use Rattle.frame.specs.FrameOf.{hypotheses};
ghost use Rattle.mm_lex.specs.Alphabet.{Name};
ghost use Rattle.mm_read.specs.declared.stmt.Stmt.{Stmt as Statement};
ghost use Rattle.proof_code.specs.Reading.{share_label};
ghost use Rattle.scope.specs.Active.{before};
ghost use Rattle.std.specs.List.Sorted.{IsNonDecreasing};
ghost use Rattle.verify.specs.LabelTable.{AreEntries, IsEntry, is_hypothesis_among};
ghost use Rattle.verify.specs.Proves.{mandatory_labels};
ghost use Rattle.verify.specs.Right.{IsProvable};

use frame::{Frames, Meaning};
use mm_lex::Words;
use proof_code::Heading;
use std::alloc::AllocError;

/// The meaning of a label for a proof at a position.
#[derive(Clone, Copy, Drop)]
pub enum LabelEntry {
    /// A hypothesis that is active there, by position.
    Hypothesis(usize),
    /// An earlier assertion, by position.
    Assertion(usize),
    /// Nothing that may be cited there.
    Nothing,
}

/// Returns the meaning, for a proof at the position `at`, of the label that the statement at
/// `position` has; `None` stands for a label that no statement has.
fn entry_of(frames: &Frames, at: usize, position: Option<usize>) -> LabelEntry
    requires legal { HasLegalProperties frames.now.statements frames.now.names }
    requires place { (1 ≤ at) × (at ≤ length frames.now.statements) }
    ensures { (label : Name) → IsPosition frames.now.statements label position
        → IsEntry frames.now.statements at label result }
{
    let Some(position) = position else {
        return LabelEntry::Nothing;
    };
    match frames.meaning(at, position) {
        Meaning::Hypothesis(_) => LabelEntry::Hypothesis(position),
        Meaning::Assertion => LabelEntry::Assertion(position),
        Meaning::Nothing => LabelEntry::Nothing,
    }
}

/// Fills the table with the meaning of each label for a proof at the position `at`.
///
/// Errors: an allocation fails. Cost: that of looking each label up.
pub fn fill_table(
    frames: &Frames,
    at: usize,
    labels: &Words,
    table: &mut Vec<LabelEntry>,
) -> Result<(), AllocError>
    requires place { (1 ≤ at) × (at ≤ length frames.now.statements) }
    ensures entries { OnOk result (AreEntries frames.now.statements at labels.now table.new.items) }
    ensures legal { HasLegalProperties frames.now.statements frames.now.names }
{
    let positions = frames.positions(labels)?;
    table.clear();
    for position in positions.as_slice() {
        table.push(entry_of(frames, at, *position))?;
    }
    Ok(())
}

/// Fills the list with the positions of the mandatory hypotheses of the `$p` at that position, and
/// the table with their meanings.
///
/// Errors: an allocation fails. Cost: that of `Frames::mandatory`.
pub fn fill_mandatory(
    frames: &Frames,
    at: usize,
    mandatory: &mut Vec<u32>,
    table: &mut Vec<LabelEntry>,
) -> Result<(), AllocError>
    requires { (s : Statement) × IsProvable frames.now.statements at s }
    ensures mandatory { OnOk result
        ((s : Statement) → IsProvable frames.now.statements at s
        → mandatory.new.items ≡ hypotheses (before frames.now.statements at) s) }
    ensures entries { OnOk result ((s : Statement) → IsProvable frames.now.statements at s
        → AreEntries frames.now.statements at (mandatory_labels frames.now.statements at s) table.new.items) }
    ensures legal { HasLegalProperties frames.now.statements frames.now.names }
{
    mandatory.clear();
    frames.mandatory(at, mandatory)?;
    table.clear();
    for position in mandatory.as_slice() {
        table.push(LabelEntry::Hypothesis(*position as usize))?;
    }
    Ok(())
}

/// Returns whether the entry is one of these hypotheses.
#[inline(always)]
fn is_among(entry: LabelEntry, hypotheses: &[u32]) -> bool
    requires { IsNonDecreasing hypotheses.now }
    ensures { result ≡ is_hypothesis_among hypotheses.now entry }
{
    match entry {
        LabelEntry::Hypothesis(position) => match u32::try_from(position) {
            Ok(position) => hypotheses.binary_search(&position).is_ok(),
            Err(_) => false,
        },
        _ => false,
    }
}

/// Appends the meaning of each label that a compressed proof at the position `at` lists between its
/// parentheses (its heading). Returns `false` if one of them is that of a mandatory hypothesis.
///
/// Errors: an allocation fails. Cost: that of looking each label up.
#[inline(always)]
pub fn add_listed(
    frames: &Frames,
    at: usize,
    mandatory: &[u32],
    heading: Heading<'_>,
    table: &mut Vec<LabelEntry>,
) -> Result<bool, AllocError>
    requires mandatory { (s : Statement) → IsProvable frames.now.statements at s
        → mandatory.now ≡ hypotheses (before frames.now.statements at) s }
    requires legal { HasLegalProperties frames.now.statements frames.now.names }
    requires provable { (s : Statement) × IsProvable frames.now.statements at s }
    requires listed { heading.count ≤ length heading.words }
    ensures entries { IfOk result
        (λ ok. IsTrue ok → (front : List Name) → AreEntries frames.now.statements at front table.old.items
        → AreEntries frames.now.statements at (front ++ take heading.entry.count heading.entry.words) table.new.items) }
    ensures apart { IfOk result (λ ok. (s : Statement) → IsProvable frames.now.statements at s
        → ok
        ≡ not (share_label (mandatory_labels frames.now.statements at s)
        (take heading.entry.count heading.entry.words))) }
{
    let mut words = heading.words;
    for _ in 0..heading.count {
        let Some(label) = words.next() else {
            unreachable!();
        };
        let entry = entry_of(frames, at, frames.position(label));
        if is_among(entry, mandatory) {
            return Ok(false);
        }
        table.push(entry)?;
    }
    Ok(true)
}
