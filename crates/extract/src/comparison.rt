//! Compares a part of a database with the whole.
ghost use Rattle.std.specs.Prelude.{◌≡◌, ℕ, ◌+◌, ◌<◌, ◌∷◌, ◌++◌, [], map, length, true, IsTrue};
ghost use Rattle.std.specs.Prelude.{IfOk, Some, slice_get};
ghost use Rattle.mm_read.specs.Statements.{IsShaped, AreShaped};
ghost use Rattle.scope.specs.Active.{bare, is_assertion, stmt_at};
ghost use Rattle.extract.specs.Parts.{IsPartOf};
ghost use Rattle.extract.specs.Walk.{is_listed_assertion, HaveSameListedAssertions, IsSameFrame};
ghost use Rattle.extract.specs.Walk.{IsWalked};

use crate::label_search::is_among;
use frame::{Frame, frame};
use mm_lex::{Word, Words};
use mm_read::Stmt;
use scope::{Rule, Scope, Steps};
use std::alloc::{AllocError, Global};

/// The state of a walk over both lists of statements in parallel.
#[derive(Drop)]
struct Walk {
    /// The scope after those statements of the whole that were passed.
    whole_scope: Scope,
    /// The scope after those statements of the part that were found.
    part_scope: Scope,
    /// The number of statements of the part that were found.
    found_count: usize,
}

/// Returns true only if the statements of `part` are some of those of `whole`, in order, and for
/// each of the labels that an assertion of `whole` has, both have an assertion with that label,
/// with the same expression, proof, mandatory hypotheses and mandatory pairs of disjoint variables.
///
/// Errors: an allocation fails. Cost: applying the rules to both, a comparison of each statement of
/// `whole` with one of `part` and of each assertion with each label, and the frames of the
/// assertions that have one of the labels.
pub fn is_confirmed_part(
    alloc: Global,
    whole: &[Stmt],
    part: &[Stmt],
    labels: &[&str],
) -> Result<bool, AllocError>
    requires { AreShaped whole.now }
    ensures part { IfOk result (λ yes. yes ≡ true → IsPartOf part.now whole.now) }
    ensures assertions { IfOk result
        (λ yes. yes ≡ true
        → HaveSameListedAssertions whole.now part.now (map (λ label. label.now) labels.now) (length whole.now)) }
{
    let mut walk = Walk {
        whole_scope: Scope::new(alloc),
        part_scope: Scope::new(alloc),
        found_count: 0,
    };
    walk_to_end(alloc, whole, part, labels, &mut walk)
}

/// Walks over both lists from the start. Returns false if `advance` does, or if statements of the
/// part are left at the end.
fn walk_to_end(
    alloc: Global,
    whole: &[Stmt],
    part: &[Stmt],
    labels: &[&str],
    walk: &mut Walk,
) -> Result<bool, AllocError>
    requires shaped { AreShaped whole.now }
    requires begins { IsWalked whole.now part.now
        (map (λ label. label.now) labels.now) 0 walk.old.found_count walk.old.whole_scope.statements walk.old.part_scope.statements }
    ensures part { IfOk result (λ yes. yes ≡ true → IsPartOf part.now whole.now) }
    ensures assertions { IfOk result
        (λ yes. yes ≡ true
        → HaveSameListedAssertions whole.now part.now (map (λ label. label.now) labels.now) (length whole.now)) }
{
    for index in 0..whole.len() {
        if !advance(alloc, whole, part, labels, index, walk)? {
            return Ok(false);
        }
    }
    Ok(walk.found_count == part.len())
}

/// Advances past the statement of the whole at an index. Returns false if it is a listed assertion
/// that is not next in the part or has another frame there, or if it breaks a rule.
fn advance(
    alloc: Global,
    whole: &[Stmt],
    part: &[Stmt],
    labels: &[&str],
    index: usize,
    walk: &mut Walk,
) -> Result<bool, AllocError>
    requires shaped { AreShaped whole.now }
    requires within { index < length whole.now }
    ensures { IfOk result (λ yes. yes ≡ true
        → IsWalked whole.now part.now
        (map (λ label. label.now) labels.now) index walk.old.found_count walk.old.whole_scope.statements walk.old.part_scope.statements
        → IsWalked whole.now part.now (map (λ label. label.now) labels.now)
        (index + 1) walk.new.found_count walk.new.whole_scope.statements walk.new.part_scope.statements) }
{
    let statement = &whole[index];
    let listed = is_listed(statement, labels);
    if !has_statement_at(part, walk.found_count, statement) {
        return if listed {
            Ok(false)
        } else {
            add_if_legal(&mut walk.whole_scope, statement)
        };
    }
    if !has_same_frame_if_listed(alloc, whole, part, walk, listed, statement)? {
        return Ok(false);
    }
    pass_both(walk, statement, walk.found_count + 1)
}

/// Advances past a statement that is next in both lists. Returns whether both scopes accept it.
fn pass_both(walk: &mut Walk, statement: &Stmt, found_count: usize) -> Result<bool, AllocError>
    requires { IsShaped statement.now }
    ensures found_count { walk.new.found_count ≡ found_count }
    ensures whole { IfOk result
        (λ yes. yes ≡ true
        → walk.new.whole_scope.statements ≡ walk.old.whole_scope.statements ++ bare statement.now ∷ []) }
    ensures part { IfOk result
        (λ yes. yes ≡ true
        → walk.new.part_scope.statements ≡ walk.old.part_scope.statements ++ bare statement.now ∷ []) }
{
    walk.found_count = found_count;
    if !add_if_legal(&mut walk.part_scope, statement)? {
        return Ok(false);
    }
    add_if_legal(&mut walk.whole_scope, statement)
}

/// Adds the statement to the scope if it is legal there. Returns whether it is.
fn add_if_legal(scope: &mut Scope, statement: &Stmt) -> Result<bool, AllocError>
    requires { IsShaped statement.now }
    ensures { IfOk result (λ yes. yes ≡ true → scope.new.statements ≡ scope.old.statements ++ bare statement.now ∷ []) }
{
    match scope.add(statement, &mut Steps::new()) {
        Ok(()) => Ok(true),
        Err(Rule::Memory) => Err(AllocError),
        Err(_) => Ok(false),
    }
}

/// Returns whether the statement is an assertion with one of these labels.
fn is_listed(statement: &Stmt, labels: &[&str]) -> bool
    ensures { result ≡ is_listed_assertion (map (λ label. label.now) labels.now) statement.now }
{
    match statement {
        Stmt::Axiom { label, .. } => is_among(label.as_bytes(), labels),
        Stmt::Prove { label, .. } => is_among(label.as_bytes(), labels),
        _ => false,
    }
}

/// Returns whether there is a statement at an index, from 0, that is equal to this one.
fn has_statement_at(statements: &[Stmt], index: usize, statement: &Stmt) -> bool
    ensures equal { result ≡ true → slice_get statements.now index ≡ Some statement.now }
    ensures within { result ≡ true → index < length statements.now }
{
    match statements.get(index) {
        Some(found) => are_statements_equal(found, statement),
        None => false,
    }
}

/// Returns whether a listed assertion that is next in both lists has the same frame in both, and
/// true for any other statement. `listed` is whether it is an assertion with one of the labels.
fn has_same_frame_if_listed(
    alloc: Global,
    whole: &[Stmt],
    part: &[Stmt],
    walk: &Walk,
    listed: bool,
    statement: &Stmt,
) -> Result<bool, AllocError>
    requires { listed ≡ true → IsTrue (is_assertion statement.now) }
    ensures { IfOk result
        (λ yes. yes ≡ true → listed ≡ true
        → IsSameFrame whole.now part.now walk.now.whole_scope.statements walk.now.part_scope.statements statement.now) }
{
    if !listed {
        return Ok(true);
    }
    let whole_frame = frame(alloc, &walk.whole_scope, statement)?;
    let part_frame = frame(alloc, &walk.part_scope, statement)?;
    Ok(are_frames_equal(whole, part, &whole_frame, &part_frame))
}

/// Returns whether two frames have equal statements as hypotheses, and the same groups of disjoint
/// variables.
fn are_frames_equal(whole: &[Stmt], part: &[Stmt], whole_frame: &Frame, part_frame: &Frame) -> bool
    ensures positions { result ≡ true
        → map (stmt_at whole.now) whole_frame.now.hypotheses ≡ map (stmt_at part.now) part_frame.now.hypotheses }
    ensures groups { result ≡ true → whole_frame.now.groups ≡ part_frame.now.groups }
{
    are_statements_equal_at_each(
        whole,
        part,
        whole_frame.hypotheses(),
        part_frame.hypotheses(),
    ) && are_groups_equal(whole_frame.groups(), part_frame.groups())
}

/// Returns whether the statements at these positions, from 1, of the two lists are equal.
fn are_statements_equal_at_each(
    whole: &[Stmt],
    part: &[Stmt],
    whole_positions: &[usize],
    part_positions: &[usize],
) -> bool
    ensures { result ≡ true → map (stmt_at whole.now) whole_positions.now ≡ map (stmt_at part.now) part_positions.now }
{
    if whole_positions.len() != part_positions.len() {
        return false;
    }
    for index in 0..whole_positions.len() {
        if !are_statements_equal_at(whole, part, whole_positions[index], part_positions[index]) {
            return false;
        }
    }
    true
}

/// Returns whether there are equal statements at two positions, from 1.
fn are_statements_equal_at(
    whole: &[Stmt],
    part: &[Stmt],
    whole_position: usize,
    part_position: usize,
) -> bool
    ensures { result ≡ true → stmt_at whole.now whole_position ≡ stmt_at part.now part_position }
{
    if whole_position == 0 || part_position == 0 {
        return false;
    }
    match whole.get(whole_position - 1) {
        Some(statement) => has_statement_at(part, part_position - 1, statement),
        None => false,
    }
}

/// Returns whether the groups of disjoint variables are equal.
fn are_groups_equal(left: &[Words], right: &[Words]) -> bool
    ensures { result ≡ true → left.now ≡ right.now }
{
    if left.len() != right.len() {
        return false;
    }
    for index in 0..left.len() {
        if !are_word_lists_equal(&left[index], &right[index]) {
            return false;
        }
    }
    true
}

/// Returns whether two statements are equal.
fn are_statements_equal(left: &Stmt, right: &Stmt) -> bool
    ensures { result ≡ true → left.now ≡ right.now }
{
    match left {
        Stmt::Open => matches!(right, Stmt::Open),
        Stmt::Close => matches!(right, Stmt::Close),
        Stmt::Const(left_names) => match right {
            Stmt::Const(right_names) => are_word_lists_equal(left_names, right_names),
            _ => false,
        },
        Stmt::Var(left_names) => match right {
            Stmt::Var(right_names) => are_word_lists_equal(left_names, right_names),
            _ => false,
        },
        Stmt::Disj(left_names) => match right {
            Stmt::Disj(right_names) => are_word_lists_equal(left_names, right_names),
            _ => false,
        },
        _ => are_labelled_statements_equal(left, right),
    }
}

/// Returns whether two statements with labels are equal.
fn are_labelled_statements_equal(left: &Stmt, right: &Stmt) -> bool
    ensures { result ≡ true → left.now ≡ right.now }
{
    match (left, right) {
        (
            Stmt::Float {
                label: left_label,
                constant: left_constant,
                variable: left_variable,
            },
            Stmt::Float {
                label: right_label,
                constant: right_constant,
                variable: right_variable,
            },
        ) => {
            are_words_equal(left_label, right_label)
                && are_words_equal(left_constant, right_constant)
                && are_words_equal(left_variable, right_variable)
        }
        (
            Stmt::Ess {
                label: left_label,
                expr: left_expr,
            },
            Stmt::Ess {
                label: right_label,
                expr: right_expr,
            },
        ) => are_words_equal(left_label, right_label)
            && are_word_lists_equal(left_expr, right_expr),
        (
            Stmt::Axiom {
                label: left_label,
                expr: left_expr,
            },
            Stmt::Axiom {
                label: right_label,
                expr: right_expr,
            },
        ) => are_words_equal(left_label, right_label)
            && are_word_lists_equal(left_expr, right_expr),
        (
            Stmt::Prove {
                label: left_label,
                expr: left_expr,
                proof: left_proof,
            },
            Stmt::Prove {
                label: right_label,
                expr: right_expr,
                proof: right_proof,
            },
        ) => {
            are_words_equal(left_label, right_label)
                && are_word_lists_equal(left_expr, right_expr)
                && are_word_lists_equal(left_proof, right_proof)
        }
        _ => false,
    }
}

fn are_words_equal(left: &Word, right: &Word) -> bool
    ensures { result ≡ true → left.now ≡ right.now }
{
    left.as_bytes() == right.as_bytes()
}

fn are_word_lists_equal(left: &Words, right: &Words) -> bool
    ensures { result ≡ true → left.now ≡ right.now }
{
    left.as_text() == right.as_text()
}
