//! Finds the first symbol of a list that has a fault, and the first that repeats an earlier one.
ghost use Rattle.std.specs.Prelude.{◌≡◌, ℕ, Bool, ◌||◌, false, true, IfOk, MatchOption, map};
ghost use Rattle.std.specs.Prelude.{replicate, length};
ghost use Rattle.std.specs.List.{list_any};
ghost use Rattle.mm_lex.specs.Alphabet.{Name};
ghost use Rattle.names.specs.Codes.{HaveCodes};
ghost use Rattle.scope.specs.Active.{is_constant, is_variable};
ghost use Rattle.scope.specs.Legal.{all_different};
ghost use Rattle.rule_violation.specs.Marks.{is_fault_if_absent};
ghost use Rattle.rule_violation.specs.Search.{has_fault, IsNamePassingAt};
ghost use Rattle.rule_violation.specs.Violations.{IsRepeated};

use crate::marks::{mark_active, mark_earlier, mark_of, name_table};
use crate::search::{NameRole, find_active, find_earlier};
use crate::violation::RuleViolation;
use mm_lex::Words;
use mm_read::Stmt;
use names::NameTable;
use std::alloc::{AllocError, Global};

/// A fault by which a symbol of a statement breaks a rule.
#[derive(Clone, Copy, Drop)]
pub(crate) enum SymbolFault {
    /// It is an earlier label or was declared as a symbol.
    AlreadyUsed,
    /// It is an active variable or an earlier label, or was declared as a constant.
    NotNewVariable,
    /// It is neither a constant nor an active variable.
    Unknown,
    /// It is not an active variable.
    NotActiveVariable,
    /// It is a variable and has no active `$f`.
    Untyped,
}

/// Returns the index of the first of the words with this fault, and the word, or `None` if none has
/// it.
///
/// Cost: one or two passes over the statements, with a look-up of each label, declared symbol or
/// variable of a `$f` that the fault is about.
pub(crate) fn first_with_fault<'a>(
    alloc: Global,
    earlier: &[Stmt],
    words: &'a Words,
    fault: SymbolFault,
) -> Result<Option<(usize, &'a [u8])>, AllocError>
    ensures { IfOk result (λ found. MatchOption found (list_any (has_fault earlier.now fault) words.entry.now ≡ false)
        (λ r. IsNamePassingAt words.entry.now (has_fault earlier.now fault) r.0 r.1.now)) }
{
    let names = name_table(alloc, words)?;
    let mut marks = vec![in alloc; is_fault_if_absent(fault); names.len()]?;
    mark_faulty(&names, earlier, fault, &mut marks);
    Ok(first_marked(&names, &marks, words))
}

/// Returns whether a name has this fault if no earlier statement has it as its label, declares it
/// or is a `$f` for it.
fn is_fault_if_absent(fault: SymbolFault) -> bool
    ensures { result ≡ is_fault_if_absent fault }
{
    matches!(fault, SymbolFault::Unknown | SymbolFault::NotActiveVariable)
}

/// Sets the mark of each name to whether it has this fault.
fn mark_faulty(names: &NameTable, earlier: &[Stmt], fault: SymbolFault, marks: &mut [bool])
    requires { marks.old ≡ replicate (length names.now) (is_fault_if_absent fault) }
    ensures { marks.new ≡ map (has_fault earlier.now fault) names.now }
{
    match fault {
        SymbolFault::AlreadyUsed => mark_earlier(
            names,
            earlier,
            NameRole::LabelOrSymbol,
            true,
            marks,
        ),
        SymbolFault::NotNewVariable => {
            mark_earlier(names, earlier, NameRole::LabelOrConstant, true, marks);
            mark_active(names, earlier, NameRole::DeclaredVariable, true, marks);
        }
        SymbolFault::Unknown => {
            mark_earlier(names, earlier, NameRole::DeclaredConstant, false, marks);
            mark_active(names, earlier, NameRole::DeclaredVariable, false, marks);
        }
        SymbolFault::NotActiveVariable => mark_active(
            names,
            earlier,
            NameRole::DeclaredVariable,
            false,
            marks,
        ),
        SymbolFault::Untyped => {
            mark_active(names, earlier, NameRole::DeclaredVariable, true, marks);
            mark_active(names, earlier, NameRole::FloatVariable, false, marks);
        }
    }
}

/// Returns the index of the first of the words that has a mark, and the word, or `None` if none has
/// one.
fn first_marked<'a>(
    names: &NameTable,
    marks: &[bool],
    words: &'a Words,
) -> Option<(usize, &'a [u8])>
    requires count { length marks.now ≡ length names.now }
    requires named { HaveCodes names.now words.now }
    ensures { (test : Name → Bool) → marks.now ≡ map test names.now
        → MatchOption result (list_any test words.entry.now ≡ false)
        (λ r. IsNamePassingAt words.entry.now test r.0 r.1.now) }
{
    let mut left = words.iter();
    for index in 0..words.len() {
        let Some(name) = left.next() else {
            return None;
        };
        if mark_of(names, marks, name) {
            return Some((index, name));
        }
    }
    None
}

/// Returns whether the name is a constant or an active variable.
pub(crate) fn is_known_symbol(earlier: &[Stmt], name: &[u8]) -> bool
    ensures { result ≡ (is_constant earlier.now name.now || is_variable earlier.now name.now) }
{
    is_constant(earlier, name) || is_variable(earlier, name)
}

/// Returns whether an earlier `$c` declares the name.
pub(crate) fn is_constant(earlier: &[Stmt], name: &[u8]) -> bool
    ensures { result ≡ is_constant earlier.now name.now }
{
    find_earlier(earlier, NameRole::DeclaredConstant, name).is_some()
}

/// Returns whether an active `$v` declares the name.
pub(crate) fn is_variable(earlier: &[Stmt], name: &[u8]) -> bool
    ensures { result ≡ is_variable earlier.now name.now }
{
    find_active(earlier, NameRole::DeclaredVariable, name).is_some()
}

/// Returns the first word that repeats an earlier one, as `Twice` with the indexes of both, or
/// `None` if the words are distinct.
pub(crate) fn first_repeated(
    alloc: Global,
    words: &Words,
) -> Result<Option<RuleViolation>, AllocError>
    ensures { IfOk result (λ found. MatchOption found (all_different words.now ≡ true) (IsRepeated words.now)) }
{
    let mut names = NameTable::new(alloc);
    for word in words.iter() {
        let index = names.len();
        let first = names.find_or_add(alloc, word)?;
        if first < index {
            return Ok(Some(RuleViolation::Twice {
                first,
                second: index,
            }));
        }
    }
    Ok(None)
}
