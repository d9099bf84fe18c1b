//! Decides the rules G1 to G10, with a function for each shape of statement that can break a rule,
//! one for `$e`, `$a` and `$p` together.
ghost use Rattle.std.specs.Prelude.{◌≡◌, ◌==◌, Bool, true, false, not, ◌&&◌, ◌||◌, nat_lt, take};
ghost use Rattle.std.specs.Prelude.{length, Some, None, IfOk, ◌∷◌, [], is_some};
ghost use Rattle.std.specs.List.{list_all, list_any};
ghost use Rattle.mm_lex.specs.Alphabet.{has_name};
ghost use Rattle.mm_read.specs.declared.stmt.Stmt.TheVariants as stmt;
ghost use Rattle.scope.specs.Active.{is_constant, is_variable, was_label, was_symbol};
ghost use Rattle.scope.specs.Legal.{all_different, broken_rule};
ghost use Rattle.scope.specs.Stored.SymbolNumbers.{AreRecorded, are_numbers_distinct};
ghost use Rattle.scope.specs.Stored.Ordered.{DifferFromNext, HasEqualNeighbours};
ghost use Rattle.scope.specs.Kinds.{IsNumberOf};
ghost use Rattle.scope.specs.Sorts.{IsSort, RecordsSymbol, checked_symbols, is_symbol_sort};
ghost use Rattle.scope.specs.Sorts.{broken_by_sorts};
ghost use Rattle.scope.specs.Symbols.{symbols_of, symbols_after, symbols_in};

use crate::numbering::{NameKind, Numbering};
use crate::rule::Rule;
use crate::rules::Rules;
use crate::symbol_numbers::SymbolNumbers;
use mm_lex::{Word, Words};
use mm_read::Stmt;
use std::alloc::{AllocError, Global};
use std::marker::Model;

/// The least length of a list of names that is sorted to find equal ones. In a shorter list each
/// pair is compared.
const MIN_SORTED_LEN: usize = 16;

/// The sort of a name after the statements accepted so far. A `NameKind` says what a name was
/// declared as; a sort also says whether a variable is active, and whether it has an active `$f`.
#[derive(Clone, Copy, Debug, Drop, PartialEq, Eq)]
pub(crate) enum Sort {
    /// A declared constant.
    Constant,
    /// An active variable with an active `$f`.
    Typed,
    /// An active variable without an active `$f`.
    Untyped,
    /// A label.
    Label,
    /// None of these: it was never declared, or as a variable that is not active.
    Other,
}

/// Checks the rules for the next statement, by the state of the rules and the numbering of the
/// names. Contracts see the statements accepted so far.
#[derive(Drop)]
pub(crate) struct RuleChecker<'a> {
    pub(crate) rules: &'a Rules,
    pub(crate) names: &'a Numbering,
    pub(crate) alloc: Global,
}

impl<'a> Model for RuleChecker<'a> {
    ghost use Rattle.scope.specs.Accepted.{Accepted};
    ghost use Rattle.scope.specs.Kinds.{IsNumberingOf};

    ghost Value = { Accepted };

    ghost view = { λ a. a.rules.now };

    ghost invariant = { λ a. IsNumberingOf a.rules.now.statements a.names.now };
}

impl<'a> RuleChecker<'a> {
    /// Returns the least rule that the statement would break as the next one, or `None`.
    ///
    /// If it breaks none and recording has begun, the numbers of its symbols are recorded, or
    /// discarded if an allocation fails; for `$c` and `$v` they are discarded.
    pub(crate) fn broken_rule(&self, stmt: &Stmt, recorded: &mut SymbolNumbers) -> Option<Rule>
        requires { AreRecorded (symbols_of self.now.statements) [] recorded.old }
        ensures rule { result ≡ broken_rule self.now.statements stmt.now }
        ensures recorded { result ≡ None
            → AreRecorded (symbols_after self.now.statements stmt.now) (symbols_in stmt.now) recorded.new }
    {
        match stmt {
            Stmt::Disj(symbols) => self.broken_by_disjoint(symbols, recorded),
            Stmt::Float {
                label,
                constant,
                variable,
            } => self.broken_by_float(label, constant, variable, recorded),
            Stmt::Ess { label, expr } => self.broken_by_expression(label, expr, recorded),
            Stmt::Axiom { label, expr } => self.broken_by_expression(label, expr, recorded),
            Stmt::Prove { label, expr, .. } => self.broken_by_expression(label, expr, recorded),
            Stmt::Open => None,
            Stmt::Close => self.broken_by_close(),
            Stmt::Const(symbols) => {
                recorded.forget();
                self.broken_by_constants(symbols)
            }
            Stmt::Var(symbols) => {
                recorded.forget();
                self.broken_by_variables(symbols)
            }
        }
    }

    fn broken_by_close(&self) -> Option<Rule>
        ensures { result ≡ broken_rule self.now.statements stmt.Close }
    {
        if self.rules.is_closed() {
            return Some(Rule::G10);
        }
        None
    }

    fn broken_by_constants(&self, symbols: &Words) -> Option<Rule>
        ensures { result ≡ broken_rule self.now.statements (stmt.Const symbols.now) }
    {
        if !self.rules.is_closed() {
            return Some(Rule::G1);
        }
        if !self.are_undeclared(symbols) {
            return Some(Rule::G2);
        }
        if !are_words_distinct(self.alloc, symbols) {
            return Some(Rule::G2);
        }
        None
    }

    fn broken_by_variables(&self, symbols: &Words) -> Option<Rule>
        ensures { result ≡ broken_rule self.now.statements (stmt.Var symbols.now) }
    {
        if !self.may_be_variables(symbols) {
            return Some(Rule::G3);
        }
        if !are_words_distinct(self.alloc, symbols) {
            return Some(Rule::G3);
        }
        None
    }

    fn broken_by_disjoint(&self, symbols: &Words, recorded: &mut SymbolNumbers) -> Option<Rule>
        requires { AreRecorded (symbols_of self.now.statements) [] recorded.old }
        ensures rule { result ≡ broken_rule self.now.statements (stmt.Disj symbols.now) }
        ensures recorded { result ≡ None → AreRecorded (symbols_of self.now.statements) symbols.now recorded.new }
    {
        if !self.are_active(symbols, recorded) {
            return Some(Rule::G8);
        }
        if !self.are_distinct(symbols, recorded) {
            return Some(Rule::G8);
        }
        None
    }

    fn broken_by_float(
        &self,
        label: &Word,
        constant: &Word,
        variable: &Word,
        recorded: &mut SymbolNumbers,
    ) -> Option<Rule>
        requires { AreRecorded (symbols_of self.now.statements) [] recorded.old }
        ensures rule { result ≡ broken_rule self.now.statements (stmt.Float label.now constant.now variable.now) }
        ensures recorded { result ≡ None
            → AreRecorded (symbols_of self.now.statements) (constant.now ∷ variable.now ∷ []) recorded.new }
    {
        if !self.is_undeclared(label.as_bytes()) {
            return Some(Rule::G4);
        }
        let first = self.sort_and_record(constant.as_bytes(), recorded);
        let second = self.sort_and_record(variable.as_bytes(), recorded);
        broken_by_sorts(first, second)
    }

    /// Returns the least rule that a `$e`, `$a` or `$p` with this label and expression would break,
    /// or `None`. The same rules concern all three, so the clause speaks of a `$a` alone.
    fn broken_by_expression(
        &self,
        label: &Word,
        expr: &Words,
        recorded: &mut SymbolNumbers,
    ) -> Option<Rule>
        requires { AreRecorded (symbols_of self.now.statements) [] recorded.old }
        ensures rule { result ≡ broken_rule self.now.statements (stmt.Axiom label.now expr.now) }
        ensures recorded { result ≡ None → AreRecorded (symbols_of self.now.statements) expr.now recorded.new }
    {
        if !self.is_undeclared(label.as_bytes()) {
            return Some(Rule::G4);
        }
        let Some((constant_first, typed)) = self.check_symbols(expr, recorded) else {
            return Some(Rule::G5);
        };
        if !constant_first {
            return Some(Rule::G6);
        }
        if !typed {
            return Some(Rule::G9);
        }
        None
    }

    /// Returns whether the first symbol, if there is one, is a constant, and whether each variable
    /// has an active `$f`; or `None` if a symbol is neither a constant nor an active variable.
    fn check_symbols(&self, expr: &Words, recorded: &mut SymbolNumbers) -> Option<(bool, bool)>
        requires { AreRecorded (symbols_of self.now.statements) [] recorded.old }
        ensures symbols { result ≡ checked_symbols self.now.statements expr.now }
        ensures recorded { is_some result ≡ true → AreRecorded (symbols_of self.now.statements) expr.now recorded.new }
    {
        let mut symbols = expr.iter();
        let Some(first) = symbols.next() else {
            return Some((true, true));
        };
        let first_sort = self.sort_and_record(first, recorded);
        if matches!(first_sort, Sort::Label | Sort::Other) {
            return None;
        }
        let mut typed = !matches!(first_sort, Sort::Untyped);
        for symbol in symbols {
            match self.sort_and_record(symbol, recorded) {
                Sort::Constant | Sort::Typed => {}
                Sort::Untyped => typed = false,
                Sort::Label | Sort::Other => return None,
            }
        }
        Some((matches!(first_sort, Sort::Constant), typed))
    }

    fn are_undeclared(&self, symbols: &Words) -> bool
        ensures { result ≡ list_all
            (λ x. not (was_symbol self.now.statements x || was_label self.now.statements x)) symbols.now }
    {
        symbols.iter().all(|symbol| self.is_undeclared(symbol))
    }

    fn may_be_variables(&self, symbols: &Words) -> bool
        ensures { result ≡ list_all
            (λ x. not (is_variable self.now.statements x || is_constant self.now.statements x
            || was_label self.now.statements x)) symbols.now }
    {
        symbols.iter().all(|symbol| self.may_be_variable(symbol))
    }

    fn are_active(&self, symbols: &Words, recorded: &mut SymbolNumbers) -> bool
        requires { AreRecorded (symbols_of self.now.statements) [] recorded.old }
        ensures active { result ≡ list_all (λ x. is_variable self.now.statements x) symbols.now }
        ensures recorded { result ≡ true → AreRecorded (symbols_of self.now.statements) symbols.now recorded.new }
    {
        for symbol in symbols.iter() {
            let sort = self.sort_and_record(symbol, recorded);
            if !matches!(sort, Sort::Typed | Sort::Untyped) {
                return false;
            }
        }
        true
    }

    /// Returns whether the symbols are distinct. Compares the recorded numbers if the list is
    /// short.
    fn are_distinct(&self, symbols: &Words, recorded: &SymbolNumbers) -> bool
        requires { AreRecorded (symbols_of self.now.statements) symbols.now recorded.now }
        ensures { result ≡ all_different symbols.now }
    {
        if let Some(numbers) = recorded.numbers() {
            if numbers.len() < MIN_SORTED_LEN {
                return are_numbers_distinct(numbers);
            }
        }
        are_words_distinct(self.alloc, symbols)
    }

    /// Returns the sort of a name.
    pub(crate) fn sort(&self, name: &[u8]) -> Sort
        ensures { IsSort self.now.statements name.now result }
    {
        self.look_up(name).0
    }

    /// Returns the sort of a name, and records the number of a symbol.
    #[inline(always)]
    fn sort_and_record(&self, name: &[u8], recorded: &mut SymbolNumbers) -> Sort
        ensures sort { IsSort self.now.statements name.now result }
        ensures recorded { RecordsSymbol self.now.statements name.now result recorded.old recorded.new }
    {
        let (sort, number) = self.look_up(name);
        recorded.record_number(number);
        sort
    }

    /// Returns the sort of a name, and its number if it is a symbol.
    #[inline(always)]
    fn look_up(&self, name: &[u8]) -> (Sort, u32)
        ensures sort { IsSort self.now.statements name.now result.0 }
        ensures number { is_symbol_sort result.0 ≡ true
            → IsNumberOf (symbols_of self.now.statements) name.now result.1 }
    {
        match self.names.find(name) {
            Some((number, NameKind::Constant)) => (Sort::Constant, number),
            Some((number, NameKind::Variable)) => (self.rules.sort_of_variable(number), number),
            Some((_, NameKind::Label)) => (Sort::Label, 0),
            None => (Sort::Other, 0),
        }
    }

    /// Returns whether a name was never declared, as a label or as a symbol.
    fn is_undeclared(&self, name: &[u8]) -> bool
        ensures { result ≡ not (was_symbol self.now.statements name.now || was_label self.now.statements name.now) }
    {
        self.names.find(name).is_none()
    }

    /// Returns whether a name may be declared as a variable.
    fn may_be_variable(&self, name: &[u8]) -> bool
        ensures { result ≡ not
            (is_variable self.now.statements name.now || is_constant self.now.statements name.now
            || was_label self.now.statements name.now) }
    {
        matches!(self.sort(name), Sort::Other)
    }
}

/// Returns the least of the rules G5 to G7 that the two symbols of a `$f` break, by their sorts.
fn broken_by_sorts(constant: Sort, variable: Sort) -> Option<Rule>
    ensures { result ≡ broken_by_sorts constant variable }
{
    if matches!(constant, Sort::Label | Sort::Other) {
        return Some(Rule::G5);
    }
    if matches!(variable, Sort::Label | Sort::Other) {
        return Some(Rule::G5);
    }
    if !matches!(constant, Sort::Constant) {
        return Some(Rule::G6);
    }
    if !matches!(variable, Sort::Untyped) {
        return Some(Rule::G7);
    }
    None
}

/// Returns whether the numbers are distinct. Cost: the square of their count.
fn are_numbers_distinct(numbers: &[u32]) -> bool
    ensures { result ≡ are_numbers_distinct numbers.now }
{
    let mut left = numbers;
    while let [first, others @ ..] = left {
        if others.contains(first) {
            return false;
        }
        left = others;
    }
    true
}

/// Returns whether the words are distinct. Cost: that of sorting the list or, if an allocation
/// fails, the square of its length.
fn are_words_distinct(alloc: Global, words: &Words) -> bool
    ensures { result ≡ all_different words.now }
{
    if words.len() < MIN_SORTED_LEN {
        return are_distinct_pairwise(words);
    }
    match are_distinct_by_sorting(alloc, words) {
        Ok(differ) => differ,
        Err(AllocError) => are_distinct_pairwise(words),
    }
}

/// Returns whether the words are distinct, by sorting them, so that equal words are neighbours.
fn are_distinct_by_sorting(alloc: Global, words: &Words) -> Result<bool, AllocError>
    ensures { IfOk result (λ differ. differ ≡ all_different words.now) }
{
    let mut ordered = Vec::new(alloc);
    for word in words.iter() {
        ordered.push(word)?;
    }
    ordered.sort_unstable();
    Ok(are_neighbours_distinct(&ordered))
}

/// Returns whether no word equals the one before it.
fn are_neighbours_distinct(words: &[&[u8]]) -> bool
    ensures yes { result ≡ true → DifferFromNext words.now (length words.now) }
    ensures no { result ≡ false → HasEqualNeighbours words.now }
{
    for i in 1..words.len() {
        if words[i - 1] == words[i] {
            return false;
        }
    }
    true
}

/// Returns whether the words are distinct, without allocating. Cost: the square of their count.
fn are_distinct_pairwise(words: &Words) -> bool
    ensures { result ≡ all_different words.now }
{
    if words.len() < 2 {
        return true;
    }
    for (i, word) in words.iter().enumerate() {
        if is_among_first(words, i, word) {
            return false;
        }
    }
    true
}

/// Returns whether a word is among the first `end` ones.
fn is_among_first(words: &Words, end: usize, word: &[u8]) -> bool
    ensures { result ≡ has_name word.now (take end words.now) }
{
    words.iter().take(end).any(|other| word == other)
}
