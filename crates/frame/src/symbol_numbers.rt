//! Looks up the numbers of symbols and labels.
ghost use Rattle.std.specs.Prelude.{◌≡◌, ◌++◌, ◌∷◌, [], IfSome, IfNone, false};
ghost use Rattle.mm_read.specs.Statements.{Expr};
ghost use Rattle.names.specs.Codes.{with_names};
ghost use Rattle.scope.specs.Kinds.{declared_symbols, declared_labels, is_some_label, kind_in};
ghost use Rattle.scope.specs.Kinds.{IsNumberOf};
ghost use Rattle.scope.specs.Stored.SymbolNumbers.{AreRecorded};
ghost use Rattle.scope.specs.Symbols.{symbols_declared_by, symbols_in};
ghost use Rattle.frame.specs.Stored.Naming.{is_kind_of_symbol};

use mm_lex::Words;
use mm_read::Stmt;
use scope::{NameKind, Numbering, SymbolNumbers};

/// Returns the number of a symbol, or `None` if the word is not a symbol.
pub fn symbol_number(numbering: &Numbering, word: &[u8]) -> Option<u32>
    ensures found { IfSome result (λ n. IsNumberOf (declared_symbols numbering.now) word.now n) }
    ensures none { IfNone result (is_kind_of_symbol (kind_in numbering.now word.now) ≡ false) }
{
    match numbering.find(word) {
        Some((number, NameKind::Constant)) => Some(number),
        Some((number, NameKind::Variable)) => Some(number),
        Some((_, NameKind::Label)) => None,
        None => None,
    }
}

/// Returns the number of a label, or `None` if the word is not a label.
#[inline(always)]
pub fn label_number(numbering: &Numbering, word: &[u8]) -> Option<u32>
    ensures found { IfSome result (λ n. IsNumberOf (declared_labels numbering.now) word.now n) }
    ensures none { IfNone result (is_some_label (kind_in numbering.now word.now) ≡ false) }
{
    match numbering.find(word) {
        Some((number, NameKind::Label)) => Some(number),
        Some((_, NameKind::Constant)) => None,
        Some((_, NameKind::Variable)) => None,
        None => None,
    }
}

/// Records the number of a symbol. If it has none, nothing is recorded of the whole list.
fn record_symbol(numbering: &Numbering, word: &[u8], recorded: &mut SymbolNumbers)
    ensures { (xs : Expr) → AreRecorded (declared_symbols numbering.now) xs recorded.old
        → AreRecorded (declared_symbols numbering.now) (xs ++ word.now ∷ []) recorded.new }
{
    match symbol_number(numbering, word) {
        Some(number) => recorded.record_number(number),
        None => recorded.forget(),
    }
}

/// Records the numbers of the symbols of a list, and no others.
fn record_list(numbering: &Numbering, words: &Words, recorded: &mut SymbolNumbers)
    ensures { AreRecorded (declared_symbols numbering.now) words.now recorded.new }
{
    recorded.begin();
    for word in words.iter() {
        record_symbol(numbering, word, recorded);
    }
}

/// Records the numbers of the symbols of a statement, if they are not recorded yet. The symbols
/// that it declares have no numbers yet.
pub fn find_numbers(numbering: &Numbering, stmt: &Stmt, recorded: &mut SymbolNumbers)
    requires { AreRecorded (with_names (declared_symbols numbering.now) (symbols_declared_by stmt.now))
        (symbols_in stmt.now) recorded.old }
    ensures { AreRecorded (with_names (declared_symbols numbering.now) (symbols_declared_by stmt.now))
        (symbols_in stmt.now) recorded.new }
{
    if recorded.numbers().is_some() {
        return;
    }
    match stmt {
        Stmt::Open | Stmt::Close => recorded.begin(),
        Stmt::Const(_) | Stmt::Var(_) => {}
        Stmt::Disj(words) => record_list(numbering, words, recorded),
        Stmt::Float {
            constant,
            variable,
            ..
        } => {
            recorded.begin();
            record_symbol(numbering, constant.as_bytes(), recorded);
            record_symbol(numbering, variable.as_bytes(), recorded);
        }
        Stmt::Ess { expr, .. } | Stmt::Axiom { expr, .. } | Stmt::Prove { expr, .. } => {
            record_list(numbering, expr, recorded)
        }
    }
}
