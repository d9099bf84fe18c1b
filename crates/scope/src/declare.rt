//! Adds to the numbering the names that a legal statement declares.
ghost use Rattle.std.specs.Prelude.{◌≡◌, ◌++◌, None, true, false, IfOk, OnOk, OnErr};
ghost use Rattle.mm_lex.specs.Alphabet.{Name, has_name};
ghost use Rattle.scope.specs.Kinds.{Declared, IsNumberOf, declared_symbols, is_some_label};
ghost use Rattle.scope.specs.Kinds.{is_symbol_kind, kind_in, with_kind, with_kinds};
ghost use Rattle.scope.specs.Declares.{IsRecordedBy, MayDeclare, declared_with};
ghost use Rattle.scope.specs.Stored.SymbolNumbers.{AreRecorded};
ghost use Rattle.scope.specs.declared.numbering.NameKind.TheVariants as shape_kind;

use crate::numbering::{NameKind, Numbering};
use crate::symbol_numbers::SymbolNumbers;
use mm_lex::{Word, Words};
use mm_read::Stmt;
use std::alloc::{AllocError, Global};

/// Appends the label that a legal statement declares, and those of the symbols it declares that are
/// not there yet, and records the numbers of all symbols of a `$c` or a `$v`.
///
/// Errors: an allocation fails; the earlier names are then unchanged, but new ones may be appended.
/// Cost: the statement's size, and that of `NameTable::add` for each new name.
pub fn declare_names(
    names: &mut Numbering,
    alloc: Global,
    stmt: &Stmt,
    recorded: &mut SymbolNumbers,
) -> Result<(), AllocError>
    requires { MayDeclare names.old stmt.now }
    ensures names { OnOk result (names.new ≡ declared_with names.old stmt.now) }
    ensures recorded { OnOk result (IsRecordedBy names.new stmt.now recorded.old recorded.new) }
    ensures more { (more : Declared) × (names.new ≡ names.old ++ more) }
{
    match stmt {
        Stmt::Const(symbols) => declare_symbols(
            names,
            alloc,
            symbols,
            NameKind::Constant,
            recorded,
        ),
        Stmt::Var(symbols) => declare_symbols(names, alloc, symbols, NameKind::Variable, recorded),
        Stmt::Float { label, .. } => declare_label(names, alloc, label),
        Stmt::Ess { label, .. } => declare_label(names, alloc, label),
        Stmt::Axiom { label, .. } => declare_label(names, alloc, label),
        Stmt::Prove { label, .. } => declare_label(names, alloc, label),
        Stmt::Open => Ok(()),
        Stmt::Close => Ok(()),
        Stmt::Disj(_) => Ok(()),
    }
}

/// Declares a label that is not yet declared.
fn declare_label(names: &mut Numbering, alloc: Global, label: &Word) -> Result<(), AllocError>
    requires { kind_in names.old label.now ≡ None }
    ensures ok { OnOk result (names.new ≡ with_kind names.old shape_kind.Label label.now) }
    ensures err { OnErr result (names.new ≡ names.old) }
{
    names.declare(alloc, label.as_bytes(), NameKind::Label)?;
    Ok(())
}

/// Declares each of the symbols that is not yet declared, and records the numbers of all.
fn declare_symbols(
    names: &mut Numbering,
    alloc: Global,
    symbols: &Words,
    kind: NameKind,
    recorded: &mut SymbolNumbers,
) -> Result<(), AllocError>
    requires symbol { is_symbol_kind kind ≡ true }
    requires free { (x : Name) → has_name x symbols.now ≡ true → is_some_label (kind_in names.old x) ≡ false }
    ensures ok { OnOk result (names.new ≡ with_kinds names.old kind symbols.now) }
    ensures recorded { OnOk result (AreRecorded (declared_symbols names.new) symbols.now recorded.new) }
    ensures more { (more : Declared) × (names.new ≡ names.old ++ more) }
{
    recorded.begin();
    for symbol in symbols.iter() {
        let number = declare_symbol(names, alloc, symbol, kind)?;
        recorded.record_number(number);
    }
    Ok(())
}

/// Declares a symbol if it is not yet declared, and returns its number. A variable may have been
/// declared before, in a block that is now closed.
fn declare_symbol(
    names: &mut Numbering,
    alloc: Global,
    symbol: &[u8],
    kind: NameKind,
) -> Result<u32, AllocError>
    requires is_symbol { is_symbol_kind kind ≡ true }
    requires free { is_some_label (kind_in names.old symbol.now) ≡ false }
    ensures ok { OnOk result (names.new ≡ with_kind names.old kind symbol.now) }
    ensures number { IfOk result (λ n. IsNumberOf (declared_symbols names.new) symbol.now n) }
    ensures more { (more : Declared) × (names.new ≡ names.old ++ more) }
{
    match names.find(symbol) {
        Some((number, _)) => Ok(number),
        None => {
            let number = names.declare(alloc, symbol, kind)?;
            Ok(number)
        }
    }
}
