//! Labels and symbols as numbers, in the order of their first declaration.
ghost use Rattle.std.specs.Prelude.{◌≡◌, ℕ, ◌+◌, ◌-◌, ◌<◌, ◌≤◌, ◌^◌, [], ◌∷◌, ◌++◌, take, length};
ghost use Rattle.std.specs.Prelude.{option_map, slice_get, IfOk, IfSome, OnOk, OnErr, None, Some};
ghost use Rattle.std.specs.Prelude.{if◌then◌else◌};
ghost use Rattle.names.specs.Codes.{name_at};
ghost use Rattle.scope.specs.Kinds.{declared_symbols, declared_labels, names_of_kind, kind_in};
ghost use Rattle.scope.specs.Kinds.{is_symbol_kind, is_label_kind, IsNumberOf};

use entries::give_back;
use names::NameTable;
use std::alloc::{AllocError, Global};
use std::marker::Model;

/// The kind of a name. In legal statements a name that is declared as one kind is never declared as
/// another.
#[derive(Clone, Copy, Debug, Drop, PartialEq, Eq)]
pub enum NameKind {
    Label,
    Constant,
    Variable,
}

/// The kind of a name, and how many of the earlier names are symbols, from which its number
/// follows.
#[derive(Clone, Copy, Debug, Drop, PartialEq, Eq)]
pub struct CountedKind {
    pub kind: NameKind,
    pub earlier_symbols: u32,
}

/// The labels and the declared symbols, in the order of their first declaration. Contracts see the
/// list of the names, each with its kind.
///
/// A symbol's number is its index among the symbols, a label's number its index among the labels.
/// Both are in one table, so that a name is looked up once, whatever its kind.
#[derive(Drop)]
pub struct Numbering {
    names: NameTable,
    /// The kind of each name, by the index of the name in `names`.
    entries: Vec<CountedKind>,
    /// The index of each symbol in `names`, by the symbol's number.
    symbols: Vec<u32>,
    /// The index of each label in `names`, by the label's number.
    labels: Vec<u32>,
}

impl Model for Numbering {
    ghost use Rattle.std.specs.Prelude.{ℕ, List};
    ghost use Rattle.scope.specs.Stored.KindCounts.{kinds_of, IsCounted};
    ghost use Rattle.scope.specs.Kinds.{zip_kinds};
    ghost use Rattle.scope.specs.declared.numbering.NameKind.{NameKind};

    ghost Value = { List (List ℕ × NameKind) };

    ghost view = { λ a. zip_kinds a.names (kinds_of a.entries.items) };

    ghost invariant = { λ a. IsCounted a.names a.entries.items a.symbols.items a.labels.items };
}

impl Numbering {
    /// Returns an empty numbering.
    pub fn new(alloc: Global) -> Numbering
        ensures { result ≡ [] }
    {
        Numbering {
            names: NameTable::new(alloc),
            entries: Vec::new(alloc),
            symbols: Vec::new(alloc),
            labels: Vec::new(alloc),
        }
    }

    /// Returns an equal numbering.
    ///
    /// Errors: an allocation fails. Cost: the size of all names.
    pub fn copy(&self, alloc: Global) -> Result<Numbering, AllocError>
        ensures { IfOk result (λ names. names ≡ self.now) }
    {
        let names = self.names.copy(alloc)?;
        let entries = Vec::from_slice(alloc, self.entries.as_slice())?;
        let symbols = Vec::from_slice(alloc, self.symbols.as_slice())?;
        let labels = Vec::from_slice(alloc, self.labels.as_slice())?;
        Ok(Numbering {
            names,
            entries,
            symbols,
            labels,
        })
    }

    /// Returns how many names there are.
    pub fn len(&self) -> usize
        ensures { result ≡ length self.now }
    {
        self.names.len()
    }

    /// Returns how many symbols there are.
    pub fn symbol_count(&self) -> usize
        ensures { result ≡ length (declared_symbols self.now) }
    {
        self.symbols.len()
    }

    /// Returns how many labels there are.
    pub fn label_count(&self) -> usize
        ensures { result ≡ length (declared_labels self.now) }
    {
        self.labels.len()
    }

    /// Returns the number of a name among the symbols or among the labels, and its kind, or `None`
    /// if it is not declared.
    ///
    /// Cost: that of `NameTable::find`.
    #[inline(always)]
    pub fn find(&self, name: &[u8]) -> Option<(u32, NameKind)>
        ensures kind { option_map (λ p. p.1) result ≡ kind_in self.now name.now }
        ensures number { IfSome result (λ p. IsNumberOf (names_of_kind p.1 self.now) name.now p.0) }
    {
        match self.names.find(name) {
            Some(index) => {
                let entry = entry_at(self.entries.as_slice(), index);
                Some((number_of_entry(entry, index as u32), entry.kind))
            }
            None => None,
        }
    }

    /// Returns the symbol of a number.
    pub fn symbol(&self, number: u32) -> &[u8]
        requires { number < length (declared_symbols self.now) }
        ensures { result.now ≡ name_at (declared_symbols self.now) number }
    {
        self.names.name(self.symbols[number as usize] as usize)
    }

    /// Returns the label of a number.
    pub fn label(&self, number: u32) -> &[u8]
        requires { number < length (declared_labels self.now) }
        ensures { result.now ≡ name_at (declared_labels self.now) number }
    {
        self.names.name(self.labels[number as usize] as usize)
    }

    /// Appends a name that is not yet declared, and returns its number.
    ///
    /// Errors: an allocation fails; the names are then unchanged. Cost: that of `NameTable::add`.
    pub fn declare(&mut self, alloc: Global, name: &[u8], kind: NameKind) -> Result<u32, AllocError>
        requires { kind_in self.old name.now ≡ None }
        ensures ok { OnOk result (self.new ≡ self.old ++ (name.now, kind) ∷ []) }
        ensures number { IfOk result (λ n. IsNumberOf (names_of_kind kind self.new) name.now n) }
        ensures err { OnErr result (self.new ≡ self.old) }
    {
        let index = self.names.add(alloc, name)?;
        let earlier_symbols = self.symbols.len() as u32;
        let entry = CountedKind {
            kind,
            earlier_symbols,
        };
        let added = push_entry(
            &mut self.entries,
            &mut self.symbols,
            &mut self.labels,
            entry,
            index as u32,
        );
        if added.is_err() {
            self.names.truncate(index);
            return Err(AllocError);
        }
        Ok(number_of_entry(entry, index as u32))
    }

    /// Reserves capacity for `labels` more labels, if allocation succeeds.
    ///
    /// Cost: that of `NameTable::reserve`, and the number of names if a buffer is moved.
    pub fn reserve(&mut self, alloc: Global, labels: usize)
        ensures { self.new ≡ self.old }
    {
        self.names.reserve(alloc, labels);
        let _ = self.entries.reserve(labels);
        let _ = self.labels.reserve(labels);
    }

    /// Truncates to the first `len` names.
    ///
    /// Cost: that of `NameTable::truncate`.
    pub fn truncate(&mut self, len: usize)
        ensures { self.new ≡ take len self.old }
    {
        if len >= self.names.len() {
            return;
        }
        let earlier_symbols = entry_at(self.entries.as_slice(), len).earlier_symbols as usize;
        self.names.truncate(len);
        self.entries.truncate(len);
        self.symbols.truncate(earlier_symbols);
        self.labels.truncate(len - earlier_symbols);
    }

    /// Frees unused memory, as `entries::give_back` does.
    ///
    /// Cost: that of `NameTable::shrink`.
    pub fn shrink(&mut self, alloc: Global)
        ensures { self.new ≡ self.old }
    {
        self.names.shrink(alloc);
        give_back(&mut self.entries);
        give_back(&mut self.symbols);
        give_back(&mut self.labels);
    }
}

/// Returns the number of a name among the symbols or among the labels, by its entry and its index
/// in the table.
#[inline(always)]
fn number_of_entry(entry: CountedKind, index: u32) -> u32
    requires { entry.earlier_symbols ≤ index }
    ensures { result ≡ (if is_symbol_kind entry.kind then entry.earlier_symbols else index - entry.earlier_symbols) }
{
    match entry.kind {
        NameKind::Label => index - entry.earlier_symbols,
        NameKind::Constant => entry.earlier_symbols,
        NameKind::Variable => entry.earlier_symbols,
    }
}

/// Returns the entry at an index.
fn entry_at(entries: &[CountedKind], index: usize) -> CountedKind
    requires { index < length entries.now }
    ensures { slice_get entries.now index ≡ Some result }
{
    entries[index]
}

/// Appends an entry, and its index to `symbols` or to `labels`, by its kind.
fn push_entry(
    entries: &mut Vec<CountedKind>,
    symbols: &mut Vec<u32>,
    labels: &mut Vec<u32>,
    entry: CountedKind,
    index: u32,
) -> Result<(), AllocError>
    ensures entries { OnOk result (entries.new.items ≡ entries.old.items ++ entry ∷ []) }
    ensures symbols { OnOk result
        (symbols.new.items ≡ symbols.old.items ++ (if is_symbol_kind entry.kind then index ∷ [] else [])) }
    ensures labels { OnOk result
        (labels.new.items ≡ labels.old.items ++ (if is_label_kind entry.kind then index ∷ [] else [])) }
    ensures same_entries { OnErr result (entries.new.items ≡ entries.old.items) }
    ensures same_symbols { OnErr result (symbols.new.items ≡ symbols.old.items) }
    ensures same_labels { OnErr result (labels.new.items ≡ labels.old.items) }
{
    match entry.kind {
        NameKind::Label => push_both(entries, labels, entry, index),
        NameKind::Constant => push_both(entries, symbols, entry, index),
        NameKind::Variable => push_both(entries, symbols, entry, index),
    }
}

/// Appends an entry and its index.
fn push_both(
    entries: &mut Vec<CountedKind>,
    indexes: &mut Vec<u32>,
    entry: CountedKind,
    index: u32,
) -> Result<(), AllocError>
    ensures entries { OnOk result (entries.new.items ≡ entries.old.items ++ entry ∷ []) }
    ensures indexes { OnOk result (indexes.new.items ≡ indexes.old.items ++ index ∷ []) }
    ensures same_entries { OnErr result (entries.new.items ≡ entries.old.items) }
    ensures same_indexes { OnErr result (indexes.new.items ≡ indexes.old.items) }
{
    let count = indexes.len();
    indexes.push(index)?;
    let added = entries.push(entry);
    if added.is_err() {
        indexes.truncate(count);
        return Err(AllocError);
    }
    Ok(())
}
