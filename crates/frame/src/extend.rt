//! Appends a statement to the storage as a whole or not at all, and truncates it to the first
//! statements.
ghost use Rattle.std.specs.Prelude.{true, ◌≡◌, ◌++◌, ◌∷◌, [], Some, OnOk, OnErr, take, length, ◌+◌};
ghost use Rattle.std.specs.Prelude.{IfSome, IfErr};
ghost use Rattle.names.specs.Codes.{with_names};
ghost use Rattle.scope.specs.Active.{bare};
ghost use Rattle.scope.specs.Legal.{IsLegal, broken_rule};
ghost use Rattle.scope.specs.Stored.SymbolNumbers.{AreRecorded};
ghost use Rattle.scope.specs.Symbols.{symbols_declared_by, symbols_in, symbols_of};
ghost use Rattle.entries.specs.Mentions.{AreKeptUntil, AreSame};
ghost use Rattle.entries.specs.Stored.Spans.{Extends};
ghost use Rattle.frame.specs.Stored.Whole.{AreStored};
ghost use Rattle.frame.specs.Stored.Counts.{HasMoreAtEnd};
ghost use Rattle.frame.specs.Stored.EntryMeanings.{HasVariableNumbers, labels_in, names_in};
ghost use Rattle.frame.specs.Stored.EntryMeanings.{statements_of};

use crate::assertion_parts::fill_parts;
use crate::declare::{declare_next, last_active_after, record_end, remove_entries};
use crate::frame_buffers::FrameBuffers;
use crate::frames::Frames;
use crate::next_mentions::{mention_float, mention_next};
use crate::shape::kind;
use crate::storage::Storage;
use crate::symbol_numbers::find_numbers;
use entries::buffer_part::to_u32;
use entries::{EntryHeader, Kind, StateBefore, give_back};
use mm_read::Stmt;
use scope::{Rule, Rules, Scope, Steps, SymbolNumbers};
use std::alloc::{AllocError, Global};

/// Appends the statement. Looks up the numbers of its symbols if they are not recorded.
///
/// Errors: an allocation fails; then some of the statement may remain after the earlier contents.
fn extend(
    alloc: Global,
    storage: &mut Storage,
    buffers: &mut FrameBuffers,
    stmt: &Stmt,
    recorded: &mut SymbolNumbers,
) -> Result<(), AllocError>
    requires stored { AreStored storage.old }
    requires legal { IsLegal (statements_of storage.old) stmt.now }
    requires recorded { AreRecorded (with_names (names_in storage.old) (symbols_declared_by stmt.now))
        (symbols_in stmt.now) recorded.old }
    ensures stored { OnOk result (AreStored storage.new) }
    ensures added { OnOk result (statements_of storage.new ≡ statements_of storage.old ++ bare stmt.now ∷ []) }
    ensures numbers { OnOk result (HasVariableNumbers storage.old stmt.now storage.new) }
    ensures after { OnErr result (HasMoreAtEnd storage.old storage.new) }
{
    let at = storage.entries.len() as u32 + 1;
    let kind = kind(stmt);
    let last_active = last_active_after(storage, kind);
    find_numbers(&storage.numbering, stmt, recorded);
    let size = fill_parts(storage, buffers, stmt, recorded)?;
    let header = EntryHeader {
        kind,
        size,
        before: StateBefore {
            label_count: to_u32(storage.numbering.label_count())?,
            symbol_count: storage.numbering.symbol_count() as u32,
            last_active: storage.last_active,
        },
    };
    declare_next(alloc, storage, stmt, recorded)?;
    let Some(codes) = recorded.numbers() else {
        return Err(AllocError);
    };
    mention_float(&mut storage.floats, &storage.entries, &header, codes)?;
    mention_next(
        &mut storage.disjoints,
        Kind::Disj,
        &storage.entries,
        &storage.ends,
        &header,
        codes,
    )?;
    mention_next(
        &mut storage.variables,
        Kind::Var,
        &storage.entries,
        &storage.ends,
        &header,
        codes,
    )?;
    storage.ends.push(0)?;
    storage.entries.push(header, &buffers.parts(codes))?;
    let block = storage.last_active.block;
    record_end(&mut storage.ends, kind, block, at);
    storage.last_active = last_active;
    Ok(())
}

/// Appends the statement as a whole, or leaves everything as before.
///
/// Errors: an allocation fails.
fn extend_whole(
    alloc: Global,
    storage: &mut Storage,
    buffers: &mut FrameBuffers,
    stmt: &Stmt,
    recorded: &mut SymbolNumbers,
) -> Result<(), AllocError>
    requires stored { AreStored storage.old }
    requires legal { IsLegal (statements_of storage.old) stmt.now }
    requires recorded { AreRecorded (with_names (names_in storage.old) (symbols_declared_by stmt.now))
        (symbols_in stmt.now) recorded.old }
    ensures stored { AreStored storage.new }
    ensures added { OnOk result (statements_of storage.new ≡ statements_of storage.old ++ bare stmt.now ∷ []) }
    ensures numbers { OnOk result (HasVariableNumbers storage.old stmt.now storage.new) }
    ensures same { OnErr result (statements_of storage.new ≡ statements_of storage.old) }
{
    let names = storage.numbering.len();
    let result = extend(alloc, storage, buffers, stmt, recorded);
    if result.is_err() {
        roll_back(storage, names);
    }
    result
}

/// Truncates the storage to its first `len` statements.
fn truncate_storage(storage: &mut Storage, len: usize)
    requires stored { AreStored storage.old }
    ensures stored { AreStored storage.new }
    ensures statements { statements_of storage.new ≡ take len (statements_of storage.old) }
    ensures names { Extends (names_in storage.new) (names_in storage.old) }
{
    if len < storage.entries.len() {
        let first = storage.entries.entry(len);
        let names = first.before.symbol_count as usize + first.before.label_count as usize;
        let last_active = first.before.last_active;
        remove_entries(storage, len);
        storage.last_active = last_active;
        roll_back(storage, names);
    }
}

/// Truncates the numbering to the first `names` names, and every other list to the names or the
/// statements that are left. `entries` and `last_active` stay as they are.
fn roll_back(storage: &mut Storage, names: usize)
    ensures names { storage.new.numbering ≡ take names storage.old.numbering }
    ensures positions { storage.new.positions.items
        ≡ take (length (labels_in storage.new)) storage.old.positions.items }
    ensures ends { storage.new.ends.items ≡ take (length storage.old.entries) storage.old.ends.items }
    ensures entries { storage.new.entries ≡ storage.old.entries }
    ensures floats { AreKeptUntil (length storage.old.entries) storage.old.floats storage.new.floats }
    ensures disjoints { AreKeptUntil (length storage.old.entries) storage.old.disjoints storage.new.disjoints }
    ensures variables { AreKeptUntil (length storage.old.entries) storage.old.variables storage.new.variables }
    ensures last_active { storage.new.last_active ≡ storage.old.last_active }
{
    storage.numbering.truncate(names);
    storage.positions.truncate(storage.numbering.label_count());
    storage.ends.truncate(storage.entries.len());
    let last = storage.entries.len() as u32;
    storage.floats.truncate(last);
    storage.disjoints.truncate(last);
    storage.variables.truncate(last);
}

/// Frees unused capacity of the lists of the storage, as `entries::give_back` does.
///
/// Cost: that of `Numbering::shrink`, and the number of symbols removed.
fn shrink_lists(alloc: Global, storage: &mut Storage)
    ensures numbering { storage.new.numbering ≡ storage.old.numbering }
    ensures positions { storage.new.positions.items ≡ storage.old.positions.items }
    ensures ends { storage.new.ends.items ≡ storage.old.ends.items }
    ensures entries { storage.new.entries ≡ storage.old.entries }
    ensures floats { AreSame storage.old.floats storage.new.floats }
    ensures disjoints { AreSame storage.old.disjoints storage.new.disjoints }
    ensures variables { AreSame storage.old.variables storage.new.variables }
    ensures last_active { storage.new.last_active ≡ storage.old.last_active }
{
    storage.numbering.shrink(alloc);
    give_back(&mut storage.positions);
    give_back(&mut storage.ends);
    storage.entries.shrink();
    let symbols = storage.numbering.symbol_count();
    storage.floats.shrink(symbols);
    storage.disjoints.shrink(symbols);
    storage.variables.shrink(symbols);
}

impl Frames {
    /// Appends the statement that the scope accepts next.
    ///
    /// Errors: an allocation fails, or a number is too large: that of symbols or the position of a
    /// mandatory `$e` from 2^31 on, the size of an assertion from 2^64 on, any other from 2^32 on;
    /// everything is as before. One step is counted, whatever the outcome.
    /// Cost: the statement's own size; for an assertion also that of the active `$e`, a sort, and
    /// for each mandatory variable the active `$d` that have it; for a `$}` the `$d` and `$v` that
    /// it makes inactive.
    pub fn push(&mut self, scope: &Scope, stmt: &Stmt, steps: &mut Steps) -> Result<(), AllocError>
        requires same { scope.now.statements ≡ self.old.statements }
        requires legal { IsLegal scope.now.statements stmt.now }
        ensures added { OnOk result (self.new.statements ≡ self.old.statements ++ bare stmt.now ∷ []) }
        ensures names { Extends self.old.names self.new.names }
        ensures symbols { self.new.names ≡ symbols_of self.new.statements }
        ensures same { OnErr result (self.new ≡ self.old) }
        ensures counted { steps.new.count ≡ steps.old.count + 1 }
    {
        // Only the contract reads the scope.
        let _scope = scope;
        self.recorded.forget();
        steps.tick();
        extend_whole(
            self.alloc,
            &mut self.storage,
            &mut self.buffers,
            stmt,
            &mut self.recorded,
        )
    }

    /// Appends the next statement if it breaks none of the rules G1 to G10 (`scope`). `rules` is
    /// the state of the rules after the same statements; it judges the statement by the numbering
    /// of the frames, and accepts it too.
    ///
    /// Errors: the least rule that the statement breaks, or `Memory` if it breaks none; everything
    /// is then as before. Cost: that of `Rules::broken_rule` and of `push`; one step is counted,
    /// whatever the outcome.
    pub fn add(&mut self, rules: &mut Rules, stmt: &Stmt, steps: &mut Steps) -> Result<(), Rule>
        requires same { rules.old.statements ≡ self.old.statements }
        ensures added { OnOk result (self.new.statements ≡ self.old.statements ++ bare stmt.now ∷ []) }
        ensures accepted { OnOk result (rules.new.statements ≡ rules.old.statements ++ bare stmt.now ∷ []) }
        ensures legal { OnOk result (IsLegal self.old.statements stmt.now) }

        // A broken rule is returned even if every allocation fails.
        ensures broken { IfSome (broken_rule self.old.statements stmt.now) (λ rule. result ≡ Err rule) }
        ensures only_memory { IsLegal self.old.statements stmt.now → IfErr result (λ rule. rule ≡ Rule.Memory) }
        ensures same { OnErr result (self.new ≡ self.old) }
        ensures same_rules { OnErr result (rules.new.statements ≡ rules.old.statements) }
        ensures marked { rules.new.marked ≡ rules.old.marked }
        ensures counted { steps.new.count ≡ steps.old.count + 1 }
    {
        steps.tick();
        self.recorded.begin();
        let broken = rules.broken_rule(
            &self.storage.numbering,
            self.alloc,
            stmt,
            &mut self.recorded,
        );
        if let Some(rule) = broken {
            return Err(rule);
        }
        let front = self.storage.entries.len();
        extend_whole(
            self.alloc,
            &mut self.storage,
            &mut self.buffers,
            stmt,
            &mut self.recorded,
        )
        .map_err(|_| Rule::Memory)?;
        let entry = self.storage.entries.entry(front);
        let accepted = rules.accept(stmt, entry.symbols);
        if accepted.is_err() {
            self.shorten(front);
        }
        accepted.map_err(|_| Rule::Memory)
    }

    /// Truncates to the first `len` statements.
    ///
    /// Cannot fail. Frees the capacity only of mentions of which few are left; `shrink` frees the
    /// rest. Cost: the size of the statements that are removed.
    pub fn shorten(&mut self, len: usize)
        ensures statements { self.new.statements ≡ take len self.old.statements }
        ensures names { Extends self.new.names self.old.names }
        ensures symbols { self.new.names ≡ symbols_of self.new.statements }
    {
        truncate_storage(&mut self.storage, len);
    }

    /// Frees unused capacity: that of each list whose capacity is more than four times its length,
    /// and that of the buffers for the next statement.
    ///
    /// Cost: a constant; if capacity is freed, the size of the remaining contents, which is less
    /// than that of what was removed.
    pub fn shrink(&mut self)
        ensures { self.new ≡ self.old }
    {
        shrink_lists(self.alloc, &mut self.storage);
        self.buffers = FrameBuffers::new(self.alloc);
        self.recorded = SymbolNumbers::new(self.alloc);
    }
}
