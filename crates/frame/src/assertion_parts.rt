//! Makes the parts that are kept with a statement: its hypotheses, each as one number, and its
//! mandatory pairs.
ghost use Rattle.std.specs.Prelude.{◌≡◌, ◌+◌, ◌-◌, ◌≤◌, [], true, length, map, take, IfOk, OnOk};
ghost use Rattle.names.specs.Codes.{with_names};
ghost use Rattle.scope.specs.Active.{bare};
ghost use Rattle.scope.specs.Stored.SymbolNumbers.{AreRecorded};
ghost use Rattle.scope.specs.Symbols.{symbols_declared_by, symbols_in};
ghost use Rattle.entries.specs.Hypotheses.{decoded_hypothesis};
ghost use Rattle.entries.specs.Stored.Spans.{cut, AreSpansIn};
ghost use Rattle.frame.specs.Below.{AreBelow};
ghost use Rattle.frame.specs.AssertionView.{typecode_of};
ghost use Rattle.frame.specs.Stored.Whole.{AreStored, ArePartsFor};
ghost use Rattle.frame.specs.Stored.Hypotheses.{AreHypotheses, ArePartsOf};
ghost use Rattle.frame.specs.Stored.Counts.{HasTwoSymbolsIfFloat};
ghost use Rattle.frame.specs.Stored.AssertionParts.{hypothesis_at, hypothesis_by, typecode_at};
ghost use Rattle.frame.specs.Stored.AssertionParts.{with_list};
ghost use Rattle.frame.specs.MandatoryPairs.{AreReordered, pairs_by};
ghost use Rattle.frame.specs.ListsOfPairs.{is_numbered_pair};
ghost use Rattle.frame.specs.Stored.EntryMeanings.{names_in, statements_of};
ghost use Rattle.frame.specs.Stored.EntrySizes.{IsSizeOf};

use crate::frame_buffers::FrameBuffers;
use crate::mandatory::find_hypotheses;
use crate::pair_buffer::PairBuffer;
use crate::pairs::Pairs;
use crate::shape::is_assertion;
use crate::sizes::size_of_assertion;
use crate::storage::Storage;
use entries::buffer_part::between;
use entries::{BufferPart, EntryRef, Hypotheses, Hypothesis, Kind, NO_TYPECODE, number_of};
use mm_read::Stmt;
use scope::SymbolNumbers;
use std::alloc::AllocError;

/// Returns the typecode of an expression, which is its first symbol, or `NO_TYPECODE` if it is
/// empty.
fn typecode(codes: &[u32]) -> u32
    ensures { result ≡ typecode_of codes.now }
{
    match codes {
        [first, ..] => *first,
        [] => NO_TYPECODE,
    }
}

/// Returns the hypothesis at a position: the variable of a `$f`, or the position of a `$e`.
pub fn hypothesis(entry: EntryRef<'_>, position: u32) -> Hypothesis
    requires { HasTwoSymbolsIfFloat entry.kind entry.symbols.now }
    ensures { result ≡ hypothesis_by position entry.entry.kind entry.entry.symbols.now }
{
    match entry.kind {
        Kind::Float => Hypothesis::Float(entry.symbols[1]),
        _ => Hypothesis::Essential(position),
    }
}

/// Appends the hypotheses, each as one number, and their typecodes.
pub fn encode_hypotheses(
    storage: &Storage,
    hypotheses: &[u32],
    numbered_hypotheses: &mut Vec<u32>,
    typecodes: &mut Vec<u32>,
) -> Result<(), AllocError>
    requires stored { AreStored storage.now }
    requires hypotheses { AreHypotheses storage.now.entries hypotheses.now }
    requires no_numbered_hypotheses { map decoded_hypothesis numbered_hypotheses.old.items ≡ [] }
    requires no_typecodes { typecodes.old.items ≡ [] }
    ensures numbered_hypotheses { OnOk result
        (map decoded_hypothesis numbered_hypotheses.new.items
        ≡ map (hypothesis_at storage.now.entries) hypotheses.now) }
    ensures typecodes { OnOk result (typecodes.new.items ≡ map (typecode_at storage.now.entries) hypotheses.now) }
{
    for position in hypotheses {
        let entry = storage.entries.entry(*position as usize - 1);
        numbered_hypotheses.push(number_of(hypothesis(entry, *position))?)?;
        typecodes.push(typecode(entry.symbols))?;
    }
    Ok(())
}

/// Appends, of each variable that has a mandatory pair with one before it, the list of it and those
/// before it. Returns `false` behind the list with which they take more than `room` numbers.
///
/// Errors: an allocation fails. Cost: the rows of the variables.
fn add_pairs(
    pairs: &Pairs<'_>,
    room: usize,
    pair_buffer: &mut PairBuffer,
    grouped_variables: &mut Vec<u32>,
    groups: &mut Vec<BufferPart>,
) -> Result<bool, AllocError>
    requires below { AreBelow (length pairs.now.names) pair_buffer.old.variables }
    requires empty { cut grouped_variables.old.items groups.old.items ≡ [] }
    requires within { AreSpansIn (length grouped_variables.old.items) groups.old.items }
    ensures added { IfOk result
        (λ ok. ok ≡ true
        → AreReordered (pairs_by (is_numbered_pair pairs.now) pair_buffer.old.variables)
        (cut grouped_variables.new.items groups.new.items)) }
    ensures within { AreSpansIn (length grouped_variables.new.items) groups.new.items }
{
    for index in 0..pair_buffer.len() {
        pair_buffer.fill(pairs, index)?;
        add_list(pair_buffer.list(), grouped_variables, groups)?;
        if grouped_variables.len() > room {
            return Ok(false);
        }
    }
    Ok(true)
}

/// Appends a list, if it has two or more numbers.
///
/// Errors: an allocation fails.
fn add_list(
    list: &[u32],
    grouped_variables: &mut Vec<u32>,
    groups: &mut Vec<BufferPart>,
) -> Result<(), AllocError>
    requires within { AreSpansIn (length grouped_variables.old.items) groups.old.items }
    ensures added { OnOk result
        (cut grouped_variables.new.items groups.new.items
        ≡ with_list list.now (cut grouped_variables.old.items groups.old.items)) }
    ensures within { AreSpansIn (length grouped_variables.new.items) groups.new.items }
{
    if list.len() < 2 {
        return Ok(());
    }
    let from = grouped_variables.len();
    grouped_variables.extend_from_slice(list)?;
    let span = between(from, grouped_variables.len())?;
    groups.push(span)?;
    Ok(())
}

/// Appends the other parts of an assertion at `at` to `buffers`, which has the positions of its
/// mandatory hypotheses: each hypothesis as one number, its typecode, and the mandatory pairs. If
/// hypotheses and pairs take more than `MAX_KEPT` numbers, it removes all parts.
///
/// Errors: an allocation fails. Cost: the hypotheses, and the rows of the mandatory variables.
fn fill_whole(storage: &Storage, at: usize, buffers: &mut FrameBuffers) -> Result<(), AllocError>
    requires stored { AreStored storage.now }
    requires place { (1 ≤ at) × (at ≤ length (statements_of storage.now) + 1) }
    requires hypotheses { AreHypotheses storage.now.entries buffers.old.hypotheses }
    requires undescribed { (buffers.old.numbered_hypotheses ≡ []) × (buffers.old.typecodes ≡ [])
        × (buffers.old.groups ≡ []) }
    ensures { OnOk result
        (ArePartsOf storage.now.entries
        (take (at - 1) (statements_of storage.now)) buffers.old.hypotheses buffers.new) }
{
    if buffers.hypotheses.len() > MAX_KEPT {
        buffers.clear();
        return Ok(());
    }
    let room = MAX_KEPT - buffers.hypotheses.len();
    encode_hypotheses(
        storage,
        &buffers.hypotheses,
        &mut buffers.numbered_hypotheses,
        &mut buffers.typecodes,
    )?;
    let hypotheses = Hypotheses::new(&buffers.numbered_hypotheses);
    buffers.pair_buffer.begin(&hypotheses)?;
    let whole = add_pairs(
        &Pairs { storage, at },
        room,
        &mut buffers.pair_buffer,
        &mut buffers.grouped_variables,
        &mut buffers.groups,
    )?;
    if whole {
        buffers.whole = true;
        return Ok(());
    }
    buffers.clear();
    Ok(())
}

/// Finds the parts of an assertion that is appended to the statements, by the numbers of its
/// symbols: all mandatory hypotheses and pairs, or none if these are many. Other statements have
/// none. Returns the size of an assertion, 0 for another statement.
///
/// Errors: an allocation fails, or the size is 2^64 or more.
pub fn fill_parts(
    storage: &Storage,
    buffers: &mut FrameBuffers,
    stmt: &Stmt,
    recorded: &SymbolNumbers,
) -> Result<u64, AllocError>
    requires stored { AreStored storage.now }
    requires recorded { AreRecorded (with_names (names_in storage.now) (symbols_declared_by stmt.now))
        (symbols_in stmt.now) recorded.now }
    ensures parts { OnOk result (ArePartsFor storage.now (bare stmt.now) buffers.new) }
    ensures size { IfOk result (IsSizeOf (statements_of storage.now) (bare stmt.now)) }
{
    buffers.clear();
    if !is_assertion(stmt) {
        return Ok(0);
    }
    let Some(codes) = recorded.numbers() else {
        return Err(AllocError);
    };
    let at = storage.entries.len() + 1;
    find_hypotheses(storage, at, codes, &mut buffers.hypotheses)?;
    let size = size_of_assertion(storage, at, &buffers.hypotheses, codes)?;
    fill_whole(storage, at, buffers)?;
    Ok(size)
}

/// The parts of an assertion are kept whole only if its mandatory hypotheses, and the numbers in
/// the lists of its mandatory pairs, are together at most this many.
const MAX_KEPT: usize = 64;
