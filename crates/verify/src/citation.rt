//! Runs one item of a proof, and tells a listener.

ghost use Rattle.std.specs.Prelude.{◌≡◌, List, IfErr, IfOk, OnOk};
ghost use Rattle.mm_lex.specs.Alphabet.{Name};
ghost use Rattle.proof_code.specs.declared.item.Item.TheVariants.{Cite};
ghost use Rattle.proof_code.specs.ItemNumbers.{item_of};
ghost use Rattle.verify.specs.Counted.{HasCountedEntry, HasCountedFit, HasCountedItem};
ghost use Rattle.verify.specs.Counted.{HasCountedPairs, IsPastEntry, IsPastFit, IsPastItem};
ghost use Rattle.verify.specs.Counted.{IsPastPairs};
ghost use Rattle.verify.specs.Metered.{with_work};
ghost use Rattle.verify.specs.RunsItemByNumber.{AreEntriesIn, IsEntryIn, IsReady, MayCite};
ghost use Rattle.verify.specs.RunsItemByNumber.{IsCitedView};
ghost use Rattle.subst.specs.Images.{AreOver};
ghost use Rattle.verify.specs.RunsItemByNumber.{AreNamed, HasCitedIn, RunsItemIn, TellsDisjoint};
ghost use Rattle.verify.specs.ResultPlaces.{IsKept};
ghost use Rattle.verify.specs.Walk.{IsHeardIn};

use crate::disjointness::CitedPairs;
use crate::label_table::LabelEntry;
use crate::listener::Listener;
use crate::meter::Meter;
use crate::results::Results;
use entries::AssertionView;
use frame::{FrameBuffers, Frames, PairBuffer, Pairs};
use subst::Stop;

/// The context of a proof: the statements, the position of its `$p`, and the pairs of disjoint
/// variables that are active there.
#[derive(Drop)]
pub struct ProofContext<'a> {
    /// The statements.
    pub frames: &'a Frames,
    /// The position of the `$p`.
    pub at: usize,
    /// The pairs of disjoint variables that are active there.
    pub pairs: Pairs<'a>,
}

/// The buffers of a run over the items of a proof.
#[derive(Drop)]
pub struct Buffers {
    /// For the hypotheses of a cited assertion whose parts are not kept whole.
    pub frame_buffers: FrameBuffers,
    /// For its mandatory pairs.
    pub pair_buffer: PairBuffer,
    /// The results of the proof so far.
    pub results: Results,
}

/// Cites an assertion, given a view of it: pops the results for its hypotheses and pushes its
/// result. Returns `false` if it cannot be cited. Counts its disjointness, if typecodes and `$e`
/// fit.
///
/// Errors: the meter is past its limit within the citation, by a row or by the result, which is then
/// not written, the results counted too; an allocation fails.
#[inline(always)]
fn cite_by_view(
    context: &ProofContext<'_>,
    position: usize,
    cited: &AssertionView<'_>,
    pair_buffer: &mut PairBuffer,
    results: &mut Results,
    meter: &mut Meter,
) -> Result<bool, Stop>
    requires may { MayCite context.now position results.old.results }
    requires cited { IsCitedView context.now position cited.now }
    ensures counted { IfOk result (HasCountedFit context.now position results.old results.new meter.old meter.new) }
    ensures effect { IfOk result (HasCitedIn context.now (LabelEntry.Assertion position) results.old results.new) }
    ensures kept { IfOk result (λ ok. IsKept ok results.old results.new) }
    ensures costly { IfErr result (λ stop. stop ≡ Stop.TooCostly
        → IsPastFit context.now position results.old meter.old) }
{
    let count = cited.hypotheses.len();
    if count > results.len() {
        return Ok(false);
    }
    let Some(has_essentials) = results.read_images(cited.typecodes, &cited.hypotheses)? else {
        return Ok(false);
    };
    if !results.hypotheses_match(context.frames, &cited.hypotheses, has_essentials) {
        return Ok(false);
    }
    if !are_images_disjoint(context, position, cited, pair_buffer, results, meter)? {
        return Ok(false);
    }
    results.apply(count, cited.conclusion, meter)
}

/// Returns whether the images that were read are disjoint by the mandatory pairs of an assertion,
/// given a view of it. All pairs are read and counted, also behind one that fails.
///
/// Errors: the meter is past its limit within the citation; an allocation fails.
#[inline(always)]
fn are_images_disjoint(
    context: &ProofContext<'_>,
    position: usize,
    cited: &AssertionView<'_>,
    pair_buffer: &mut PairBuffer,
    results: &mut Results,
    meter: &mut Meter,
) -> Result<bool, Stop>
    requires may { MayCite context.now position results.old.results }
    requires cited { IsCitedView context.now position cited.now }
    requires over { AreOver context.now.frames.now.names results.old.images }
    ensures same { results.new ≡ results.old }
    ensures disjoint { IfOk result (TellsDisjoint context.now position results.old.images) }
    ensures counted { OnOk result (HasCountedPairs context.now position results.old.images meter.old meter.new) }
    ensures costly { IfErr result (λ stop. stop ≡ Stop.TooCostly
        → IsPastPairs context.now position results.old.images
        (with_work meter.old results.old.results.weight)) }
{
    if cited.pairs_listed && cited.pairs.len() == 0 {
        return Ok(true);
    }
    let cited_pairs = CitedPairs {
        are_kept: cited.pairs_listed,
        kept: cited.pairs.copy(),
        hypotheses: cited.hypotheses.copy(),
        active: context.frames.active_pairs(position),
    };
    results.are_disjoint(&context.pairs, &cited_pairs, pair_buffer, meter)
}

/// Cites an assertion: pops the results for its hypotheses and pushes its result. Returns `false`
/// if it cannot be cited. Counts its size, and its disjointness, if typecodes and `$e` fit.
///
/// Errors: the meter is past its limit within the citation; an allocation fails.
#[inline(never)]
fn cite(
    context: &ProofContext<'_>,
    position: usize,
    buffers: &mut Buffers,
    meter: &mut Meter,
) -> Result<bool, Stop>
    requires may { MayCite context.now position buffers.old.results.results }
    ensures counted { IfOk result
        (HasCountedEntry context.now
        (LabelEntry.Assertion position) buffers.old.results buffers.new.results meter.old meter.new) }
    ensures effect { IfOk result
        (HasCitedIn context.now (LabelEntry.Assertion position) buffers.old.results buffers.new.results) }
    ensures kept { IfOk result (λ ok. IsKept ok buffers.old.results buffers.new.results) }
    ensures costly { IfErr result (λ stop. stop ≡ Stop.TooCostly
        → IsPastEntry context.now (LabelEntry.Assertion position) buffers.old.results meter.old) }
{
    let cited = context
        .frames
        .cited_view(position, &mut buffers.frame_buffers)?;
    meter.add(context.frames.size(position))?;
    cite_by_view(
        context,
        position,
        &cited,
        &mut buffers.pair_buffer,
        &mut buffers.results,
        meter,
    )
}

/// Cites a label by its meaning, and tells the listener. Returns `false` if it cannot be cited.
/// Counts what an assertion counts besides 1 and its result.
///
/// Errors: the meter is past its limit within the citation; an allocation fails.
#[inline(always)]
fn cite_entry<L: Listener>(
    context: &ProofContext<'_>,
    entry: LabelEntry,
    buffers: &mut Buffers,
    meter: &mut Meter,
    listener: &mut L,
) -> Result<bool, Stop>
    requires ready { IsReady context.now }
    requires named { AreNamed context.now.frames.now.names buffers.old.results.results }
    requires entry { (label : Name) × IsEntryIn context.now label entry }
    ensures counted { IfOk result
        (HasCountedEntry context.now entry buffers.old.results buffers.new.results meter.old meter.new) }
    ensures effect { IfOk result (HasCitedIn context.now entry buffers.old.results buffers.new.results) }
    ensures kept { IfOk result (λ ok. IsKept ok buffers.old.results buffers.new.results) }
    ensures heard { (label : Name) → IsEntryIn context.now label entry
        → IfOk result
        (IsHeardIn L.follows context.now
        (Cite label) buffers.old.results buffers.new.results listener.old listener.new) }
    ensures costly { IfErr result (λ stop. stop ≡ Stop.TooCostly
        → IsPastEntry context.now entry buffers.old.results meter.old) }
{
    match entry {
        LabelEntry::Hypothesis(i) => {
            if !buffers.results.add(context.frames.expr(i))? {
                return Ok(false);
            }
            listener.hypothesis(i, buffers.results.last_range())?;
            Ok(true)
        }
        LabelEntry::Assertion(position) => {
            let stack_len = buffers.results.len();
            if !cite(context, position, buffers, meter)? {
                return Ok(false);
            }
            let count = stack_len - (buffers.results.len() - 1);
            listener.assertion(position, count, buffers.results.last_range())?;
            Ok(true)
        }
        LabelEntry::Nothing => Ok(false),
    }
}

/// Runs one item, by its number, tells the listener, and returns whether it can be done. 0 is a
/// mark; the numbers from 1 on cite the labels of the table, and those after them recall the
/// results that were marked. Counts what the item counts besides 1 and its result, which is what
/// the weight of the results grows by.
///
/// Errors: the meter is past its limit within the citation; an allocation fails.
#[inline(always)]
pub fn step<L: Listener>(
    context: &ProofContext<'_>,
    table: &[LabelEntry],
    number: u32,
    buffers: &mut Buffers,
    meter: &mut Meter,
    listener: &mut L,
) -> Result<bool, Stop>
    requires ready { IsReady context.now }
    requires named { AreNamed context.now.frames.now.names buffers.old.results.results }
    requires entries { (labels : List Name) × AreEntriesIn context.now labels table.now }
    ensures counted { (labels : List Name) → AreEntriesIn context.now labels table.now
        → IfOk result
        (HasCountedItem context.now
        (item_of labels number) buffers.old.results buffers.new.results meter.old meter.new) }
    ensures effect { (labels : List Name) → AreEntriesIn context.now labels table.now
        → IfOk result (RunsItemIn context.now (item_of labels number) buffers.old.results buffers.new.results) }
    ensures kept { IfOk result (λ ok. IsKept ok buffers.old.results buffers.new.results) }
    ensures heard { (labels : List Name) → AreEntriesIn context.now labels table.now
        → IfOk result
        (IsHeardIn L.follows context.now
        (item_of labels number) buffers.old.results buffers.new.results listener.old listener.new) }
    ensures costly { (labels : List Name) → AreEntriesIn context.now labels table.now
        → IfErr result (λ stop. stop ≡ Stop.TooCostly
        → IsPastItem context.now (item_of labels number) buffers.old.results meter.old) }
{
    if number == 0 {
        if !buffers.results.mark()? {
            return Ok(false);
        }
        listener.mark()?;
        return Ok(true);
    }
    let place = number as usize - 1;
    if place < table.len() {
        return cite_entry(context, table[place], buffers, meter, listener);
    }
    let index = place - table.len();
    if !buffers.results.recall(index)? {
        return Ok(false);
    }
    listener.recall(index)?;
    Ok(true)
}
