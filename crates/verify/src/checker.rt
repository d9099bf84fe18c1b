//! The check of a whole proof.

ghost use Rattle.std.specs.Prelude.{◌≡◌, ◌*◌, false, List, IfOk};
ghost use Rattle.mm_lex.specs.Alphabet.{Name};
ghost use Rattle.mm_read.specs.declared.stmt.Stmt.{Stmt as Statement};
ghost use Rattle.proof_code.specs.ItemNumbers.{items_of};
ghost use Rattle.proof_code.specs.Writes.{is_compressed};
ghost use Rattle.verify.specs.LabelTable.{AreEntries};
ghost use Rattle.verify.specs.Proves.{Proves};
ghost use Rattle.scope.specs.Active.{before};
ghost use Rattle.verify.specs.Counted.{HasCountedAnswer, HasCountedProof};
ghost use Rattle.verify.specs.Machine.{start};
ghost use Rattle.verify.specs.Right.{IsAnswerIfAny, IsProvable, IsRight, IsAnswerTo};
ghost use Rattle.verify.specs.Work.{items_work};

use crate::answer::Answer;
use crate::citation::{Buffers, ProofContext};
use crate::failure::run_items;
use crate::label_table::{LabelEntry, add_listed, fill_mandatory, fill_table};
use crate::listener::Silent;
use crate::meter::Meter;
use crate::results::Results;
use frame::{FrameBuffers, Frames, PairBuffer};
use mm_lex::Words;
use proof_code::{Items, Reader, is_compressed, items_or_none, normal};
use std::alloc::{AllocError, Global};
use subst::Stop;

/// `Checker::shrink` keeps the memory that proofs up to this size need (`Checker::largest` defines
/// the size): 1 MB for this many symbols.
const KEPT_SIZE: usize = 262_144;

/// A verifier that reuses its buffers from proof to proof. It knows nothing of earlier proofs.
#[derive(Drop)]
pub struct Checker {
    /// Where its buffers are allocated.
    alloc: Global,
    /// The size of the largest proof since memory was last freed. The size of a proof is its
    /// weight, or, if that is more, the bytes of its tokens (in `prove`) or the number of its items
    /// (in `check`).
    largest: usize,
    /// Reads the tokens of compressed proofs.
    reader: Reader,
    /// A buffer for the meanings of the labels of a proof.
    table: Vec<LabelEntry>,
    /// A buffer for the positions of the mandatory hypotheses of the theorem.
    mandatory: Vec<u32>,
    /// The buffers of the run over the items of a proof.
    buffers: Buffers,
}

impl Checker {
    /// Returns a verifier with empty buffers. Does not allocate.
    pub fn new(alloc: Global) -> Checker {
        Checker {
            alloc,
            largest: 0,
            reader: Reader::new(alloc),
            table: Vec::new(alloc),
            mandatory: Vec::new(alloc),
            buffers: Buffers {
                frame_buffers: FrameBuffers::new(alloc),
                pair_buffer: PairBuffer::new(alloc),
                results: Results::new(alloc),
            },
        }
    }

    /// Limits the buffer of results to `symbols` symbols; at first the limit is `SYMBOLS_LIMIT`.
    /// The check of a proof that would exceed it returns `AllocError`.
    pub fn set_symbol_limit(&mut self, symbols: usize) {
        self.buffers.results.set_symbol_limit(symbols);
    }

    /// Frees the buffers for tokens, labels and results if a proof was large since they were last
    /// freed. Keeps those of ordinary proofs, and the tables of images and variables, which are
    /// indexed by symbol and would have to be made again.
    ///
    /// Does not allocate. Cost: a constant.
    pub fn shrink(&mut self) {
        self.record_size(0);
        if self.largest > KEPT_SIZE {
            self.largest = 0;
            self.reader = Reader::new(self.alloc);
            self.table = Vec::new(self.alloc);
            self.mandatory = Vec::new(self.alloc);
            self.buffers.results.release(self.alloc);
        }
    }

    /// Records the weight of the last proof, and the size of the next one.
    fn record_size(&mut self, next: usize) {
        let weight = self.buffers.results.weight();
        self.largest = self.largest.max(weight).max(next);
    }

    /// Returns whether the items are a right proof of the `$p` at that position.
    ///
    /// Errors: an allocation fails, or the results would exceed the limit set by
    /// `set_symbol_limit`.
    /// Cost: each label is looked up once; a recall and a mark are one step; a citation costs the
    /// lengths of its result and of the results that it compares with a `$e`, and that of the
    /// disjoint variable condition; if the parts of the assertion are not stored whole, also that
    /// of `Frames::cited_view`. Source: Metamath, 4.2.6 and appendix B.
    pub fn check(&mut self, frames: &Frames, at: usize, items: &Items) -> Result<Answer, AllocError>
        requires provable { (s : Statement) × IsProvable frames.now.statements at s }
        ensures answer { IfOk result (λ answer. IsAnswerTo answer (IsRight frames.now.statements at items.now)) }
    {
        self.check_counted(frames, at, items, &mut Meter::new(None))
    }

    /// Does so, and counts the items.
    fn check_counted(
        &mut self,
        frames: &Frames,
        at: usize,
        items: &Items,
        meter: &mut Meter,
    ) -> Result<Answer, AllocError>
        requires provable { (s : Statement) × IsProvable frames.now.statements at s }
        ensures answer { IfOk result (λ answer. IsAnswerIfAny answer (IsRight frames.now.statements at items.now)) }
        ensures counted { IfOk result (HasCountedAnswer (items_work (before frames.now.statements at) items.now start) meter.old meter.new) }
    {
        let parts = items.parts();
        self.record_size(parts.numbers.len());
        fill_table(frames, at, parts.labels, &mut self.table)?;
        check_numbers(
            frames,
            at,
            &self.table,
            parts.numbers,
            &mut self.buffers,
            meter,
        )
    }

    /// Returns whether the tokens write a right proof of the `$p` at that position. Counts the work
    /// of the proof; where it is past the limit of the meter, behind an item, within a citation or
    /// before the items, the run ends there.
    ///
    /// Errors: an allocation fails, or the results would exceed the limit set by
    /// `set_symbol_limit`.
    /// Cost: that of reading the tokens and checking their items; for a compressed proof, also the
    /// number of mandatory hypotheses, times a logarithm: a mandatory hypothesis is known by its
    /// position, so its label is neither copied nor looked up. Source: Metamath, 4.2.6 and appendix
    /// B.
    pub fn prove(
        &mut self,
        frames: &Frames,
        at: usize,
        tokens: &Words,
        meter: &mut Meter,
    ) -> Result<Answer, AllocError>
        requires provable { (s : Statement) × IsProvable frames.now.statements at s }
        ensures answer { IfOk result (λ answer. IsAnswerIfAny answer (Proves frames.now.statements at tokens.now)) }
        ensures counted { IfOk result (HasCountedProof frames.now.statements at tokens.now meter.old meter.new) }
    {
        self.record_size(tokens.as_text().len());
        if !is_compressed(tokens) {
            return self.prove_normal(frames, at, tokens, meter);
        }
        fill_mandatory(frames, at, &mut self.mandatory, &mut self.table)?;
        let count = self.mandatory.as_slice().len();
        let Some(heading) = self.reader.read(tokens, count)? else {
            return Ok(Answer::Wrong);
        };
        let listed = heading.count;
        if !add_listed(frames, at, &self.mandatory, heading, &mut self.table)? {
            return Ok(Answer::Wrong);
        }
        meter.add(work_of_tokens(listed)?)?;
        meter.add(frames.size(at))?;
        if meter.is_past() {
            return Ok(Answer::TooCostly);
        }
        let numbers = self.reader.numbers();
        check_numbers(frames, at, &self.table, numbers, &mut self.buffers, meter)
    }

    /// Returns whether the tokens write a right proof, in normal form, of the `$p` at that
    /// position.
    ///
    /// Errors: an allocation fails, or the results would exceed the limit set by
    /// `set_symbol_limit`.
    fn prove_normal(
        &mut self,
        frames: &Frames,
        at: usize,
        tokens: &Words,
        meter: &mut Meter,
    ) -> Result<Answer, AllocError>
        requires provable { (s : Statement) × IsProvable frames.now.statements at s }
        requires normal { is_compressed tokens.now ≡ false }
        ensures answer { IfOk result (λ answer. IsAnswerIfAny answer (Proves frames.now.statements at tokens.now)) }
        ensures counted { IfOk result (HasCountedProof frames.now.statements at tokens.now meter.old meter.new) }
    {
        let Some(items) = items_or_none(normal(self.alloc, tokens))? else {
            return Ok(Answer::Wrong);
        };
        meter.add(work_of_tokens(tokens.len())?)?;
        if meter.is_past() {
            return Ok(Answer::TooCostly);
        }
        self.check_counted(frames, at, &items, meter)
    }
}

/// Returns whether the items are a right proof of the `$p` at that position, by a verifier made for
/// this call.
///
/// Errors: an allocation fails. Cost: that of `Checker::check`.
pub fn check(alloc: Global, frames: &Frames, at: usize, items: &Items) -> Result<Answer, AllocError>
    requires { (s : Statement) × IsProvable frames.now.statements at s }
    ensures { IfOk result (λ answer. IsAnswerTo answer (IsRight frames.now.statements at items.now)) }
{
    Checker::new(alloc).check(frames, at, items)
}

/// Returns whether the items with these numbers are a right proof of the `$p` at that position. The
/// table has the meaning of each label of the proof.
///
/// Errors: an allocation fails.
#[inline(never)]
fn check_numbers(
    frames: &Frames,
    at: usize,
    table: &[LabelEntry],
    numbers: &[u32],
    buffers: &mut Buffers,
    meter: &mut Meter,
) -> Result<Answer, AllocError>
    requires provable { (s : Statement) × IsProvable frames.now.statements at s }
    requires entries { (labels : List Name) × AreEntries frames.now.statements at labels table.now }
    ensures answer { (labels : List Name) → AreEntries frames.now.statements at labels table.now
        → IfOk result (λ answer. IsAnswerIfAny answer (IsRight frames.now.statements at (items_of labels numbers.now))) }
    ensures counted { (labels : List Name) → AreEntries frames.now.statements at labels table.now
        → IfOk result (HasCountedAnswer (items_work (before frames.now.statements at) (items_of labels numbers.now) start) meter.old meter.new) }
{
    let pairs = frames.active_pairs(at);
    let context = ProofContext { frames, at, pairs };
    let done = match run_items(&context, table, numbers, buffers, meter, &mut Silent) {
        Ok(done) => done,
        Err(Stop::TooCostly) => return Ok(Answer::TooCostly),
        Err(Stop::Memory) => return Err(AllocError),
    };
    if done == numbers.len() && buffers.results.is_only(frames.expr(at)) {
        Ok(Answer::Proved)
    } else {
        Ok(Answer::Wrong)
    }
}

/// Returns what so many tokens count.
///
/// Errors: that is 2^64 or more.
fn work_of_tokens(count: usize) -> Result<u64, AllocError>
    ensures { IfOk result (λ work. work ≡ 16 * count) }
{
    (count as u64).checked_mul(16).ok_or(AllocError)
}
