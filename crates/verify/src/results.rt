//! The results of a proof so far, as ranges of one buffer.

ghost use Rattle.std.specs.Prelude.{take, List, ℕ, suc, ◌≡◌, ◌<◌, ◌≤◌, ◌↔◌, ◌∷◌, ◌++◌, [], length};
ghost use Rattle.std.specs.Prelude.{slice_get, nat_eq, ◌==◌, Some, is_some, if◌then◌else◌, IfOk};
ghost use Rattle.std.specs.Prelude.{IfSome, OnOk, OnErr, IsTrue, drop, get_or, map, true};
ghost use Rattle.std.specs.Prelude.{IfErr, MatchOption, false, ◌+◌};
ghost use Rattle.frame.specs.AtPosition.{HasLegalProperties};
ghost use Rattle.frame.specs.Below.{AllBelow};
ghost use Rattle.frame.specs.Substitution.{code_apply, code_image};
ghost use Rattle.names.specs.Codes.{AreDistinct};
ghost use Rattle.std.specs.List.{list_all};
ghost use Rattle.std.specs.Map.{lookup};
ghost use Rattle.subst.specs.Images.{AreOver, are_numbered_lists_disjoint};
ghost use Rattle.subst.specs.SymbolRanges.{AreInside, AreWithin, images_at, symbols_in};
ghost use Rattle.verify.specs.HypothesisResults.{AreDifferent, ArePresent, HasSeenEssentials};
ghost use Rattle.verify.specs.HypothesisResults.{LastResultsMatch, Reads, AreGiven};
ghost use Rattle.subst.specs.DisjointImages.{are_numbers_disjoint, image_named};
ghost use Rattle.subst.specs.Violations.{IsViolation};
ghost use Rattle.verify.specs.CitedPairs.{AreCitedAt, cited_lists};
ghost use Rattle.verify.specs.Counted.{AreMadePast, HasCountedMade, IsPastResult, is_past_with};
ghost use Rattle.verify.specs.Metered.{with_work};
ghost use Rattle.verify.specs.ReadPlaces.{BeginsWith, ReadsAll, tail_of};
ghost use Rattle.verify.specs.ResultPlaces.{Adds, IsKept, Marks, Recalls, below, top};
ghost use Rattle.verify.specs.Right.{weight_limit};
ghost use Rattle.verify.specs.Walk.{IsLastRange};

use crate::disjointness::{CitedPairs, are_lists_disjoint};
use crate::meter::Meter;
use entries::{Groups, Hypotheses, Hypothesis};
use frame::{Frames, PairBuffer, Pairs};
use std::alloc::{AllocError, Global};
use std::marker::Model;
use subst::{
    Buffer, DisjointImages, DisjointViolation, ImageRanges, SYMBOLS_LIMIT, Stop, SymbolRange,
    applied_len, first_violation, range_between, symbols_at,
};

/// The results of a proof so far, with their symbols in one buffer, and the images that were read
/// from the last of them. In this file the `place` of a result is its range in the buffer.
#[derive(Drop)]
pub struct Results {
    /// The symbols of all results.
    symbols: Buffer,
    /// The images that were read last.
    images: ImageRanges,
    /// The results on the stack, the last on top.
    stack: Vec<SymbolRange>,
    /// The results that were marked.
    saved: Vec<SymbolRange>,
    /// The number of symbols of all results that were pushed so far, also of those that were
    /// popped; a recall pushes one.
    weight: usize,
    /// How many symbols the buffer may hold.
    symbols_limit: usize,
    /// Decides whether images are disjoint.
    disjoint_images: DisjointImages,
}

impl Model for Results {
    ghost use Rattle.verify.specs.ResultPlaces.{AreResultRanges, HeldResults, held};

    ghost Value = { HeldResults };

    ghost view = { λ a. held a.symbols a.images a.stack.items a.saved.items a.weight };

    ghost invariant = { λ a. AreResultRanges a.symbols a.images a.stack.items a.saved.items a.weight };
}

impl Results {
    /// Returns an empty stack, with no saved results and no images. Does not allocate.
    pub fn new(alloc: Global) -> Results
        ensures { result.results ≡ record { stack = []; saved = []; weight = 0 } }
    {
        Results {
            symbols: Buffer::new(alloc),
            images: ImageRanges::new(alloc),
            stack: Vec::new(alloc),
            saved: Vec::new(alloc),
            weight: 0,
            symbols_limit: SYMBOLS_LIMIT,
            disjoint_images: DisjointImages::new(alloc),
        }
    }

    /// Limits the buffer to `symbols_limit` symbols. A call whose result would exceed them returns
    /// `AllocError`.
    pub fn set_symbol_limit(&mut self, symbols_limit: usize)
        ensures { self.new ≡ self.old }
    {
        self.symbols_limit = symbols_limit;
    }

    /// Begins a proof: removes all results and images. Keeps the memory.
    pub fn start(&mut self)
        ensures results { self.new.results ≡ record { stack = []; saved = []; weight = 0 } }
        ensures symbols { self.new.symbols ≡ [] }
    {
        self.images.clear();
        self.symbols.truncate(0);
        self.stack.clear();
        self.saved.clear();
        self.weight = 0;
    }

    /// Pushes an expression as a result, or returns `false` if the proof would be too heavy.
    ///
    /// Errors: an allocation fails, or the buffer would exceed the limit set by `set_symbol_limit`.
    /// Cost: its symbols.
    #[inline(always)]
    pub fn add(&mut self, expr: &[u32]) -> Result<bool, AllocError>
        ensures adds { IfOk result (λ ok. Adds ok self.old.results self.new.results self.old.results.stack expr.now) }
        ensures light { IfOk result (λ _. self.new.results.weight ≤ weight_limit) }
        ensures kept { IfOk result (λ ok. IsKept ok self.old self.new) }
    {
        if expr.len() > SYMBOLS_LIMIT - self.weight {
            return Ok(false);
        }
        let start = self.symbols.len();
        if expr.len() > self.symbols_limit.saturating_sub(start) {
            return Err(AllocError);
        }
        self.symbols.extend(expr)?;
        self.weight += expr.len();
        let place = range_between(start, self.symbols.len());
        self.stack.push(place)?;
        Ok(true)
    }

    /// Marks the last result, or returns `false` if there is none.
    ///
    /// Errors: an allocation fails.
    #[inline(always)]
    pub fn mark(&mut self) -> Result<bool, AllocError>
        ensures marks { IfOk result (λ ok. Marks ok self.old.results self.new.results) }
        ensures kept { IfOk result (λ ok. IsKept ok self.old self.new) }
    {
        let Some(&place) = self.stack.last() else {
            return Ok(false);
        };
        self.saved.push(place)?;
        Ok(true)
    }

    /// Pushes the marked result at that index, from 0, or returns `false` if there is none or the
    /// proof would be too heavy.
    ///
    /// Errors: an allocation fails. Cost: a constant.
    #[inline(always)]
    pub fn recall(&mut self, index: usize) -> Result<bool, AllocError>
        ensures recalls { IfOk result (λ ok. Recalls ok self.old.results self.new.results (suc index)) }
        ensures light { IfOk result (λ _. self.new.results.weight ≤ weight_limit) }
        ensures kept { IfOk result (λ ok. IsKept ok self.old self.new) }
    {
        if index >= self.saved.len() {
            return Ok(false);
        }
        let place = self.saved[index];
        let len = (place.end - place.start) as usize;
        if len > SYMBOLS_LIMIT - self.weight {
            return Ok(false);
        }
        self.stack.push(place)?;
        self.weight += len;
        Ok(true)
    }

    /// Reads the images of the variables of the `$f` from the last results, one for each
    /// hypothesis, and returns whether there are `$e`, or `None` if a result does not begin with
    /// the typecode of its `$f`.
    ///
    /// Errors: an allocation fails. Cost: a step for each hypothesis.
    #[inline(always)]
    pub fn read_images(
        &mut self,
        typecodes: &[u32],
        hypotheses: &Hypotheses<'_>,
    ) -> Result<Option<bool>, AllocError>
        requires same { length typecodes.now ≡ length hypotheses.now }
        requires count { length hypotheses.now ≤ length self.old.results.stack }
        requires different { AreDifferent hypotheses.now }
        ensures same { self.new.results ≡ self.old.results }
        ensures symbols { self.new.symbols ≡ self.old.symbols }
        ensures read { IfOk result
            (λ r. Reads (is_some r) typecodes.now hypotheses.now
            (top (length hypotheses.now) self.old.results.stack) self.new.images) }
        ensures essentials { IfOk result (λ r. IfSome r (HasSeenEssentials hypotheses.now)) }
    {
        let places = &self.stack[self.stack.len() - hypotheses.len()..];
        let symbols = self.symbols.as_slice();
        read_off(&mut self.images, symbols, typecodes, hypotheses, places)
    }

    /// Returns whether the last results for the `$e` are their expressions with the images
    /// substituted. Results for `$f` are not read. If `has_essentials` is false, there are no `$e`.
    ///
    /// Cost: a step for each hypothesis, if there are `$e`, and the symbols that agree.
    #[inline(always)]
    pub fn hypotheses_match(
        &self,
        frames: &Frames,
        hypotheses: &Hypotheses<'_>,
        has_essentials: bool,
    ) -> bool
        requires essentials { HasSeenEssentials hypotheses.now has_essentials }
        requires legal { HasLegalProperties frames.now.statements frames.now.names }
        requires present { ArePresent frames.now.statements hypotheses.now }
        requires count { length hypotheses.now ≤ length self.now.results.stack }
        requires over { AreOver frames.now.names self.now.images }
        requires named { AllBelow (length frames.now.names) self.now.results.stack }
        ensures { IsTrue result ↔ LastResultsMatch frames.now hypotheses.now self.now }
    {
        if !has_essentials {
            return true;
        }
        let places = &self.stack[self.stack.len() - hypotheses.len()..];
        for k in 0..hypotheses.len() {
            if let Hypothesis::Essential(position) = hypotheses.get(k) {
                let expr = frames.expr(position as usize);
                if !self.symbols.matches(&self.images, expr, places[k]) {
                    return false;
                }
            }
        }
        true
    }

    /// Returns whether the images are disjoint by the mandatory pairs of an assertion, at the
    /// statement of the pairs: the image of the first variable of each list from those of the
    /// others. Counts them.
    ///
    /// Errors: the meter is past its limit, the results counted too; an allocation fails. Cost: that
    /// of `disjointness::are_lists_disjoint`.
    pub fn are_disjoint(
        &mut self,
        pairs: &Pairs<'_>,
        cited: &CitedPairs<'_>,
        made: &mut PairBuffer,
        meter: &mut Meter,
    ) -> Result<bool, Stop>
        requires distinct { AreDistinct pairs.now.names }
        requires over { AreOver pairs.now.names self.old.images }
        requires cited { AreCitedAt pairs.now.names cited.now }
        ensures same { self.new ≡ self.old }
        ensures disjoint { IfOk result
            (λ ok. ok ≡ are_numbered_lists_disjoint pairs.now self.old.images (cited_lists cited.now)) }
        ensures counted { OnOk result
            (HasCountedMade pairs.now self.old.images (cited_lists cited.now) meter.old meter.new) }
        ensures costly { IfErr result (λ stop. stop ≡ Stop.TooCostly
            → AreMadePast (is_past_with (with_work meter.old self.old.results.weight)) pairs.now
            self.old.images (cited_lists cited.now)) }
    {
        self.disjoint_images
            .begin_citation(meter.left_after(self.weight as u64));
        let all = are_lists_disjoint(
            &mut self.disjoint_images,
            pairs,
            self.symbols.as_slice(),
            &self.images,
            cited,
            made,
        );
        meter.add(self.disjoint_images.work())?;
        all
    }

    /// Pops the last `count` results and pushes the expression with the images substituted, or
    /// returns `false` if the proof would be too heavy.
    ///
    /// Errors: the meter would be past its limit with this result and those before it; an
    /// allocation fails, or the buffer would exceed the limit set by `set_symbol_limit`.
    /// Cost: the symbols of the expression, and those written, of which there are at most as many
    /// as the meter has left.
    #[inline(always)]
    pub fn apply(&mut self, count: usize, expr: &[u32], meter: &Meter) -> Result<bool, Stop>
        requires { count ≤ length self.old.results.stack }
        ensures adds { IfOk result
            (λ ok. Adds ok self.old.results self.new.results (below count self.old.results.stack)
            (code_apply self.old.images expr.now)) }
        ensures light { IfOk result (λ _. self.new.results.weight ≤ weight_limit) }
        ensures kept { IfOk result (λ ok. IsKept ok self.old self.new) }
        ensures costly { IfErr result (λ stop. stop ≡ Stop.TooCostly
            → IsPastResult self.old.results.weight (code_apply self.old.images expr.now) meter.now) }
    {
        let keep = self.stack.len() - count;
        let start = self.symbols.len();
        let room = self.symbols_limit.saturating_sub(start);
        let limit = least(room.min(SYMBOLS_LIMIT - self.weight), meter, self.weight);
        if !self.symbols.add_applied(&self.images, expr, limit)? {
            return refusal(
                self.symbols.as_slice(),
                &self.images,
                expr,
                self.weight,
                meter,
            );
        }
        let place = range_between(start, self.symbols.len());
        self.weight += self.symbols.len() - start;
        truncate_and_push(&mut self.stack, keep, place)?;
        Ok(true)
    }

    /// Removes all results and images. Frees their memory, but not that of the table of images.
    ///
    /// Does not allocate.
    pub fn release(&mut self, alloc: Global)
        ensures { self.new.results ≡ record { stack = []; saved = []; weight = 0 } }
    {
        self.disjoint_images.release(alloc);
        self.images.clear();
        self.symbols = Buffer::new(alloc);
        self.stack = Vec::new(alloc);
        self.saved = Vec::new(alloc);
        self.weight = 0;
    }

    /// Returns the weight of the proof so far: the number of symbols of all results that were
    /// pushed, by citations and recalls.
    pub fn weight(&self) -> usize
        ensures { result ≡ self.now.results.weight }
    {
        self.weight
    }

    /// Returns the number of results on the stack.
    pub fn len(&self) -> usize
        ensures { result ≡ length self.now.results.stack }
    {
        self.stack.len()
    }

    /// Returns the result at that index of the stack, from 0 at its bottom.
    pub fn get(&self, index: usize) -> &[u32]
        requires { index < length self.now.results.stack }
        ensures { slice_get self.now.results.stack index ≡ Some result.now }
    {
        let place = self.stack[index];
        symbols_at(self.symbols.as_slice(), place)
    }

    /// Returns the range of the last result in the buffer of symbols.
    #[inline(always)]
    pub fn last_range(&self) -> SymbolRange
        requires { 0 < length self.now.results.stack }
        ensures { IsLastRange self.now result }
    {
        self.stack[self.stack.len() - 1]
    }

    /// Returns the buffer of symbols.
    pub fn into_symbols(self) -> Buffer
        ensures { result ≡ self.symbols }
    {
        self.symbols
    }

    /// Returns the number of results that were marked.
    pub fn saved_len(&self) -> usize
        ensures { result ≡ length self.now.results.saved }
    {
        self.saved.len()
    }

    /// Reads the images of the variables of the `$f` from the last results, one for each
    /// hypothesis, whatever these begin with. A later result for the same variable does not count.
    ///
    /// Errors: an allocation fails. Cost: a step for each hypothesis.
    pub fn read_untyped(&mut self, hypotheses: &Hypotheses<'_>) -> Result<(), AllocError>
        requires { length hypotheses.now ≤ length self.old.results.stack }
        ensures same { self.new.results ≡ self.old.results }
        ensures read { OnOk result
            (AreGiven hypotheses.now (top (length hypotheses.now) self.old.results.stack) self.new.images) }
    {
        let places = &self.stack[self.stack.len() - hypotheses.len()..];
        read_tails(&mut self.images, hypotheses, places)
    }

    /// Returns the image of a symbol, or `None` if it has none and is its own image.
    pub fn image(&self, symbol: u32) -> Option<&[u32]>
        ensures { MatchOption result (code_image self.now.images symbol ≡ symbol ∷ [])
            (λ image. image.now ≡ code_image self.now.images symbol) }
    {
        match self.images.get(symbol) {
            Some(range) => Some(symbols_at(self.symbols.as_slice(), range)),
            None => None,
        }
    }

    /// Returns whether the result at that index of the stack, from 0 at its bottom, is the
    /// expression with the images substituted.
    ///
    /// Cost: that of `Buffer::matches`.
    pub fn matches(&self, index: usize, expr: &[u32]) -> bool
        requires { index < length self.now.results.stack }
        ensures { IsTrue result ↔ (get_or self.now.results.stack index [] ≡ code_apply self.now.images expr.now) }
    {
        self.symbols.matches(&self.images, expr, self.stack[index])
    }

    /// Returns two variables of one of the groups whose images are not disjoint at the statement of
    /// the pairs, or `None` if there are none.
    ///
    /// Errors: an allocation fails. Cost: that of `subst::first_violation`.
    pub fn first_violation(
        &self,
        alloc: Global,
        pairs: &Pairs<'_>,
        groups: &Groups<'_>,
    ) -> Result<Option<DisjointViolation>, AllocError>
        requires over { AreOver pairs.now.names self.now.images }
        requires below { AllBelow (length pairs.now.names) groups.now }
        ensures { IfOk result (λ found. MatchOption found
            (list_all (are_numbers_disjoint pairs.now.statements (image_named pairs.now.names self.now.images)) groups.now ≡ true)
            (IsViolation pairs.now self.now.images groups.now)) }
    {
        first_violation(alloc, pairs, groups, &self.symbols, &self.images)
    }

    /// Returns whether the expression is the only result on the stack.
    pub fn is_only(&self, expr: &[u32]) -> bool
        ensures only { IsTrue result ↔ (self.now.results.stack ≡ expr.now ∷ []) }
        ensures light { self.now.results.weight ≤ weight_limit }
    {
        if self.stack.len() != 1 {
            return false;
        }
        let place = self.stack[0];
        symbols_at(self.symbols.as_slice(), place) == expr
    }
}

/// Returns how long a result may be behind results of this weight: no longer than the room, and
/// than what the meter has left.
#[inline(always)]
fn least(room: usize, meter: &Meter, weight: usize) -> usize
    ensures { result ≤ room }
{
    match meter.left_after(weight as u64) {
        Some(left) => room.min(left as usize),
        None => room,
    }
}

/// Returns why a result is not pushed for which there is no room behind results of this weight:
/// `false` if the proof would be too heavy.
///
/// Errors: `Stop::TooCostly` if the meter would be past its limit; else `Stop::Memory`. Cost: a
/// look-up for each symbol of the expression.
#[cold]
#[inline(never)]
fn refusal(
    symbols: &[u32],
    images: &ImageRanges,
    expr: &[u32],
    weight: usize,
    meter: &Meter,
) -> Result<bool, Stop>
    requires inside { AreInside (length symbols.now) images.now }
    requires light { weight ≤ weight_limit }
    ensures heavy { IfOk result (λ ok. (ok ≡ false)
        × (weight_limit < weight + length (code_apply (images_at symbols.now images.now) expr.now))) }
    ensures costly { IfErr result (λ stop. stop ≡ Stop.TooCostly
        → IsPastResult weight (code_apply (images_at symbols.now images.now) expr.now) meter.now) }
{
    let Some(len) = applied_len(symbols, images, expr, SYMBOLS_LIMIT - weight) else {
        return Ok(false);
    };
    if meter.is_past_with((weight + len) as u64) {
        Err(Stop::TooCostly)
    } else {
        Err(Stop::Memory)
    }
}

/// Truncates to the first `keep` ranges and appends one. Usually this overwrites the next range.
#[inline(always)]
fn truncate_and_push(
    stack: &mut Vec<SymbolRange>,
    keep: usize,
    place: SymbolRange,
) -> Result<(), AllocError>
    requires { keep ≤ length stack.old.items }
    ensures ok { OnOk result (stack.new.items ≡ take keep stack.old.items ++ place ∷ []) }
    ensures err { OnErr result (stack.new.items ≡ take keep stack.old.items) }
{
    if keep < stack.len() {
        stack[keep] = place;
        stack.truncate(keep + 1);
    } else {
        stack.push(place)?;
    }
    Ok(())
}

/// Sets the image of a variable to the result in the range `place` without its first symbol, or
/// returns `false` if its first symbol is not the typecode.
#[inline(always)]
fn read_float(
    images: &mut ImageRanges,
    symbols: &[u32],
    typecode: u32,
    variable: u32,
    place: SymbolRange,
) -> Result<bool, AllocError>
    requires { place.end ≤ length symbols.now }
    ensures begins { IfOk result (λ ok. IsTrue ok ↔ BeginsWith symbols.now typecode place) }
    ensures set { IfOk result
        (λ ok. IsTrue ok → (y : ℕ)
        → lookup (nat_eq y) images.new
        ≡ (if y == variable then Some (tail_of place) else lookup (nat_eq y) images.old)) }
    ensures inside { (n : ℕ) → place.end ≤ n → AreInside n images.old → AreInside n images.new }
{
    if place.start >= place.end || symbols[place.start as usize] != typecode {
        return Ok(false);
    }
    let tail = SymbolRange {
        start: place.start + 1,
        end: place.end,
    };
    images.set(variable, tail)?;
    Ok(true)
}

/// Sets the images of the variables of all `$f`, and no others, to their results without the first
/// symbols, and returns whether there are `$e`, or `None` if a result does not begin with the
/// typecode of its `$f`.
///
/// Errors: an allocation fails. Cost: a step for each hypothesis.
#[inline(always)]
fn read_off(
    images: &mut ImageRanges,
    symbols: &[u32],
    typecodes: &[u32],
    hypotheses: &Hypotheses<'_>,
    places: &[SymbolRange],
) -> Result<Option<bool>, AllocError>
    requires same { length places.now ≡ length hypotheses.now }
    requires typecodes { length typecodes.now ≡ length hypotheses.now }
    requires within { AreWithin (length symbols.now) places.now }
    requires different { AreDifferent hypotheses.now }
    ensures ok { IfOk result
        (λ r. ReadsAll (is_some r)
        (length hypotheses.now) symbols.now typecodes.now hypotheses.now places.now images.new) }
    ensures essentials { IfOk result (λ r. IfSome r (HasSeenEssentials hypotheses.now)) }
    ensures inside { (n : ℕ) → AreWithin n places.now → AreInside n images.new }
{
    images.clear();
    let mut has_essentials = false;
    for k in 0..hypotheses.len() {
        match hypotheses.get(k) {
            Hypothesis::Float(variable) => {
                if !read_float(images, symbols, typecodes[k], variable, places[k])? {
                    return Ok(None);
                }
            }
            Hypothesis::Essential(_) => has_essentials = true,
        }
    }
    Ok(Some(has_essentials))
}

/// Returns the range without its first symbol, if it has one.
fn without_first(range: SymbolRange) -> SymbolRange
    requires { range.start ≤ range.end }
    ensures inside { (result.start ≤ result.end) × (result.end ≡ range.end) }
    ensures symbols { (symbols : List ℕ) → symbols_in symbols result ≡ drop 1 (symbols_in symbols range) }
{
    if range.start == range.end {
        return range;
    }
    SymbolRange {
        start: range.start + 1,
        end: range.end,
    }
}

/// Sets the images of the variables of all `$f`, and no others, to their results without the first
/// symbols; of two results for one variable the first one counts.
///
/// Errors: an allocation fails. Cost: a step for each hypothesis.
fn read_tails(
    images: &mut ImageRanges,
    hypotheses: &Hypotheses<'_>,
    places: &[SymbolRange],
) -> Result<(), AllocError>
    requires same { length places.now ≡ length hypotheses.now }
    requires within { (n : ℕ) × AreWithin n places.now }
    ensures read { (symbols : List ℕ)
        → OnOk result (AreGiven hypotheses.now (map (symbols_in symbols) places.now) (images_at symbols images.new)) }
    ensures inside { (n : ℕ) → AreWithin n places.now → AreInside n images.new }
{
    images.clear();
    for k in (0..hypotheses.len()).rev() {
        if let Hypothesis::Float(variable) = hypotheses.get(k) {
            images.set(variable, without_first(places[k]))?;
        }
    }
    Ok(())
}
