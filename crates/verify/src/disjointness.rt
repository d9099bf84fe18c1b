//! The disjoint variable condition of a citation, by the mandatory pairs of the cited assertion.

ghost use Rattle.std.specs.Prelude.{◌≡◌, ◌<◌, [], List, length, true, IfErr, IfOk, OnOk};
ghost use Rattle.frame.specs.Below.{AreBelow};
ghost use Rattle.frame.specs.MandatoryPairs.{has_two_or_more_items};
ghost use Rattle.mm_lex.specs.Alphabet.{Name};
ghost use Rattle.names.specs.Codes.{AreDistinct};
ghost use Rattle.subst.specs.Images.{AreOver, are_numbered_lists_disjoint};
ghost use Rattle.subst.specs.Images.{is_numbered_list_disjoint};
ghost use Rattle.subst.specs.ReadImages.{HasRead, HasReadOnly, IsPastList, is_over};
ghost use Rattle.subst.specs.SymbolRanges.{AreInside, images_at};
ghost use Rattle.verify.specs.CitedPairs.{AreCitedAt, IsBegun, IsCitedList, cited_lists, list_of};
ghost use Rattle.verify.specs.Counted.{AreMadeCounted, AreMadePast, CountsIf};

use entries::{Groups, Hypotheses};
use frame::{PairBuffer, Pairs};
use std::alloc::AllocError;
use subst::{DisjointImages, ImageRanges, Stop};

/// The mandatory pairs of a cited assertion, as lists: a variable, and those before it whose images
/// must be disjoint from its own.
#[derive(Drop)]
pub struct CitedPairs<'a> {
    /// Whether the lists of two variables or more are kept with the assertion. Else a `PairBuffer`
    /// makes one list for each variable.
    pub are_kept: bool,
    /// The lists that are kept.
    pub kept: Groups<'a>,
    /// The mandatory hypotheses of the assertion.
    pub hypotheses: Hypotheses<'a>,
    /// The pairs that are active at the assertion.
    pub active: Pairs<'a>,
}

/// Returns whether the image of the first variable of each list is disjoint from those of the
/// others, at the statement of the pairs. The images are ranges of the symbols. A citation begins.
///
/// Errors: those of `DisjointImages::is_disjoint`. Cost: that of it for each list; all are read,
/// also behind one that fails. For lists that are made also the rows of their variables.
pub fn are_lists_disjoint(
    disjoint_images: &mut DisjointImages,
    pairs: &Pairs<'_>,
    symbols: &[u32],
    images: &ImageRanges,
    cited: &CitedPairs<'_>,
    made: &mut PairBuffer,
) -> Result<bool, Stop>
    requires distinct { AreDistinct pairs.now.names }
    requires named { AreOver pairs.now.names (images_at symbols.now images.now) }
    requires inside { AreInside (length symbols.now) images.now }
    requires cited { AreCitedAt pairs.now.names cited.now }
    requires read { HasReadOnly pairs.now (images_at symbols.now images.now) disjoint_images.old }
    requires none { HasRead [] disjoint_images.old }
    requires work { disjoint_images.old.work ≡ 0 }
    ensures disjoint { IfOk result
        (λ ok. ok ≡ are_numbered_lists_disjoint pairs.now (images_at symbols.now images.now) (cited_lists cited.now)) }
    ensures counted { OnOk result
        (AreMadeCounted pairs.now (images_at symbols.now images.now) (cited_lists cited.now) disjoint_images.new) }
    ensures costly { IfErr result (λ stop. stop ≡ Stop.TooCostly
        → AreMadePast (is_over disjoint_images.old.left) pairs.now
        (images_at symbols.now images.now) (cited_lists cited.now)) }
{
    let count = begin_lists(cited, made)?;
    let mut all = true;
    for index in 0..count {
        make_list(cited, made, index)?;
        let list = list_at(cited, made, index);
        all &= is_list_disjoint(disjoint_images, pairs, symbols, images, list)?;
    }
    Ok(all)
}

/// Begins to make the lists, unless they are kept, and returns how many there are.
///
/// Errors: an allocation fails. Cost: the hypotheses, if the lists are made.
fn begin_lists(cited: &CitedPairs<'_>, made: &mut PairBuffer) -> Result<usize, AllocError>
    requires { (names : List Name) × AreCitedAt names cited.now }
    ensures count { IfOk result (λ count. count ≡ length (cited_lists cited.now)) }
    ensures begun { OnOk result (IsBegun cited.now made.new) }
{
    if cited.are_kept {
        return Ok(cited.kept.len());
    }
    made.begin(&cited.hypotheses)?;
    Ok(made.len())
}

/// Makes the list at an index, unless it is kept.
///
/// Errors: an allocation fails. Cost: the row of its variable at the assertion, if it is made.
fn make_list(cited: &CitedPairs<'_>, made: &mut PairBuffer, index: usize) -> Result<(), AllocError>
    requires cited { (names : List Name) × AreCitedAt names cited.now }
    requires begun { IsBegun cited.now made.old }
    requires index { index < length (cited_lists cited.now) }
    ensures begun { IsBegun cited.now made.new }
    ensures list { OnOk result (IsCitedList cited.now index (list_of cited.now made.new index)) }
{
    if cited.are_kept {
        return Ok(());
    }
    made.fill(&cited.active, index)
}

/// Returns the list at an index, which is kept or was made last.
#[inline(always)]
fn list_at<'a>(cited: &'a CitedPairs<'_>, made: &'a PairBuffer, index: usize) -> &'a [u32]
    requires { cited.now.are_kept ≡ true → index < length cited.now.kept }
    ensures { result.now ≡ list_of cited.now made.now index }
{
    if cited.are_kept {
        cited.kept.get(index)
    } else {
        made.list()
    }
}

/// Returns whether the image of the first variable of a list is disjoint from those of the others,
/// and counts it, if there are others.
#[inline(always)]
fn is_list_disjoint(
    disjoint_images: &mut DisjointImages,
    pairs: &Pairs<'_>,
    symbols: &[u32],
    images: &ImageRanges,
    list: &[u32],
) -> Result<bool, Stop>
    requires read { HasReadOnly pairs.now (images_at symbols.now images.now) disjoint_images.old }
    requires distinct { AreDistinct pairs.now.names }
    requires named { AreOver pairs.now.names (images_at symbols.now images.now) }
    requires inside { AreInside (length symbols.now) images.now }
    requires below { AreBelow (length pairs.now.names) list.now }
    ensures read { OnOk result (HasReadOnly pairs.now (images_at symbols.now images.now) disjoint_images.new) }
    ensures disjoint { IfOk result
        (λ ok. ok ≡ is_numbered_list_disjoint pairs.now (images_at symbols.now images.now) list.now) }
    ensures counted { OnOk result
        (CountsIf (has_two_or_more_items list.now) pairs.now
        (images_at symbols.now images.now) list.now disjoint_images.old disjoint_images.new) }
    ensures left { disjoint_images.new.left ≡ disjoint_images.old.left }
    ensures costly { IfErr result (λ stop. stop ≡ Stop.TooCostly
        → (has_two_or_more_items list.now ≡ true)
        × IsPastList pairs.now (images_at symbols.now images.now) list.now disjoint_images.old) }
{
    match list {
        [] | [_] => Ok(true),
        [variable, others @ ..] => {
            disjoint_images.is_disjoint(pairs, symbols, images, *variable, others)
        }
    }
}
