//! The statements that one proof cites.
ghost use Rattle.std.specs.Prelude.{◌≡◌, suc, ◌<◌, ◌++◌, length, filter_map, IfOk, OnOk};
ghost use Rattle.sites.specs.PassState.{position_list};
ghost use Rattle.frame.specs.AtPosition.{HasLabelsOnce};
ghost use Rattle.frame.specs.Stored.Hypotheses.{In, ListsExactly};
ghost use Rattle.library.specs.UseMarks.{cited_position};
ghost use Rattle.library.specs.Uses.{Cites, ItemsCite};

use frame::Frames;
use library::Library;
use mm_read::Stmt;
use proof_code::Items;
use std::alloc::{AllocError, Global};

/// Returns the positions of the statements that the proof of the `$p` at an index, from 0, cites,
/// in ascending order, each once. Returns an empty list if the statement there is not a `$p`.
///
/// Errors: an allocation fails. Cost: the size of the proof, and that of sorting its citations.
pub fn cited_at(alloc: Global, library: &Library, index: usize) -> Result<Vec<usize>, AllocError>
    requires { index < length library.now.replica.statements }
    ensures { IfOk result (λ list. ListsExactly (Cites library.now.replica.statements (suc index)) list.items) }
{
    let Stmt::Prove { label, .. } = &library.statements()[index] else {
        return Ok(Vec::new(alloc));
    };
    // A `$p` of a library has items, so only an allocation can fail here.
    let Ok((_, items)) = library.items(label.as_bytes()) else {
        return Err(AllocError);
    };
    cited_positions(alloc, library.frames(), &items)
}

/// Returns the positions of the statements that the items cite, in ascending order, each once.
fn cited_positions(alloc: Global, frames: &Frames, items: &Items) -> Result<Vec<usize>, AllocError>
    requires { HasLabelsOnce frames.now.statements }
    ensures { IfOk result (λ list. ListsExactly (ItemsCite frames.now.statements items.now) list.items) }
{
    let parts = items.parts();
    let positions = frames.positions(parts.labels)?;
    let mut cited = Vec::new(alloc);
    push_positions(&mut cited, positions.as_slice(), parts.numbers)?;
    sort_dedup(&mut cited);
    Ok(cited)
}

/// Appends the positions that the items with these numbers cite (`proof_code::ItemParts`).
fn push_positions(
    cited: &mut Vec<usize>,
    positions: &[Option<usize>],
    numbers: &[u32],
) -> Result<(), AllocError>
    ensures { OnOk result (cited.new.items ≡ cited.old.items ++ filter_map (cited_position positions.now) numbers.now) }
{
    for number in numbers {
        push_if_some(cited, cited_position(positions, *number))?;
    }
    Ok(())
}

/// Appends a position, if there is one.
fn push_if_some(cited: &mut Vec<usize>, position: Option<usize>) -> Result<(), AllocError>
    ensures { OnOk result (cited.new.items ≡ cited.old.items ++ position_list position) }
{
    if let Some(position) = position {
        cited.push(position)?;
    }
    Ok(())
}

/// Returns the position that the item with a number cites. The number of a citation is one more
/// than the index of its label, at which `positions` has the position of the statement with that
/// label. A mark and a recall, which have other numbers, cite nothing.
fn cited_position(positions: &[Option<usize>], number: u32) -> Option<usize>
    ensures { result ≡ cited_position positions.now number }
{
    let index = (number as usize).checked_sub(1)?;
    *positions.get(index)?
}

/// Sorts positions in ascending order and removes repetitions.
pub fn sort_dedup(list: &mut Vec<usize>)
    ensures { ListsExactly (λ p. In p list.old.items) list.new.items }
{
    list.sort_unstable();
    list.dedup();
}
