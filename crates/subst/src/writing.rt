//! Writes an expression with all images substituted into the buffer that has the images.
ghost use Rattle.std.specs.Prelude.{◌≡◌, ◌+◌, ◌<◌, ◌≤◌, ◌^◌, length, min, take, IfSome, IfNone};
ghost use Rattle.std.specs.Prelude.{OnOk};
ghost use Rattle.frame.specs.Substitution.{code_apply};
ghost use Rattle.subst.specs.Stored.Written.{IsWritten, LacksRoom};
ghost use Rattle.subst.specs.SymbolRanges.{AreInside, images_at};
ghost use Rattle.subst.specs.declared.buffer.TheConstants.{SYMBOLS_LIMIT};

use crate::buffer::SYMBOLS_LIMIT;
use crate::copies::{LANES, copy_range, put_symbol};
use crate::image_ranges::ImageRanges;
use std::alloc::AllocError;

/// Writes the expression with all images substituted at `at`, and returns where the result ends, at
/// most `limit` symbols after `at`. Returns `None` if an image would end where fewer symbols than
/// the expression has are left of these, or before the last `LANES`, which a copy may overwrite.
#[inline(always)]
pub fn write_applied(
    symbols: &mut [u32],
    at: usize,
    limit: usize,
    images: &ImageRanges,
    expr: &[u32],
) -> Option<usize>
    requires within { AreInside at images.now }
    requires inside { at ≤ length symbols.old }
    requires limit { limit < 2 ^ 63 }
    ensures some { IfSome result
        (IsWritten symbols.old symbols.new at (code_apply (images_at (take at symbols.old) images.now) expr.now)) }
    ensures within { IfSome result (λ end. end ≤ at + limit) }
    ensures none { IfNone result
        (LacksRoom (min (length symbols.old) (at + limit + 16)) at (length expr.now)
        (code_apply (images_at (take at symbols.old) images.now) expr.now)) }
    ensures kept { take at symbols.new ≡ take at symbols.old }
    ensures count { length symbols.new ≡ length symbols.old }
{
    let room = (symbols.len() - at).min(limit + LANES);
    if room < expr.len() + LANES {
        return None;
    }
    let last = at + room - expr.len() - LANES;
    let table = images.table();
    let mut end = at;
    for symbol in expr {
        end = match table.get(*symbol) {
            Some(range) => copy_range(symbols, end, last, range)?,
            None => put_symbol(symbols, end, *symbol),
        };
    }
    Some(end)
}

/// Returns the number of symbols of the expression with all images substituted, or `None` if it is
/// more than `room`.
///
/// Cost: a look-up for each symbol of the expression.
pub fn applied_len(
    symbols: &[u32],
    images: &ImageRanges,
    expr: &[u32],
    room: usize,
) -> Option<usize>
    requires { AreInside (length symbols.now) images.now }
    ensures some { IfSome result
        (λ len. (len ≡ length (code_apply (images_at symbols.now images.now) expr.now)) × (len ≤ room)) }
    ensures none { IfNone result (room < length (code_apply (images_at symbols.now images.now) expr.now)) }
{
    let table = images.table();
    let mut len = 0;
    for symbol in expr {
        let more = match table.get(*symbol) {
            Some(range) => (range.end - range.start) as usize,
            None => 1,
        };
        if more > room - len {
            return None;
        }
        len += more;
    }
    Some(len)
}

/// Makes room for `more` symbols after the first `len`, and for those that a copy may overwrite.
///
/// Errors: an allocation fails; the first `len` symbols are unchanged.
/// Cost: a copy of the buffer, which about doubles; near `SYMBOLS_LIMIT` it grows only up to that,
/// or by a sixteenth.
#[cold]
#[inline(never)]
pub fn make_room(buffer: &mut Vec<u32>, len: usize, more: usize) -> Result<(), AllocError>
    requires { (len ≤ SYMBOLS_LIMIT) × (more < 2 ^ 62) × (len ≤ length buffer.old.items) }
    ensures room { OnOk result (len + more + 16 ≤ length buffer.new.items) }
    ensures same { take len buffer.new.items ≡ take len buffer.old.items }
    ensures within { len ≤ length buffer.new.items }
{
    let size = grown_size(len, len + more + LANES);
    buffer.reserve_exact(size.saturating_sub(buffer.len()))?;
    buffer.resize(size, 0)?;
    Ok(())
}

/// Returns the size to which a buffer with `len` symbols grows if it needs at least `needed`.
fn grown_size(len: usize, needed: usize) -> usize
    requires { (len < 2 ^ 62) × (needed < 2 ^ 63) }
    ensures { needed ≤ result }
{
    let below_bound = (SYMBOLS_LIMIT + LANES).saturating_sub(needed);
    needed + len.min(below_bound).max(needed / 16)
}
