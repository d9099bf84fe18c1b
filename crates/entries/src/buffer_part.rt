//! Parts of buffers, by indexes of 32 bits.
ghost use Rattle.std.specs.Prelude.{◌≡◌, ◌≤◌, ◌<◌, length, slice_range, slice_get, Some, IfOk};

use std::alloc::AllocError;

/// A part of a buffer: the indexes from `from` on that are below `to`.
#[derive(Clone, Copy, Drop)]
pub struct BufferPart {
    pub from: u32,
    pub to: u32,
}

/// Returns an index or a count as a number of 32 bits.
///
/// Errors: an index or a count of 2^32 or more is reported as a failed allocation.
pub fn to_u32(at: usize) -> Result<u32, AllocError>
    ensures { IfOk result (λ n. n ≡ at) }
{
    if at > u32::MAX as usize {
        return Err(AllocError);
    }
    Ok(at as u32)
}

/// Returns the part from one index up to another.
///
/// Errors: an index of 2^32 or more is reported as a failed allocation.
pub fn between(from: usize, to: usize) -> Result<BufferPart, AllocError>
    ensures { IfOk result (λ s. (s.from ≡ from) × (s.to ≡ to)) }
{
    Ok(BufferPart {
        from: to_u32(from)?,
        to: to_u32(to)?,
    })
}

/// Returns the items from one index up to another.
pub fn part<T>(items: &[T], from: usize, to: usize) -> &[T]
    requires { (from ≤ to) × (to ≤ length items.now) }
    ensures { result.now ≡ slice_range items.now from to }
{
    &items[from..to]
}

/// Returns the item at an index.
pub fn item<T: Copy>(items: &[T], index: usize) -> T
    requires { index < length items.now }
    ensures { slice_get items.now index ≡ Some result }
{
    items[index]
}
