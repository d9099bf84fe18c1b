//! Frees the capacity that a list no longer uses.
ghost use Rattle.std.specs.Prelude.{◌≡◌};

/// Frees memory that a list no longer uses: shrinks its capacity to twice its length if a quarter
/// of the capacity, rounded down, is more than the length. If no smaller block can be allocated,
/// the capacity stays.
///
/// Cost: the list's length; amortized, a constant for each item that was appended or removed. After
/// a few items of many are removed, it copies nothing.
pub fn give_back<T>(list: &mut Vec<T>)
    ensures { list.new.items ≡ list.old.items }
{
    if list.capacity() / 4 > list.len() {
        list.shrink_to(list.len().saturating_mul(2));
    }
}
