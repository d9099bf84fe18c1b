//! How a row of a table says a value.
ghost use Rattle.std.specs.Prelude.{◌≡◌, ◌<◌, ◌++◌, ◌∷◌, length, IfOk, List, OnOk, Some};
ghost use Rattle.sqlite_value.specs.declared.value.Value.{Value as Column};
ghost use Rattle.sqlite_value.specs.declared.value.Value.TheVariants.{Null};

use sqlite_value::row::Row;
use std::alloc::{AllocError, Global};
use synod::Value;

/// How columns of a row say a value.
pub trait ValueColumns<V: Value>: Drop {
    /// The columns that say a value, of which there is at least one (`some`).
    ghost columns: { V → List Column };

    /// The value is one that its type can hold: its numbers are in the ranges of their types, and
    /// its parts keep their invariants.
    ghost is_in_range: { V → Type 0 };

    /// Appends the columns of a value to a row.
    ///
    /// Errors: an allocation fails.
    fn write(value: &V, alloc: Global, row: &mut Row) -> Result<(), AllocError>
        ensures { OnOk result (row.new ≡ row.old ++ columns value.now) };

    /// Returns the value that the columns of the row from the third on say. Of columns that no
    /// value says it returns any value or `None`; a caller compares what the value writes.
    ///
    /// Errors: an allocation fails.
    fn read(alloc: Global, row: &Row) -> Result<Option<V>, AllocError>
        ensures { (v : V) (id : Column) → is_in_range v → row.now ≡ id ∷ Null ∷ columns v
            → IfOk result (λ found. found ≡ Some v) };

    ghost some: { (v : V) → 0 < length (columns v) };
}
