//! Entries as columns of a row.
ghost use Rattle.std.specs.Prelude.{◌≡◌, ◌++◌, IfOk, OnOk};
ghost use Rattle.sqlite_value.specs.Order.{column};
ghost use Rattle.entry_rows.specs.EntryColumns.{IsCharterOf, IsEntryOf, entry_columns, names_text};
ghost use Rattle.entry_rows.specs.EntryColumns.{numbers_read, unsigned_in};

use bytes::Bytes;
use file_keep::{ValueColumns, push_number};
use library::{Entry, Names, Submission};
use sqlite_value::row::Row;
use sqlite_value::value::ValueRef;
use std::alloc::{AllocError, Global};
use world::Carried;

/// The columns of an entry: its author, its serial number, and its text; for a charter NULL in
/// place of the text, and then the authors that it lists, in decimal with a space behind each.
#[derive(Clone, Copy)]
pub struct EntryColumns;

impl ValueColumns<Carried> for EntryColumns {
    ghost use Rattle.std.specs.Prelude.{◌<◌, length};
    ghost use Rattle.std.proofs.Common.{lit<};
    ghost use Rattle.library.specs.declared.entry.Entry.TheVariants.{Text, Charter};
    ghost use Rattle.entry_rows.specs.EntryColumns.{entry_columns, EntryIsInRange};

    ghost columns = { λ c. entry_columns c.0 };

    ghost is_in_range = { λ c. EntryIsInRange c.0 };

    fn write(value: &Carried, alloc: Global, row: &mut Row) -> Result<(), AllocError>
        ensures { OnOk result (row.new ≡ row.old ++ entry_columns value.now.0) }
    {
        write_entry(alloc, row, &value.0)
    }

    fn read(alloc: Global, row: &Row) -> Result<Option<Carried>, AllocError> {
        match read_entry(alloc, row)? {
            Some(entry) => Ok(Some(Carried(entry))),
            None => Ok(None),
        }
    }

    ghost some = { λ c. elim c.0 as (λ e. 0 < length (entry_columns e))
        [ Text s ↦ lit< tt | Charter a s n ↦ lit< tt ] };
}

/// Appends the columns of an entry.
fn write_entry(alloc: Global, row: &mut Row, entry: &Entry) -> Result<(), AllocError>
    ensures { OnOk result (row.new ≡ row.old ++ entry_columns entry.now) }
{
    push_number(row, entry.author())?;
    push_number(row, entry.serial())?;
    match entry {
        Entry::Text(submission) => row.push(ValueRef::Text(submission.text.as_slice())),
        Entry::Charter { names, .. } => {
            let text = names_text(alloc, names.as_slice())?;
            row.push(ValueRef::Null)?;
            row.push(ValueRef::Text(text.as_slice()))
        }
    }
}

/// Returns each number in decimal, with a space behind it.
fn names_text(alloc: Global, names: &[u64]) -> Result<Vec<u8>, AllocError>
    ensures { IfOk result (λ text. text.items ≡ names_text names.now) }
{
    let mut text = Vec::new(alloc);
    for name in names {
        text::push_number(&mut text, *name)?;
        text.push(b' ')?;
    }
    Ok(text)
}

/// Returns the entry that the columns from the third on say.
fn read_entry(alloc: Global, row: &Row) -> Result<Option<Entry>, AllocError>
    ensures { IfOk result (IsEntryOf row.now) }
{
    let author = unsigned_at(row, 2);
    let serial = unsigned_at(row, 3);
    match row.get(4) {
        ValueRef::Text(text) => Ok(Some(Entry::Text(Submission {
            author,
            serial,
            text: Bytes::copy_from_slice(alloc, text)?,
        }))),
        _ => read_charter(alloc, row, author, serial),
    }
}

/// Returns the charter of this author and serial number that the column of the names says.
fn read_charter(
    alloc: Global,
    row: &Row,
    author: u64,
    serial: u64,
) -> Result<Option<Entry>, AllocError>
    ensures { IfOk result (IsCharterOf row.now author serial) }
{
    let ValueRef::Text(text) = row.get(5) else {
        return Ok(None);
    };
    let Some(names) = Names::new(read_names(alloc, text)?) else {
        return Ok(None);
    };
    Ok(Some(Entry::Charter {
        author,
        serial,
        names,
    }))
}

/// Returns the number in a column, or 0 if it has none.
fn unsigned_at(row: &Row, at: usize) -> u64
    ensures { result ≡ unsigned_in (column row.now at) }
{
    match row.get(at) {
        ValueRef::Int(n) => n.cast_unsigned(),
        _ => 0,
    }
}

/// Returns the numbers that a text has, each with a space behind it. Of another text it returns any
/// numbers.
fn read_names(alloc: Global, text: &[u8]) -> Result<Vec<u64>, AllocError>
    ensures { IfOk result (λ numbers. numbers.items ≡ numbers_read 0 text.now) }
{
    let mut numbers = Vec::new(alloc);
    let mut value = 0u64;
    for byte in text {
        if *byte == b' ' {
            numbers.push(value)?;
            value = 0;
        } else {
            // The digits are the bytes 48 to 57, and 48 is 3 times 16.
            value = value.wrapping_mul(10).wrapping_add(u64::from(*byte % 16));
        }
    }
    Ok(numbers)
}
