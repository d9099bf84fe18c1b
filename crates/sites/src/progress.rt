//! Prints the progress of a site with many pages.
ghost use Rattle.std.specs.Prelude.{◌≡◌, ◌++◌, ◌<◌, OnOk};
ghost use Rattle.sites.specs.Progress.{grouped, grouped_thousands, is_silent, progress_line};
ghost use Rattle.sites.specs.Progress.{three_digits};

use std::alloc::{AllocError, Global};
use std::io::Write;
use text::push_number;

/// Prints how many of `total` pages are written, at each multiple of `total / 10` (rounded down)
/// below `total`, if `total` is at least 5,000. A line that cannot be allocated or written is
/// dropped.
pub fn print_progress<F: Write>(alloc: Global, progress: &mut F, written: u64, total: u64) {
    if is_silent(written, total) {
        return;
    }
    let mut line = Vec::new(alloc);
    if push_progress(&mut line, written, total).is_ok() {
        let _ = progress.write_all(line.as_slice());
    }
}

/// Returns whether no line is printed.
fn is_silent(written: u64, total: u64) -> bool
    ensures { result ≡ is_silent written total }
{
    total < 5_000 || written % (total / 10) != 0 || written == total
}

/// Appends `N of M pages`.
fn push_progress(line: &mut Vec<u8>, written: u64, total: u64) -> Result<(), AllocError>
    ensures { OnOk result (line.new.items ≡ line.old.items ++ progress_line written total) }
{
    push_grouped(line, written)?;
    line.extend_from_slice(b" of ")?;
    push_grouped(line, total)?;
    line.extend_from_slice(b" pages\n")
}

/// Appends a number below 1,000,000,000 with a comma between groups of three digits.
fn push_grouped(line: &mut Vec<u8>, number: u64) -> Result<(), AllocError>
    ensures { OnOk result (line.new.items ≡ line.old.items ++ grouped number) }
{
    if number < 1_000 {
        return push_number(line, number);
    }
    push_grouped_thousands(line, number / 1_000)?;
    line.extend_from_slice(b",")?;
    push_three_digits(line, number % 1_000)
}

/// Appends the digits before the last three, grouped.
fn push_grouped_thousands(line: &mut Vec<u8>, thousands: u64) -> Result<(), AllocError>
    ensures { OnOk result (line.new.items ≡ line.old.items ++ grouped_thousands thousands) }
{
    if thousands < 1_000 {
        return push_number(line, thousands);
    }
    push_number(line, thousands / 1_000)?;
    line.extend_from_slice(b",")?;
    push_three_digits(line, thousands % 1_000)
}

/// Appends the last three digits of a number.
fn push_three_digits(line: &mut Vec<u8>, number: u64) -> Result<(), AllocError>
    ensures { OnOk result (line.new.items ≡ line.old.items ++ three_digits number) }
{
    push_number(line, number / 100 % 10)?;
    push_number(line, number / 10 % 10)?;
    push_number(line, number % 10)
}
