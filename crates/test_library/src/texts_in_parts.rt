//! A text that several threads read in parts has as many statements as one thread reads, or the
//! same fault, even if its comments contain `$.`.
use mm_read::ReadFault;
use read_pool::read_in_parts;
use std::alloc::{AllocError, Global};
use std::thread::Threads;

/// A comment that contains a `$.`, and one statement.
const LINE: &[u8] = b"$( $c b $. $) $c a $.\n";

/// The number of lines of the text, which has 4.2 MiB: it is split into as many parts as there are
/// workers, at most four, since a part has at least 1 MiB on average.
const LINES: usize = 200_000;

#[test]
fn texts_in_parts_read_alike(rt: HostRuntime) {
    for workers in [1usize, 2, 3, 16] {
        assert!(rt; reads_all(&rt, rt.alloc(), workers), "{workers}");
        assert!(rt; refuses_incomplete(&rt, rt.alloc(), workers), "{workers}");
    }
}

/// Returns whether this number of workers reads one statement from each line.
fn reads_all<R: Threads + Sync>(rt: &R, alloc: Global, workers: usize) -> bool {
    let Ok(text) = lines(alloc) else {
        return false;
    };
    match read_in_parts(rt, alloc, &text, workers) {
        Ok(statements) => statements.len() == LINES,
        Err(_) => false,
    }
}

/// Returns whether this number of workers refuses a text whose last statement has no end, at the
/// token after the last one.
fn refuses_incomplete<R: Threads + Sync>(rt: &R, alloc: Global, workers: usize) -> bool {
    let Ok(mut text) = lines(alloc) else {
        return false;
    };
    if text.extend_from_slice(b"$c").is_err() {
        return false;
    }
    match read_in_parts(rt, alloc, &text, workers) {
        Ok(_) => false,
        Err(fault) => {
            fault
                == ReadFault::Shape {
                    token: 3 * LINES + 2,
                }
        }
    }
}

/// Returns the text of `LINES` lines.
fn lines(alloc: Global) -> Result<Vec<u8>, AllocError> {
    let mut text = Vec::new(alloc);
    for _ in 0..LINES {
        text.extend_from_slice(LINE)?;
    }
    Ok(text)
}
