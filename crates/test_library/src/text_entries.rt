//! The verdict on a text of the greatest length, and on one of one byte more. Also helpers that the
//! tests share: entries of texts, and calls on a new library.
use bytes::Bytes;
use library::{Cause, Entry, Library, Submission, Verdict};
use std::alloc::Global;

/// Returns the text as an entry of author 1 with this serial number.
pub fn entry(serial: u64, text: Bytes) -> Entry {
    Entry::Text(Submission {
        author: 1,
        serial,
        text,
    })
}

/// Lengths of texts in bytes, and the verdict on a text of each.
const LENGTHS: [(usize, Verdict); 2] = [
    (67_108_864, Verdict::Added),
    (67_108_865, Verdict::Refused(Cause::TooLong)),
];

#[test]
fn texts_have_a_limit(rt: HostRuntime) {
    for (length, verdict) in LENGTHS {
        assert!(rt;
            spaces_verdict(rt.alloc(), length) == Some(verdict),
            "{length} bytes"
        );
    }
}

/// Returns the verdict of a new library on a text of `length` spaces.
fn spaces_verdict(alloc: Global, length: usize) -> Option<Verdict> {
    let text = Bytes::from_vec(vec![in alloc; b' '; length].ok()?).ok()?;
    let entry = entry(1, text);
    with_new_library(alloc, |library| verdict_on(library, &entry))
}

/// Returns what `action` returns for a new library.
pub fn with_new_library<T, F: FnOnce(&mut Library) -> T>(alloc: Global, action: F) -> T
    requires { F.IsAlwaysCallable action }
{
    let mut library = Library::new(alloc, None);
    let answer = action(&mut library);
    // An explicit `drop` is proved once for each type; a drop at the end of the scope would be
    // proved here.
    drop(library);
    answer
}

/// Returns the verdict on the entry, or `None` if an allocation fails.
pub fn verdict_on(library: &mut Library, entry: &Entry) -> Option<Verdict> {
    library.apply(Some(entry)).ok()
}
