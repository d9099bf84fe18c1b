//! A submission during which an allocation fails has no verdict and changes nothing; submitted
//! again, it has its usual verdict.
use crate::library_workers::verdict_by_workers;
use crate::text_entries::{entry, verdict_on, with_new_library};
use bytes::Bytes;
use library::{Cause, Library, Verdict};
use scope::Rule;
use std::alloc::Global;
use verify_pool::OpenGate;

/// A text that is refused at its last statement.
const REFUSED: &[u8] = b"$c |- $. p $a |- $. p $a |- $.";

/// A text that is added.
const GOOD: &[u8] = b"$c |- $. p $a |- $.";

/// Successive texts, each with its serial number, its verdict, and the number of statements of the
/// library after it.
const CASES: [(u64, &[u8], Verdict, usize); 2] = [
    (
        1,
        REFUSED,
        Verdict::Refused(Cause::Rule {
            statement: 3,
            rule: Rule::G4,
        }),
        0,
    ),
    (2, GOOD, Verdict::Added, 2),
];

#[test]
fn whole_or_nothing_after_a_failed_allocation(rt: HostRuntime) {
    assert!(rt; new_library_decides_texts(rt.alloc()));
}

/// Returns whether a new library decides the texts as expected.
fn new_library_decides_texts(alloc: Global) -> bool {
    with_new_library(alloc, |library| decides_texts(alloc, library))
}

/// Returns whether each text has its verdict, and the library has the expected number of statements
/// after it.
fn decides_texts(alloc: Global, library: &mut Library) -> bool {
    for (serial, text, verdict, count) in CASES {
        if !decides_text(alloc, library, serial, text, verdict)
            || library.statements().len() != count
        {
            return false;
        }
    }
    true
}

/// Applies the text to the library as an entry, and returns whether its verdict is the expected
/// one. If an allocation fails, the library must have decided nothing, and the text is applied
/// again.
fn decides_text(
    alloc: Global,
    library: &mut Library,
    serial: u64,
    text: &[u8],
    expected: Verdict,
) -> bool {
    let before = library.statements().len();
    match verdict_of(alloc, library, serial, text) {
        Some(verdict) => verdict == expected,
        None => {
            // Each `entry` is of author 1.
            library.status(1, serial).is_none()
                && library.statements().len() == before
                && verdict_of(alloc, library, serial, text) == Some(expected)
        }
    }
}

/// Returns the verdict on the text, or `None` if an allocation fails.
fn verdict_of(alloc: Global, library: &mut Library, serial: u64, text: &[u8]) -> Option<Verdict> {
    let entry = entry(serial, Bytes::copy_from_slice(alloc, text).ok()?);
    verdict_on(library, &entry)
}

/// The book's first example.
const BOOK: &[u8] =
    b"$c 0 + = -> ( ) term wff |- $. $v t r s P Q $. tt $f term t $. tr $f term r $. \
    ts $f term s $. wp $f wff P $. wq $f wff Q $. tze $a term 0 $. tpl $a term ( t + r ) $. \
    weq $a wff t = r $. wim $a wff ( P -> Q ) $. a1 $a |- ( t = r -> ( t = s -> r = s ) ) $. \
    a2 $a |- ( t + 0 ) = t $. ${ min $e |- P $. maj $e |- ( P -> Q ) $. mp $a |- Q $. $} \
    th1 $p |- t = t $= ( tze tpl weq a2 wim a1 mp ) ABCZADZAADZAEZJJKFLIAAGHH $.";

#[test]
fn two_workers_after_a_failed_allocation(rt: HostRuntime) {
    let mut verdict = verdict_by_workers(&rt, rt.alloc(), 2, BOOK, &OpenGate);
    if verdict.is_none() {
        verdict = verdict_by_workers(&rt, rt.alloc(), 2, BOOK, &OpenGate);
    }
    assert!(rt; verdict == Some(Verdict::Added));
}
