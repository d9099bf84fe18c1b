//! 1, 2, 3 and 16 workers give the same verdict, and two workers run in parallel.
ghost use Rattle.std.specs.Prelude.{◌≤◌};

use crate::rendezvous::Rendezvous;
use crate::text_entries::{entry, with_new_library};
use bytes::Bytes;
use library::{Cause, Entry, Library, Verdict};
use std::alloc::{AllocError, Global};
use std::test::Fail;
use std::thread::Threads;
use text::push_number;
use verify_pool::{Gate, OpenGate, PoolSize};

/// Texts whose proofs are shared among several workers, and the verdict on each.
const CASES: [(&[u8], Verdict); 6] = [
    (TWO_PROOFS, Verdict::Added),
    (HEAVY, Verdict::Added),
    (
        HEAVY_WRONG,
        Verdict::Refused(Cause::Proof { statement: 11 }),
    ),
    (
        b"$c |- o $. o1 $a |- o $. p $p |- o $= o1 o1 $. q $p |- o $= q $.",
        Verdict::Refused(Cause::Proof { statement: 3 }),
    ),
    (
        b"$c |- o $. o1 $a |- o $. p $p |- o $= o1 $. q $p |- o $= ? $. r $p |- o $= r $.",
        Verdict::Refused(Cause::Unfinished { statement: 4 }),
    ),
    (
        b"$c |- o $. a $a |- o $. p $p |- o $= a $. q $p |- o $= ( p ) A $. r $p |- o $= ( ) Z $.",
        Verdict::Refused(Cause::Proof { statement: 5 }),
    ),
];

/// Two correct proofs.
const TWO_PROOFS: &[u8] = b"$c |- o $. a $a |- o $. p $p |- o $= a $. q $p |- o $= p $.";

/// The results of the first proof have more than 2,000,000 symbols: more than a worker may hold, so
/// the calling thread judges it.
const HEAVY: &[u8] = b"$c |- w e $. $v x $. fx $f w x $. e0 $a w e $. d2 $a w x x $. \
    ${ h $e w x $. k $a |- e $. $} c0 $a |- e $. \
    p $p |- e $= ( e0 d2 k ) ABBBBBBBBBBBBBBBBBBBBZDC $. q $p |- e $= c0 $.";

/// The same, but the first proof leaves one result too many, and the second one is wrong too.
const HEAVY_WRONG: &[u8] = b"$c |- w e $. $v x $. fx $f w x $. e0 $a w e $. d2 $a w x x $. \
    ${ h $e w x $. k $a |- e $. $} c0 $a |- e $. \
    p $p |- e $= ( e0 d2 k ) ABBBBBBBBBBBBBBBBBBBBZDCA $. q $p |- e $= e0 $.";

#[test]
fn judged_alike_by_workers(rt: HostRuntime) {
    for (text, verdict) in CASES {
        assert!(rt;
            is_judged_by_each(&rt, rt.alloc(), text, verdict),
            "{text:?}"
        );
    }
}

/// Returns whether 1, 2, 3 and 16 workers give this verdict on the text.
fn is_judged_by_each<R: Threads + Sync>(
    rt: &R,
    alloc: Global,
    text: &[u8],
    verdict: Verdict,
) -> bool {
    verdict_by_workers(rt, alloc, 1, text, &OpenGate) == Some(verdict)
        && verdict_by_workers(rt, alloc, 2, text, &OpenGate) == Some(verdict)
        && verdict_by_workers(rt, alloc, 3, text, &OpenGate) == Some(verdict)
        && verdict_by_workers(rt, alloc, 16, text, &OpenGate) == Some(verdict)
}

/// Returns the verdict of a new library with this number of workers.
pub fn verdict_by_workers<G: Gate + Sync, R: Threads + Sync>(
    rt: &R,
    alloc: Global,
    workers: usize,
    text: &[u8],
    gate: &G,
) -> Option<Verdict>
    requires { (1 ≤ workers) × (workers ≤ 16) }
{
    let entry = entry(1, Bytes::copy_from_slice(alloc, text).ok()?);
    let workers = PoolSize::new(workers);
    with_new_library(
        alloc,
        |library| verdict_with_retry(rt, library, &entry, workers, gate),
    )
}

/// Returns the verdict on the entry. Repeats the call if an allocation fails.
fn verdict_with_retry<G: Gate + Sync, R: Threads + Sync>(
    rt: &R,
    library: &mut Library,
    entry: &Entry,
    workers: PoolSize,
    gate: &G,
) -> Option<Verdict> {
    match library.apply_with(rt, Some(entry), workers, gate) {
        Ok(verdict) => Some(verdict),
        Err(_) => library.apply_with(rt, Some(entry), workers, gate).ok(),
    }
}

/// The text is so long that its first proofs are verified while later statements are added.
#[test]
fn long_text_judged_alike(rt: HostRuntime) -> Result<(), Fail> {
    for (wrong, verdict) in LONG_CASES {
        let text = long_text(rt.alloc(), wrong)?;
        assert!(rt;
            is_judged_by_each(&rt, rt.alloc(), &text, verdict),
            "{wrong:?}"
        );
    }
    Ok(())
}

/// Which of the proofs of the long text are wrong, by number from 0, and the verdict. The theorem
/// of number n is the statement at position n + 3, since a `$c` and a `$a` precede the theorems.
/// Statement 8,193 is the last of the first part, whose proofs are judged ahead.
const LONG_CASES: [(&[u64], Verdict); 4] = [
    (&[], Verdict::Added),
    (
        &[7, 11_998],
        Verdict::Refused(Cause::Proof { statement: 10 }),
    ),
    (
        &[8_190],
        Verdict::Refused(Cause::Proof { statement: 8_193 }),
    ),
    (
        &[11_998, 11_999],
        Verdict::Refused(Cause::Proof { statement: 12_001 }),
    ),
];

/// Returns a text of 12,000 theorems, of which those with the numbers of `wrong` have wrong proofs.
fn long_text(alloc: Global, wrong: &[u64]) -> Result<Vec<u8>, AllocError> {
    let mut text = Vec::from_slice(alloc, b"$c |- o $. a $a |- o $. ".as_slice())?;
    for number in 0..12_000u64 {
        push_theorem(&mut text, number, !wrong.contains(&number))?;
    }
    Ok(text)
}

/// Appends the theorem with this number, with a correct proof or a wrong one.
fn push_theorem(text: &mut Vec<u8>, number: u64, is_right: bool) -> Result<(), AllocError> {
    let proof: &[u8] = if is_right { b"a $. " } else { b"a a $. " };
    text.extend_from_slice(b"p")?;
    push_number(text, number)?;
    text.extend_from_slice(b" $p |- o $= ")?;
    text.extend_from_slice(proof)
}

/// The first two proofs are judged in parallel by two workers: each waits at the gate
/// (`verify_pool::Gate`) until the other has arrived there, or gives up.
#[test]
fn two_proofs_meet_at_gate(rt: HostRuntime) {
    let rendezvous = Rendezvous::new();
    let verdict = verdict_by_workers(&rt, rt.alloc(), 2, TWO_PROOFS, &rendezvous);
    assert!(rt; verdict == Some(Verdict::Added));
    assert!(rt; rendezvous.has_not_timed_out());
}
