//! Applies two submissions to a library, and lets three nodes agree on one (docs/EMBEDDING.md).
#![tactic(auto)]

use anyhow::Result;
use bytes::Bytes;
use cluster::{MemoryKeep, apply_on, begin_on, cells, compare_on, deliver_on, offer_on, take_on};
use explanation::{DatabaseFault, explain_after};
use library::{Cause, Entry, Library, Submission, Verdict};
use std::alloc::Global;
use synod::Weights;

/// A text that is added: modus ponens, and a theorem that is proved by it.
const GOOD: &[u8] = b"$c wff |- ( ) -> $. $v p q $. wp $f wff p $. wq $f wff q $.
wi $a wff ( p -> q ) $. ${ min $e |- p $. maj $e |- ( p -> q ) $. mp $a |- q $. $}
${ a $e |- p $. b $e |- ( p -> q ) $. th $p |- q $= wp wq a b mp $. $}";
/// A text that is refused: its proof cites the hypotheses in the wrong order.
const WRONG: &[u8] = b"${ c $e |- p $. d $e |- ( p -> q ) $. two $p |- q $= wp wq d c mp $. $}";

fn main(rt: HostRuntime) -> Result<()> {
    apply_two(&rt)?;
    agree_on_one(&rt)
}

/// Returns an entry that submits a text, by author 7.
fn entry(alloc: Global, serial: u64, text: &[u8]) -> Result<Entry> {
    Ok(Entry::Text(Submission {
        author: 7,
        serial,
        text: Bytes::copy_from_slice(alloc, text)?,
    }))
}

/// Applies two submissions; prints the verdicts, why the second is refused, and the axioms of `th`.
fn apply_two(rt: &HostRuntime) -> Result<()> {
    let mut library = Library::new(rt.alloc(), None);
    for (serial, text) in [(1, GOOD), (2, WRONG)] {
        let verdict = library.apply(Some(&entry(rt.alloc(), serial, text)?))?;
        println!(rt; "submission {serial}: {verdict:?}")?;
        if let Verdict::Refused(Cause::Proof { statement }) = verdict {
            let mut database = library.export()?;
            let library_len = database.len();
            database.extend_from_slice(text)?;
            let statement = library.statements().len().saturating_add(statement);
            let fault = DatabaseFault::Proof { statement };
            let lines = explain_after(rt.alloc(), database.as_slice(), library_len, fault)?;
            print!(rt; "{}", str::from_utf8(lines.as_slice())?)?;
        }
    }
    if let Ok(labels) = library.trace(b"th") {
        for label in labels.iter() {
            println!(rt; "th rests on {}", str::from_utf8(label.as_bytes())?)?;
        }
    }
    Ok(())
}

/// Lets three nodes agree on an entry by at most 100 packets; compares the first and last library.
fn agree_on_one(rt: &HostRuntime) -> Result<()> {
    let alloc = rt.alloc();
    let (one, two) = (MemoryKeep::new(alloc), MemoryKeep::new(alloc));
    let keeps = vec![in alloc; one, two, MemoryKeep::new(alloc)]?;
    let (mut switch, mut cells) = cells(alloc, Weights::equal(3), 1_000_000, None, keeps)?;
    offer_on(&mut switch, 0, entry(alloc, 1, GOOD)?)?;
    let mut posted = begin_on(&mut switch, 0)?;
    for packet in 0..100 {
        if packet < posted {
            posted = deliver_on(&mut switch, packet)?;
        }
    }
    for cell in cells.iter_mut() {
        take_on(cell, &switch)?;
        println!(rt; "node {}: {:?}", cell.node(), apply_on(cell)?)?;
    }
    if let [first, _, last] = cells.as_slice() {
        if cluster::belongs(first, &switch)
            && cluster::belongs(last, &switch)
            && first.work_limit() == last.work_limit()
        {
            println!(rt; "nodes 0 and 2: {:?}", compare_on(first, last, &switch))?;
        }
    }
    Ok(())
}
