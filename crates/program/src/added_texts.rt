//! The texts that a library added, and the descriptions that its statements have in them: the
//! library keeps the statements alone.
use bytes::Bytes;
use library::{Entry, Library, Verdict};
use mm_lex::Span;
use places::descriptions;
use std::alloc::{AllocError, Global};
use std::collections::BTreeSet;

/// Returns the texts that a library added, in order. `entries` are the first that it applied.
///
/// Errors: an allocation fails. Cost: the count of the entries, times its logarithm.
pub fn added_texts(
    alloc: Global,
    library: &Library,
    entries: &[Option<Entry>],
) -> Result<Vec<Bytes>, AllocError> {
    let mut earlier = BTreeSet::new(alloc);
    let mut added = Vec::new(alloc);
    for entry in entries {
        let Some(entry) = entry else {
            continue;
        };
        // A later entry with the same author and serial number is a repeat, which adds nothing.
        if earlier.insert((entry.author(), entry.serial()))? {
            push_added(&mut added, library, entry)?;
        }
    }
    Ok(added)
}

/// Appends the text of an entry, if the library added it.
fn push_added(added: &mut Vec<Bytes>, library: &Library, entry: &Entry) -> Result<(), AllocError> {
    let verdict = library.status(entry.author(), entry.serial());
    if let Entry::Text(submission) = entry
        && verdict == Some(Verdict::Added)
    {
        added.push(submission.text.clone()?)?;
    }
    Ok(())
}

/// Returns the description of the statement of a library with a label, if it has one in the text
/// that added it. `entries` are those that the library applied, in order.
///
/// Errors: an allocation fails. Cost: the size of the texts up to that one, and that of
/// `added_texts`.
pub fn description_of(
    alloc: Global,
    library: &Library,
    entries: &[Option<Entry>],
    label: &[u8],
) -> Result<Option<Vec<u8>>, AllocError> {
    let Some(at) = library.frames().position(label) else {
        return Ok(None);
    };
    let texts = added_texts(alloc, library, entries)?;
    description_at(alloc, texts.as_slice(), at)
}

/// Returns the description of the statement at a position among those of all texts.
fn description_at(
    alloc: Global,
    texts: &[Bytes],
    at: usize,
) -> Result<Option<Vec<u8>>, AllocError> {
    let mut index = at.saturating_sub(1);
    for text in texts {
        let spans = descriptions(alloc, text.as_slice())?;
        if index < spans.len() {
            return description_in(alloc, text.as_slice(), spans, index);
        }
        index -= spans.len();
    }
    Ok(None)
}

/// Returns a copy of the description at an index of those of a text.
fn description_in(
    alloc: Global,
    text: &[u8],
    spans: Vec<Option<Span>>,
    index: usize,
) -> Result<Option<Vec<u8>>, AllocError> {
    let Some(Some(span)) = spans.get(index) else {
        return Ok(None);
    };
    match text.get(span.start..span.end) {
        Some(bytes) => Ok(Some(Vec::from_slice(alloc, bytes)?)),
        None => Ok(None),
    }
}
