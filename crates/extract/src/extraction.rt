//! Extracts assertions from a library.
ghost use Rattle.std.specs.Prelude.{◌≡◌, ◌⊎◌, [], map, Err, IfOk, IfErr};
ghost use Rattle.extract.specs.declared.fault.ExtractFault.{ExtractFault as Fault};
ghost use Rattle.extract.specs.Labels.{AreValidLabels, IsFirstLabelFault};
ghost use Rattle.extract.specs.Extract.{AreExtract, IsExtract};

use crate::choice::choose;
use crate::comparison::is_confirmed_part;
use crate::fault::ExtractFault;
use crate::labels::first_label_fault;
use bytes::Bytes;
use library::{Entry, Library, Submission};
use mm_read::push_line;
use std::alloc::{AllocError, Global};

/// Returns the export form of good statements of the library: the assertions of these labels, all
/// that their proofs use, and few others; all statements if those chosen are not an extract.
///
/// Errors: `NoLabel`, `NotAssertion` or `SameLabel` for the first wrong label, even if every
/// allocation fails; else `Memory`.
/// Cost: that of verifying the proofs of the extract, a pass over the rules of all statements, a
/// comparison of each label with each assertion and each earlier label, and the active `$d` that
/// have variables of the assertions taken, as `docs/COSTS.md` says. Source: Metamath, 4.2.
pub fn extract(alloc: Global, library: &Library, labels: &[&str]) -> Result<Vec<u8>, ExtractFault>
    ensures extract { IfOk result
        (λ text. IsExtract library.now.replica.statements (map (λ label. label.now) labels.now) text.items) }
    ensures wrong { (fault : Fault)
        → IsFirstLabelFault library.now.replica.statements [] (map (λ label. label.now) labels.now) fault
        → result ≡ Err fault }
    ensures only_wrong { IfErr result
        (λ fault. IsFirstLabelFault library.now.replica.statements [] (map (λ label. label.now) labels.now) fault
        ⊎ (fault ≡ ExtractFault.Memory)) }
{
    match first_label_fault(library.frames(), library.statements(), labels) {
        Some(fault) => Err(fault),
        None => Ok(extract_text(alloc, library, labels)?),
    }
}

/// Returns the text of the chosen statements if they are an extract, else that of all statements.
fn extract_text(alloc: Global, library: &Library, labels: &[&str]) -> Result<Vec<u8>, AllocError>
    requires { AreValidLabels library.now.replica.statements [] (map (λ label. label.now) labels.now) }
    ensures { IfOk result
        (λ text. IsExtract library.now.replica.statements (map (λ label. label.now) labels.now) text.items) }
{
    let mut part = Library::new(alloc, None);
    extract_text_with(alloc, library, labels, &mut part)
}

/// Returns that text. The chosen statements are added to `part`, an empty library, which stays
/// empty if they are not good or their text is too long for one entry.
fn extract_text_with(
    alloc: Global,
    library: &Library,
    labels: &[&str],
    part: &mut Library,
) -> Result<Vec<u8>, AllocError>
    requires { AreValidLabels library.now.replica.statements [] (map (λ label. label.now) labels.now) }
    ensures { IfOk result
        (λ text. IsExtract library.now.replica.statements (map (λ label. label.now) labels.now) text.items) }
{
    add_text(chosen_text(alloc, library, labels)?, part)?;
    if is_confirmed_part(alloc, library.statements(), part.statements(), labels)? {
        part.export()
    } else {
        library.export()
    }
}

/// Returns the text of the chosen statements.
fn chosen_text(alloc: Global, library: &Library, labels: &[&str]) -> Result<Vec<u8>, AllocError> {
    let marks = choose(alloc, library, labels)?;
    let mut text = Vec::new(alloc);
    for (statement, marked) in library.statements().iter().zip(marks.iter()) {
        if *marked {
            push_line(&mut text, statement)?;
        }
    }
    Ok(text)
}

/// Adds the statements of a text to a library, if they are good there and the text is not too long
/// for one entry.
fn add_text(text: Vec<u8>, part: &mut Library) -> Result<(), AllocError> {
    let text = Bytes::from_vec(text).map_err(AllocError::from)?;
    let entry = Entry::Text(Submission {
        author: 0,
        serial: 0,
        text,
    });
    part.apply(Some(&entry))?;
    Ok(())
}
