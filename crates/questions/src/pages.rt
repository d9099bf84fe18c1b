//! The command `pages`: a site of a database.
use crate::assumed::{AssumedDatabase, assume_unproved};
use crate::databases::apply_text;
use crate::fault::Fault;
use crate::named_text::NamedText;
use crate::refused_texts::print_refused_text;
use crate::streams::{print, read_text};
use crate::unproved_proofs::read_legal_database;
use bytes::Bytes;
use commands::SiteRequest;
use library::{Cause, Library, Verdict};
use sites::{Folder, SiteFault, SiteSources, write_site};
use std::alloc::{AllocError, Global};
use std::io::{Read, Write};
use std::mem::forget;
use std::thread::Threads;
use unproved::LegalDatabase;

/// Writes a site into the folder of the request: a page for each assertion of a database, a list of
/// them and a style sheet; returns the exit status. The reason for a refusal goes to `stderr`, and
/// so does the progress if there are many pages.
///
/// The library is leaked: the end of the process frees all of it at once.
pub fn write_pages<R: AllocGlobal + Threads + Sync, I: Read, O: Write, F: Write, S: Folder>(
    rt: &R,
    request: SiteRequest<'_>,
    input: &mut I,
    output: &mut O,
    stderr: &mut F,
    folder: &mut S,
) -> Result<u8, Fault> {
    let text = Bytes::from_vec(read_text(rt.alloc(), input)?)?;
    let mut library = Library::new(rt.alloc(), None);
    let streams = Streams { output, stderr };
    let answered = apply_and_write(rt, request, &text, &mut library, streams, folder);
    forget(library);
    answered
}

/// The writers of answers and of reasons.
#[derive(Drop)]
struct Streams<'a, O, F> {
    output: &'a mut O,
    stderr: &'a mut F,
}

/// Adds a text to an empty library, and writes the pages of the library.
fn apply_and_write<R: AllocGlobal + Threads + Sync, O: Write, F: Write, S: Folder>(
    rt: &R,
    request: SiteRequest<'_>,
    bytes: &Bytes,
    library: &mut Library,
    streams: Streams<'_, O, F>,
    folder: &mut S,
) -> Result<u8, Fault> {
    let text = NamedText {
        name: request.name,
        bytes: bytes.as_slice(),
    };
    match apply_text(rt, library, bytes)? {
        Verdict::Refused(cause) => assume_or_refuse(rt, request, text, cause, streams, folder),
        _ => {
            let site = SiteSources {
                text: text.bytes,
                library,
                is_unproved: &[],
            };
            write_site_files(rt.alloc(), &site, request.folder, streams, folder)
        }
    }
}

/// Writes the pages of a text that is refused, each `$p` that is not proved taken as a `$a`, if
/// that is asked for; else prints the refusal.
fn assume_or_refuse<R: AllocGlobal + Threads + Sync, O: Write, F: Write, S: Folder>(
    rt: &R,
    request: SiteRequest<'_>,
    text: NamedText<'_>,
    cause: Cause,
    streams: Streams<'_, O, F>,
    folder: &mut S,
) -> Result<u8, Fault> {
    let is_unproved = matches!(cause, Cause::Proof { .. } | Cause::Unfinished { .. });
    if is_unproved && request.assumes_unproved {
        if let Some(database) = read_legal_database(rt, text)? {
            return assume_and_write(rt, request, text, database, streams, folder);
        }
    }
    let Streams { output, stderr } = streams;
    print_refused_text(rt.alloc(), text, cause, output, stderr)
}

/// Writes the pages of the statements of a text, each `$p` that is not proved taken as a `$a`.
fn assume_and_write<R: AllocGlobal + Threads + Sync, O: Write, F: Write, S: Folder>(
    rt: &R,
    request: SiteRequest<'_>,
    text: NamedText<'_>,
    database: LegalDatabase,
    streams: Streams<'_, O, F>,
    folder: &mut S,
) -> Result<u8, Fault> {
    let Streams { output, stderr } = streams;
    let AssumedDatabase {
        library,
        is_unproved,
    } = assume_unproved(rt, database, stderr)?;
    let streams = Streams { output, stderr };
    let site = SiteSources {
        text: text.bytes,
        library: &library,
        is_unproved: is_unproved.as_slice(),
    };
    let answered = write_site_files(rt.alloc(), &site, request.folder, streams, folder);
    forget(library);
    answered
}

/// Writes the files of a site, and returns the exit status. The name of a file that cannot be
/// written goes to `stderr`, and so does the progress.
fn write_site_files<O: Write, F: Write, S: Folder>(
    alloc: Global,
    site: &SiteSources<'_>,
    path: &str,
    streams: Streams<'_, O, F>,
    folder: &mut S,
) -> Result<u8, Fault> {
    let Streams { output, stderr } = streams;
    match write_site(alloc, site, path, folder, stderr) {
        Ok(()) => Ok(0),
        Err(SiteFault::Memory) => Err(Fault::Memory(AllocError)),
        Err(SiteFault::Folder) => {
            print(output, b"refused Output\n")?;
            let _ = print_folder_fault(stderr, path);
            Ok(1)
        }
        Err(SiteFault::File(name)) => {
            print(output, b"refused Output\n")?;
            let _ = print_file_fault(stderr, path, name.as_slice());
            Ok(1)
        }
        Err(SiteFault::Unfinished) => {
            print(output, b"refused Output\n")?;
            let _ = print_unfinished_fault(stderr, path);
            Ok(1)
        }
    }
}

/// Prints which folder cannot be opened.
fn print_folder_fault<F: Write>(stderr: &mut F, path: &str) -> Result<(), Fault> {
    stderr.write_all(b"the folder ")?;
    stderr.write_all(path.as_bytes())?;
    print(stderr, b" cannot be opened\n")
}

/// Prints which file of a folder cannot be written.
fn print_file_fault<F: Write>(stderr: &mut F, path: &str, name: &[u8]) -> Result<(), Fault> {
    stderr.write_all(path.as_bytes())?;
    stderr.write_all(b"/")?;
    stderr.write_all(name)?;
    print(stderr, b" cannot be written\n")
}

/// Prints that the file of a run that was ended is in the way.
fn print_unfinished_fault<F: Write>(stderr: &mut F, path: &str) -> Result<(), Fault> {
    stderr.write_all(path.as_bytes())?;
    print(
        stderr,
        b"/+unfinished is in the way: a run that was ended left it; remove it\n",
    )
}
