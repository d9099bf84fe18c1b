//! The program `mmlib`, formal mathematics in the Metamath language: passes its arguments and
//! streams to the crate `program`, which does the rest.
#![tactic(auto)]

use entry_rows::EntryColumns;
use node_files::SystemFolders;
use program::run;
use questions::{Fault, print};
use sites::SystemFolder;
use std::alloc::{AllocError, Global};
use std::process::ExitCode;
use std::{env, io};

fn main(rt: HostRuntime) -> ExitCode {
    let mut output = rt.stdout();
    // Standard error, for help, explanations and the text of a bad command line. A `Fault` is
    // printed on `output`.
    let mut stderr = rt.stderr();
    // As `run` returns it: 1 after a refusal or a failed write, 2 for a bad command line.
    let status = match arguments(&rt) {
        Ok(arguments) => match as_words(rt.alloc(), arguments.as_slice()) {
            Ok(words) => run(
                &rt,
                words.as_slice(),
                &mut rt.stdin(),
                &mut output,
                &mut stderr,
                &mut SystemFolder::new(&rt),
                &mut SystemFolders::<EntryColumns>::new(&rt),
            ),
            Err(AllocError) => Fault::from(AllocError).print(&mut output),
        },
        Err(error) if error.kind() == io::ErrorKind::OutOfMemory => {
            Fault::from(AllocError).print(&mut output)
        }
        Err(_) => match print(&mut stderr, b"error: the arguments are no text\n") {
            Ok(()) => 2,
            Err(_) => 1,
        },
    };
    ExitCode::from(status)
}

/// Returns the arguments, without the program's own name.
fn arguments(rt: &HostRuntime) -> io::Result<Vec<String>> {
    let mut words = Vec::new(rt.alloc());
    for word in env::args(rt)?.skip(1) {
        words.push(word).map_err(AllocError::from)?;
    }
    Ok(words)
}

/// Returns the arguments as string slices.
fn as_words<'a>(alloc: Global, arguments: &'a [String]) -> Result<Vec<&'a str>, AllocError> {
    let mut words = Vec::new(alloc);
    for argument in arguments {
        words.push(argument.as_str())?;
    }
    Ok(words)
}
