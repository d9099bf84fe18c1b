//! Runs a command line.
use crate::play::play;
use crate::play_picture::print_picture;
use crate::serve::serve;
use crate::stored::print_stored;
use commands::{CommandLineFault, Request, VERSION, parse_command_line};
use keep_folders::KeepFolder;
use questions::{Fault, answer_question, print, print_outline, print_work, write_pages};
use sites::Folder;
use std::alloc::AllocError;
use std::io::{Read, Write};
use std::sync::Wait;
use std::thread::Threads;
use std::time::Clock;
use world::Carried;

/// Runs the command of these words, without the program's own name, and returns the exit status.
/// The files that `pages` writes go into a folder that `folder` opens, and the nodes of
/// `serve --store` have their keeps in one that `keeps` opens.
///
/// The status is 0 if all is good (the version too), 1 after a refusal (of the input, of a line,
/// out of memory) or a failed write, 2 for a bad command line, help, bad weights or a bad script.
/// Answers, refusals and the bad lines of scripts go to `output`, the standard output of `mmlib`;
/// all else that is printed (help, the text of a bad command line, explanations, notes, the
/// progress of `pages`) goes to `stderr`, its standard error.
pub fn run<
    R: AllocGlobal + Threads + Wait + Clock + Copy + Send + Sync + Drop + 'static,
    I: Read,
    O: Write,
    F: Write,
    S: Folder,
    K: KeepFolder<Carried>,
>(
    rt: &R,
    words: &[&str],
    input: &mut I,
    output: &mut O,
    stderr: &mut F,
    folder: &mut S,
    keeps: &mut K,
) -> u8 {
    let answered = match parse_command_line(rt.alloc(), words) {
        Ok(request) => answer(rt, request, input, output, stderr, folder, keeps),
        Err(CommandLineFault::Memory) => Err(Fault::from(AllocError)),
        Err(CommandLineFault::Bad { text }) => print(stderr, text.as_bytes()).map(|()| 2),
    };
    match answered {
        Ok(status) => status,
        Err(fault) => fault.report(output, stderr),
    }
}

/// Carries out a request, and returns the exit status.
fn answer<
    R: AllocGlobal + Threads + Wait + Clock + Copy + Send + Sync + Drop + 'static,
    I: Read,
    O: Write,
    F: Write,
    S: Folder,
    K: KeepFolder<Carried>,
>(
    rt: &R,
    request: Request<'_>,
    input: &mut I,
    output: &mut O,
    stderr: &mut F,
    folder: &mut S,
    keeps: &mut K,
) -> Result<u8, Fault> {
    match request {
        Request::Version => print_version(output),
        Request::Outline { name } => print_outline(rt.alloc(), name, input, output, stderr),
        Request::Ask(question) => answer_question(rt, &question, input, output, stderr),
        Request::Work(request) => print_work(rt, request, input, output, stderr),
        Request::Pages(request) => write_pages(rt, request, input, output, stderr, folder),
        Request::Play(options) => play(rt.alloc(), options, input, output),
        Request::Picture { options, steps } => {
            print_picture(rt.alloc(), options, steps, input, output)
        }
        Request::Serve(options) => serve(rt, &options, input, output, stderr, keeps),
        Request::Store { folder } => print_stored(rt.alloc(), folder, output, stderr, keeps),
    }
}

/// Prints the name and the version of the program, and returns the exit status.
fn print_version<O: Write>(output: &mut O) -> Result<u8, Fault> {
    writeln!(output, "mmlib {VERSION}")?;
    print(output, b"")?;
    Ok(0)
}
