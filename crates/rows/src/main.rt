//! Runs the rows of a folder. A row is a test case of the program: a command line, an input, and
//! the output that is expected.
//!
//! Reading order: `row` (a row), `row_texts` and `row_parser` (its syntax), `files` (the files of a
//! folder); `failing_streams` (readers and writers that fail), `limited_folder` (a folder that
//! refuses calls), `expected_output` (compares outputs), `judging` (whether a row holds), `folder`
//! (`run_folder`).
#![tactic(auto)]

mod expected_output;
mod failing_streams;
mod files;
mod folder;
mod judging;
mod limited_folder;
mod row;
mod row_parser;
mod row_texts;

use folder::run_folder;
use std::process::ExitCode;
use std::{env, io};

fn main(rt: HostRuntime) -> ExitCode {
    let passed = match folder_argument(&rt) {
        Ok(Some(folder)) => run_folder(&rt, folder.as_str()),
        Ok(None) => run_folder(&rt, "."),
        Err(error) => Err(error),
    };
    match passed {
        Ok(true) => ExitCode::from(0),
        Ok(false) => ExitCode::from(1),
        Err(error) => {
            let _ = eprintln!(rt; "{error}");
            ExitCode::from(2)
        }
    }
}

/// Returns the folder of rows that the first argument names, or `None` for the current directory.
fn folder_argument(rt: &HostRuntime) -> io::Result<Option<String>> {
    Ok(env::args(rt)?.nth(1))
}
