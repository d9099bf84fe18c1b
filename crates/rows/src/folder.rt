//! Runs the rows of all files, one after another.
use crate::files::{push_file, push_row_files};
use crate::judging::judge;
use crate::row::Row;
use crate::row_parser::{ParseFault, parse_rows};
use std::io;
use std::rt::Files;
use std::sync::Wait;
use std::thread::Threads;
use std::time::Clock;

/// A run of the rows of a folder.
#[derive(Drop)]
struct FolderRun<'a, R> {
    rt: &'a R,
    folder: &'a str,
    /// How many rows passed.
    passed: u64,
    /// How many rows or files failed.
    failed: u64,
}

/// Runs the rows of a folder. Returns whether there is a row and all pass.
pub fn run_folder<
    R: AllocGlobal
        + Files
        + Print
        + Threads
        + Wait
        + Clock
        + Copy
        + Send
        + Sync
        + Drop
        + Clone
        + 'static,
>(rt: &R, folder: &str) -> io::Result<bool> {
    let mut run = FolderRun {
        rt,
        folder,
        passed: 0,
        failed: 0,
    };
    let mut names = Vec::new(rt.alloc());
    run.run_files(&mut names)?;
    let FolderRun { passed, failed, .. } = run;
    if failed > 0 || passed == 0 {
        println!(rt; "{passed} rows passed, {failed} failed")?;
        return Ok(false);
    }
    println!(rt; "{passed} rows passed")?;
    Ok(true)
}

impl<
    R: AllocGlobal
        + Files
        + Print
        + Threads
        + Wait
        + Clock
        + Copy
        + Send
        + Sync
        + Drop
        + Clone
        + 'static,
> FolderRun<'_, R> {
    /// Runs the files of the folder. `names` must be empty and receives their names.
    fn run_files(&mut self, names: &mut Vec<String>) -> io::Result<()> {
        push_row_files(self.rt, self.folder, names)?;
        for name in names.as_slice() {
            let mut text = String::new(self.rt.alloc());
            self.run_file(name.as_str(), &mut text)?;
        }
        Ok(())
    }

    /// Runs the rows of a file. `text` must be empty and receives its text.
    fn run_file(&mut self, name: &str, text: &mut String) -> io::Result<()> {
        push_file(self.rt, self.folder, name, text)?;
        self.run_parsed(name, &parse_rows(self.rt.alloc(), text.as_str()))
    }

    /// Runs the parsed rows, and prints each that fails.
    fn run_parsed(&mut self, name: &str, rows: &Result<Vec<Row>, ParseFault>) -> io::Result<()> {
        match rows {
            Ok(rows) => {
                for row in rows {
                    self.run_row(name, row)?;
                }
                Ok(())
            }
            Err(ParseFault::Line(line)) => self.fail(name, "no line of a row", line.as_str()),
            Err(ParseFault::Memory) => Err(io::Error::from(io::ErrorKind::OutOfMemory)),
        }
    }

    /// Runs a row, and prints how it fails, if it does.
    fn run_row(&mut self, name: &str, row: &Row) -> io::Result<()> {
        let sentence = row.sentence.as_str();
        if row.commands.is_empty() {
            return self.fail(name, sentence, "no command line");
        }
        match judge(self.rt, row)? {
            Some(difference) => self.fail(name, sentence, difference.as_str()),
            None => {
                self.passed = self.passed.saturating_add(1);
                Ok(())
            }
        }
    }

    /// Counts a failure, and prints which row (or line) of which file fails, and how.
    fn fail(&mut self, file: &str, row: &str, reason: &str) -> io::Result<()> {
        self.failed = self.failed.saturating_add(1);
        println!(self.rt; "{file}: {row}: {reason}")
    }
}
