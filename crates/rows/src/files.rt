//! Finds and reads the files of rows.
use std::alloc::{AllocError, Global};
use std::fs::DirEntry;
use std::rt::Files;
use std::{fs, io};

/// Appends the names of the files of rows in a folder, in order.
pub fn push_row_files<R: Files + AllocGlobal + Clone + Drop>(
    rt: &R,
    folder: &str,
    names: &mut Vec<String>,
) -> io::Result<()> {
    for entry in fs::read_dir(rt, folder)? {
        push_entry(rt.alloc(), entry, names)?;
    }
    Ok(names.sort()?)
}

/// Appends the name of an entry of a folder, if it is a file of rows.
fn push_entry<R: Files + Drop>(
    alloc: Global,
    entry: io::Result<DirEntry<R>>,
    names: &mut Vec<String>,
) -> io::Result<()> {
    let entry = entry?;
    Ok(push_name(alloc, entry.file_name(), names)?)
}

/// Appends a name, if it is that of a file of rows.
fn push_name(alloc: Global, name: &str, names: &mut Vec<String>) -> Result<(), AllocError> {
    if name.ends_with(".rows") {
        names.push(String::from_str(alloc, name)?)?;
    }
    Ok(())
}

/// Appends the text of a file of rows. A line `include FILE` is replaced by the lines of that file,
/// in which such lines are not replaced.
pub fn push_file<R: Files + AllocGlobal>(
    rt: &R,
    folder: &str,
    name: &str,
    text: &mut String,
) -> io::Result<()> {
    let file = read_file(rt, folder, name)?;
    push_lines(rt, folder, file.as_str(), text)
}

/// Appends lines, with the lines of another file in place of `include FILE`.
fn push_lines<R: Files + AllocGlobal>(
    rt: &R,
    folder: &str,
    file: &str,
    text: &mut String,
) -> io::Result<()> {
    for line in file.split('\n') {
        match line.strip_prefix("include ") {
            Some(included) => push_included(rt, folder, included, text)?,
            None => text.push_str(line)?,
        }
        text.push_str("\n")?;
    }
    Ok(())
}

/// Appends the lines of a file.
fn push_included<R: Files + AllocGlobal>(
    rt: &R,
    folder: &str,
    name: &str,
    text: &mut String,
) -> io::Result<()> {
    let file = read_file(rt, folder, name)?;
    Ok(text.push_str(file.as_str())?)
}

/// Reads a file of a folder.
fn read_file<R: Files + AllocGlobal>(rt: &R, folder: &str, name: &str) -> io::Result<String> {
    let path = format!(in rt.alloc(); "{folder}/{name}")?;
    fs::read_to_string(rt, path.as_str())
}
