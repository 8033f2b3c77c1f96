//! Which definitions are meant by the names of files and folders.

use crate::reports::Report;
use asl_files::{Unread, is_input};
use asl_tree::OutOfMemory;
use std::fs::{self, DirEntry, FileType};
use std::io::{Error, ErrorKind};
use std::rt::Files;

/// What the name of a definition in a folder ends in.
const ENDING: &str = ".asl.json";

/// What was found under the names so far.
#[derive(Drop)]
struct Found {
    /// The paths of definitions.
    paths: Vec<String>,
    /// Folders that aren't looked at yet.
    folders: Vec<String>,
}

/// The paths of the definitions that are named, or stand below a folder that is named: each once, in byte order. What can't
/// be looked at is noted, and so is a folder with no definition below it.
///
/// Refused: OutOfMemory.
pub(crate) fn definition_paths<R: Files + AllocGlobal + Clone + Drop>(
    rt: &R,
    names: &[&str],
    report: &mut Report,
) -> Result<Vec<String>, OutOfMemory> {
    let mut found = Found {
        paths: Vec::new(rt.alloc()),
        folders: Vec::new(rt.alloc()),
    };
    for name in names {
        if !is_input(name) && is_folder(rt, name) {
            add_folder(rt, name, &mut found, report)?;
        } else {
            push_path(&mut found.paths, name)?;
        }
    }
    found.paths.sort()?;
    found.paths.dedup();
    Ok(found.paths)
}

/// Whether the name is that of a folder, or of a link to one.
fn is_folder<R: Files>(rt: &R, name: &str) -> bool {
    fs::metadata(rt, name).is_ok_and(|metadata| metadata.is_dir())
}

/// Adds the definitions below a folder.
fn add_folder<R: Files + AllocGlobal + Clone + Drop>(
    rt: &R,
    folder: &str,
    found: &mut Found,
    report: &mut Report,
) -> Result<(), OutOfMemory> {
    let paths = found.paths.len();
    let unread = report.unread();
    push_path(&mut found.folders, folder)?;
    add_below(rt, found, report)?;
    if found.paths.len() == paths && report.unread() == unread {
        report.add_unread(folder, "no file *.asl.json is below it")?;
    }
    Ok(())
}

/// Adds the definitions below the folders that aren't looked at yet. The range is no bound: it has more numbers than there
/// are folders.
fn add_below<R: Files + AllocGlobal + Clone + Drop>(
    rt: &R,
    found: &mut Found,
    report: &mut Report,
) -> Result<(), OutOfMemory> {
    for _ in 0..u64::MAX {
        match found.folders.pop() {
            Some(folder) => add_entries(rt, &folder, found, report)?,
            None => return Ok(()),
        }
    }
    Ok(())
}

/// Adds the definitions that stand in a folder, and the folders in it.
fn add_entries<R: Files + AllocGlobal + Clone + Drop>(
    rt: &R,
    folder: &str,
    found: &mut Found,
    report: &mut Report,
) -> Result<(), OutOfMemory> {
    let entries = match fs::read_dir(rt, folder) {
        Ok(entries) => entries,
        Err(error) => return note(rt, folder, error, report),
    };
    for entry in entries {
        match entry {
            Ok(entry) => add_entry(rt, &entry, found, report)?,
            Err(error) if error.kind() == ErrorKind::InvalidFilename => {
                report.add_unread(folder, "in it is a name that isn't UTF-8")?;
            }
            Err(error) => note(rt, folder, error, report)?,
        }
    }
    Ok(())
}

/// Adds what an entry of a folder is: a folder, or a definition. A link to a folder is passed over, so the walk comes to
/// an end.
fn add_entry<R: Files + AllocGlobal>(
    rt: &R,
    entry: &DirEntry<R>,
    found: &mut Found,
    report: &mut Report,
) -> Result<(), OutOfMemory> {
    let path = entry.path().to_string_lossy();
    let kind = match entry.file_type() {
        Ok(kind) => kind,
        Err(error) => return note(rt, path, error, report),
    };
    if kind.is_dir() {
        push_path(&mut found.folders, path)
    } else if path.ends_with(ENDING) && may_be_read(rt, path, kind) {
        push_path(&mut found.paths, path)
    } else {
        Ok(())
    }
}

/// Puts a path behind the others.
fn push_path(paths: &mut Vec<String>, path: &str) -> Result<(), OutOfMemory> {
    let alloc = *paths.allocator();
    paths.push(String::from_str(alloc, path)?)?;
    Ok(())
}

/// Whether an entry of that kind is a file, a link to one, or a link to nothing, which is told when it is opened.
fn may_be_read<R: Files>(rt: &R, path: &str, kind: FileType) -> bool {
    if kind.is_symlink() {
        match fs::metadata(rt, path) {
            Ok(metadata) => metadata.is_file(),
            Err(_) => true,
        }
    } else {
        kind.is_file()
    }
}

/// Notes that a file or folder couldn't be looked at.
fn note<R: AllocGlobal>(
    rt: &R,
    path: &str,
    error: Error,
    report: &mut Report,
) -> Result<(), OutOfMemory> {
    let why = Unread::Failed(error).words(rt.alloc())?;
    report.add_unread(path, &why)
}
