//! From definitions to all that is wrong with them, on standard output.

use crate::definitions::definition_paths;
use crate::reports::{Printout, Report};
use asl_files::{LintRequest, ROUNDS, Unread, finish, is_input, print_text, text_or_why};
use asl_lint::{File, lint};
use asl_texts::{Closing, RunFault};
use asl_tree::OutOfMemory;
use std::alloc::Global;
use std::fs;
use std::rt::Files;

/// Checks definitions, writes what is wrong with them to standard output, and gives the exit status. What couldn't be looked
/// at, and the count of what was told, go to standard error.
pub fn lint_files<R: Files + Input + Print + Eprint + AllocGlobal + Clone + Drop>(
    rt: &R,
    request: &LintRequest<'_>,
) -> u8 {
    match lint_on(rt, request) {
        Ok(told) => tell(rt, &told),
        Err(_) => finish(rt, &Closing::Fault(RunFault::OutOfMemory)),
    }
}

/// Writes what is told, and gives the exit status.
fn tell<R: Print + Eprint + AllocGlobal>(rt: &R, told: &Printout) -> u8 {
    let _ = rt.eprint(&told.notes);
    match print_text(rt, &told.output) {
        Ok(()) => {
            let _ = rt.eprint(&told.counts);
            told.status
        }
        Err(fault) => finish(rt, &Closing::Fault(fault)),
    }
}

/// What is told of the definitions that are asked for, which are read and checked one after the other.
///
/// Refused: OutOfMemory.
fn lint_on<R: Files + Input + AllocGlobal + Clone + Drop>(
    rt: &R,
    request: &LintRequest<'_>,
) -> Result<Printout, OutOfMemory> {
    let mut report = Report::new(rt.alloc());
    let paths = definition_paths(rt, &request.names, &mut report)?;
    match request.declared {
        Some(declared) => lint_under(rt, &paths, declared, &mut report)?,
        None => lint_each(rt, &paths, &mut report)?,
    }
    report.told(rt.alloc(), request.format, request.deny_warnings)
}

/// Checks each definition under the shapes in one file; its structure alone, where that file can't be read.
fn lint_under<R: Files + Input + AllocGlobal>(
    rt: &R,
    paths: &[String],
    declared: &str,
    report: &mut Report,
) -> Result<(), OutOfMemory> {
    let shapes = text_of(rt, declared, report)?;
    for path in paths {
        if let Some(text) = text_of(rt, path, report)? {
            let definition = File { path, text: &text };
            check(rt.alloc(), definition, file_of(declared, &shapes), report)?;
        }
    }
    Ok(())
}

/// Checks each definition under the shapes in the file beside it; its structure alone, where there is none, or it can't be
/// read.
fn lint_each<R: Files + Input + AllocGlobal>(
    rt: &R,
    paths: &[String],
    report: &mut Report,
) -> Result<(), OutOfMemory> {
    for path in paths {
        if let Some(text) = text_of(rt, path, report)? {
            lint_beside(rt, File { path, text: &text }, report)?;
        }
    }
    Ok(())
}

/// Checks a definition under the shapes in the file beside it.
fn lint_beside<R: Files + Input + AllocGlobal>(
    rt: &R,
    definition: File<'_>,
    report: &mut Report,
) -> Result<(), OutOfMemory> {
    let declared = name_beside(rt.alloc(), definition.path)?;
    let shapes = text_beside(rt, definition.path, &declared, report)?;
    check(rt.alloc(), definition, file_of(&declared, &shapes), report)
}

/// Checks a definition under the shapes in a file, or its structure alone.
fn check(
    alloc: Global,
    definition: File<'_>,
    shapes: Option<File<'_>>,
    report: &mut Report,
) -> Result<(), OutOfMemory> {
    let linted = lint(alloc, definition, shapes, ROUNDS)?;
    report.add_checked(alloc, definition, linted)
}

/// The text of a file with its path, where there is one.
fn file_of<'a>(path: &'a str, text: &'a Option<Vec<u8>>) -> Option<File<'a>> {
    match text {
        Some(text) => Some(File { path, text }),
        None => None,
    }
}

/// The name of the file beside a definition that has its declared shapes: `NAME.declared.json` of `NAME.asl.json`, of
/// `NAME.json`, and of a `NAME` that ends otherwise.
fn name_beside(alloc: Global, path: &str) -> Result<String, OutOfMemory> {
    let stem = match path.strip_suffix(".asl.json") {
        Some(stem) => stem,
        None => path.strip_suffix(".json").unwrap_or(path),
    };
    let mut name = String::from_str(alloc, stem)?;
    name.push_str(".declared.json")?;
    Ok(name)
}

/// The text of a file; where it can't be read, that is noted.
fn text_of<R: Files + Input + AllocGlobal>(
    rt: &R,
    path: &str,
    report: &mut Report,
) -> Result<Option<Vec<u8>>, OutOfMemory> {
    match text_or_why(rt, path) {
        Ok(text) => Ok(Some(text)),
        Err(why) => {
            report.add_unread(path, &why.words(rt.alloc())?)?;
            Ok(None)
        }
    }
}

/// The declared shapes beside a definition; where there are none, as beside standard input, or they can't be read, that is
/// noted.
fn text_beside<R: Files + Input + AllocGlobal>(
    rt: &R,
    path: &str,
    declared: &str,
    report: &mut Report,
) -> Result<Option<Vec<u8>>, OutOfMemory> {
    if is_input(path) {
        report.add_undeclared(path)?;
        Ok(None)
    } else if is_device(rt, declared) {
        report.add_unread(declared, "is no file")?;
        Ok(None)
    } else {
        declared_text(rt, path, declared, report)
    }
}

/// The text of the file with the declared shapes of a definition; where there is none, or it can't be read, that is noted.
fn declared_text<R: Files + Input + AllocGlobal>(
    rt: &R,
    path: &str,
    declared: &str,
    report: &mut Report,
) -> Result<Option<Vec<u8>>, OutOfMemory> {
    match text_or_why(rt, declared) {
        Ok(text) => Ok(Some(text)),
        Err(why) => {
            note_lack(rt.alloc(), path, declared, &why, report)?;
            Ok(None)
        }
    }
}

/// Notes that a definition has no declared shapes, where their file isn't there, or that this can't be read.
fn note_lack(
    alloc: Global,
    path: &str,
    declared: &str,
    why: &Unread,
    report: &mut Report,
) -> Result<(), OutOfMemory> {
    if why.is_absence() {
        report.add_undeclared(path)
    } else {
        report.add_unread(declared, &why.words(alloc)?)
    }
}

/// Whether something stands at a path that is neither a file nor a folder, as a pipe, which may never end.
fn is_device<R: Files>(rt: &R, path: &str) -> bool {
    match fs::metadata(rt, path) {
        Ok(metadata) => !metadata.is_file() && !metadata.is_dir(),
        Err(_) => false,
    }
}
