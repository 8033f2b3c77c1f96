//! The texts in files.

use crate::endings::finish;
use asl_texts::{Closing, FromRead, RunFault, read_text};
use asl_tree::{OutOfMemory, in_line};
use std::alloc::Global;
use std::fs;
use std::io::{Error, ErrorKind};
use std::rt::Files;

/// Why a file or folder can't be looked at.
#[derive(Drop)]
pub enum Unread {
    /// The system says so.
    Failed(Error),
    /// A text can't be read, or is too long.
    Fault(RunFault),
}

impl Unread {
    /// Whether nothing is there.
    pub fn is_absence(&self) -> bool {
        match self {
            Unread::Failed(error) => error.kind() == ErrorKind::NotFound,
            Unread::Fault(_) => false,
        }
    }

    /// The reason in words.
    ///
    /// Refused: OutOfMemory, also where that is the reason.
    pub fn words(&self, alloc: Global) -> Result<String, OutOfMemory> {
        match self {
            Unread::Fault(RunFault::OutOfMemory) => Err(OutOfMemory),
            Unread::Fault(fault) => Ok(format!(in alloc; "{fault}")?),
            Unread::Failed(error) if error.kind() == ErrorKind::OutOfMemory => Err(OutOfMemory),
            Unread::Failed(error) => Ok(format!(in alloc; "{error}")?),
        }
    }
}

impl Unread {
    /// The exit status of a command that needs it.
    fn status(&self) -> u8 {
        match self {
            Unread::Fault(RunFault::TooLong) => 2,
            Unread::Fault(_) | Unread::Failed(_) => 5,
        }
    }
}

/// The name that stands for standard input.
const INPUT: &str = "-";

/// Whether that name of a file stands for standard input.
pub fn is_input(name: &str) -> bool {
    name == INPUT
}

/// All bytes of a file, or of standard input.
///
/// Refused: Read where it can't be opened or read; TooLong; OutOfMemory.
pub fn file_text<R: Files + Input + AllocGlobal>(rt: &R, name: &str) -> Result<Vec<u8>, RunFault> {
    if is_input(name) {
        input_text(rt)
    } else {
        let mut source = file_source(rt, name)?;
        read_text(rt.alloc(), &mut source)
    }
}

/// The bytes of a file, which is opened and not read yet.
///
/// Refused: Read where it can't be opened.
pub fn file_source<R: Files>(rt: &R, name: &str) -> Result<FromRead<R::File>, RunFault> {
    match fs::open(rt, name) {
        Ok(file) => Ok(FromRead::new(file)),
        Err(_) => Err(RunFault::Read),
    }
}

/// All bytes of standard input.
///
/// Refused: Read where it can't be read; TooLong; OutOfMemory.
fn input_text<R: Input + AllocGlobal>(rt: &R) -> Result<Vec<u8>, RunFault> {
    read_text(rt.alloc(), &mut input_source(rt))
}

/// The bytes of standard input, of which none is read yet.
pub fn input_source<R: Input>(rt: &R) -> FromRead<R::Reader> {
    FromRead::new(rt.reader())
}

/// All bytes of a file, or of standard input, or why they can't be read.
pub fn text_or_why<R: Files + Input + AllocGlobal>(rt: &R, name: &str) -> Result<Vec<u8>, Unread> {
    let text = if is_input(name) {
        input_text(rt)
    } else {
        match fs::open(rt, name) {
            Ok(file) => read_text(rt.alloc(), &mut FromRead::new(file)),
            Err(error) => return Err(Unread::Failed(error)),
        }
    };
    match text {
        Ok(text) => Ok(text),
        Err(fault) => Err(Unread::Fault(fault)),
    }
}

/// All bytes of a file, or of standard input. Where it can't be read, its name and the reason go to standard error, and the
/// exit status comes back.
pub fn text_or_status<R: Files + Input + Eprint + AllocGlobal>(
    rt: &R,
    name: &str,
) -> Result<Vec<u8>, u8> {
    let why = match text_or_why(rt, name) {
        Ok(text) => return Ok(text),
        Err(why) => why,
    };
    match line_on(rt.alloc(), name, &why) {
        Ok(line) => {
            let _ = rt.eprint(&line);
            Err(why.status())
        }
        Err(_) => Err(finish(rt, &Closing::Fault(RunFault::OutOfMemory))),
    }
}

/// The line that tells why a file can't be read.
///
/// Refused: OutOfMemory, also where that is the reason.
fn line_on(alloc: Global, name: &str, why: &Unread) -> Result<String, OutOfMemory> {
    let name = in_line(alloc, name)?;
    let words = why.words(alloc)?;
    Ok(format!(in alloc; "{name}: {words}\n")?)
}
