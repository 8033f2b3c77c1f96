//! How the program ends: the line on standard error and the exit status.

use crate::looks::{Given, hint_line};
use asl_texts::{Closing, RunFault, closing};
use asl_tree::OutOfMemory;
use std::alloc::Global;

/// Writes the closing's line to standard error and gives its exit status.
pub fn finish<R: Eprint + AllocGlobal>(rt: &R, end: &Closing) -> u8 {
    match closing(rt.alloc(), end) {
        Ok((status, line)) => tell(rt, status, &line),
        Err(_) => tell(rt, 5, "out of memory\n"),
    }
}

/// Ends a command with what it came to, or with its fault, as [`finish`] does.
pub fn finish_with<R: Eprint + AllocGlobal>(rt: &R, ended: Result<Closing, RunFault>) -> u8 {
    match ended {
        Ok(end) => finish(rt, &end),
        Err(fault) => finish(rt, &Closing::Fault(fault)),
    }
}

/// Gives the exit status of a command that tells it, or ends with its fault, as [`finish`] does.
pub fn end<R: Eprint + AllocGlobal>(rt: &R, ended: Result<u8, RunFault>) -> u8 {
    match ended {
        Ok(status) => status,
        Err(fault) => finish(rt, &Closing::Fault(fault)),
    }
}

/// Ends a command that was given these texts, as [`finish_with`] does; where one of them is refused and seems to be another, a
/// line says so.
pub fn finish_given<R: Eprint + AllocGlobal>(
    rt: &R,
    ended: Result<Closing, RunFault>,
    given: &Given<'_>,
) -> u8 {
    match ended {
        Ok(end) => finish(rt, &end),
        Err(fault) => finish_refused(rt, fault, given),
    }
}

/// Ends a command that was given these texts, as [`end`] does; where one of them is refused and seems to be another, a line
/// says so.
pub fn end_given<R: Eprint + AllocGlobal>(
    rt: &R,
    ended: Result<u8, RunFault>,
    given: &Given<'_>,
) -> u8 {
    match ended {
        Ok(status) => status,
        Err(fault) => finish_refused(rt, fault, given),
    }
}

/// Ends with a fault of a command that was given these texts.
fn finish_refused<R: Eprint + AllocGlobal>(rt: &R, fault: RunFault, given: &Given<'_>) -> u8 {
    match refused_lines(rt.alloc(), fault, given) {
        Ok((status, lines)) => tell(rt, status, &lines),
        Err(_) => tell(rt, 5, "out of memory\n"),
    }
}

/// The exit status of a fault, its line, and behind it what a text that is refused seems to be.
fn refused_lines(
    alloc: Global,
    fault: RunFault,
    given: &Given<'_>,
) -> Result<(u8, String), OutOfMemory> {
    let hint = hint_line(alloc, &fault, given)?;
    let (status, mut lines) = closing(alloc, &Closing::Fault(fault))?;
    lines.push_str(&hint)?;
    Ok((status, lines))
}

/// Writes lines to standard error, where there are some. Where that fails there is nobody to tell.
fn tell<R: Eprint>(rt: &R, status: u8, lines: &str) -> u8 {
    if !lines.is_empty() {
        let _ = rt.eprint(lines);
    }
    status
}
