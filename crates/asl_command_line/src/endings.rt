//! How the program ends where its command line asks for nothing that it does.

use asl_files::finish;
use asl_texts::{Closing, RunFault};
use clap::Error;
use clap::error::ErrorKind;

/// Prints what clap says of a refused command line to standard error, or the help or version that was asked for to
/// standard output, and gives the exit status. Want of memory and help that can't be written end as they do elsewhere.
pub(crate) fn refuse<R: Print + Eprint + AllocGlobal>(rt: &R, error: &Error) -> u8 {
    if error.kind() == ErrorKind::OutOfMemory {
        return finish(rt, &Closing::Fault(RunFault::OutOfMemory));
    }
    let printed = error.print(rt);
    if error.use_stderr() {
        return 2;
    }
    match printed {
        Ok(()) => 0,
        Err(_) => finish(rt, &Closing::Fault(RunFault::Write)),
    }
}
