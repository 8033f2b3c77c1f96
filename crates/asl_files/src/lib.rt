//! What the commands of the program `asl` have in common: the texts in files and on standard input, what goes to standard
//! output, how a command ends, what a text seems to be that is refused for another one, how many rounds an inference may
//! take, and what `lint` is asked for.
#![tactic(auto)]

mod endings;
mod files;
mod looks;
mod printing;
mod requests;

pub use endings::{end, end_given, finish, finish_given, finish_with};
pub use files::{
    Unread, file_source, file_text, input_source, is_input, text_or_status, text_or_why,
};
pub use looks::{Given, Look, look_of, other_look};
pub use printing::{print_line, print_text, print_verdict, with_break};
pub use requests::{LintFormat, LintRequest};

/// How many rounds an inference may take.
pub const ROUNDS: u32 = 4096;
