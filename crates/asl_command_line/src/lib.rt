//! The command line of the program `asl`: what it asks for, read by `clap`, and scripts by which shells complete it.
//!
//! [`words_or_status`] has the words of the command line, [`request_or_status`] what they ask for. Where that is nothing that
//! the program does, both tell why, and give the exit status. [`print_completions`] writes the script for a shell.
#![tactic(auto)]

mod commands;
mod completions;
mod endings;
mod requests;

pub use completions::print_completions;
pub use requests::{
    ExplainRequest, GraphFormat, GraphRequest, InferRequest, MachineFiles, Request, RunRequest,
    ShapeRequest, Shell, TextFiles, request_or_status, words_or_status,
};
