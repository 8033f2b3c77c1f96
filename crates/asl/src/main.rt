//! The program `asl`: checks a certificate of shapes against a state machine and its declared shapes, infers one, or runs
//! a machine. For a check it takes the three texts as lines of standard input or, by the command `check`, from files, and
//! writes the verdict to standard output. By the commands `infer` and `verify` it takes a definition and declared shapes
//! from files, and writes the certificate, or the verdict on it. By the command `run` it takes a definition, an input and
//! answers from files, and writes the trace. By the command `lint` it takes definitions, and tells all that is wrong with
//! them, each with its place. By the command `explain` it takes what `verify` takes, and tells why its findings stand. By
//! the commands `declare` and `shape` it takes a definition, or samples of data, and writes shapes to begin with. By the
//! command `test` it takes suites of test cases, and tells which of them pass; by the command `graph` a definition, and
//! writes a picture of it. By the command `completions` it writes a script for a shell. A file may be standard input, by the
//! name `-`.
#![tactic(auto)]

mod checking;
mod declaring;
mod explaining;
mod graphing;
mod inferring;
mod running;
mod sampling;

use asl_command_line::{Request, print_completions, request_or_status, words_or_status};
use asl_linting::lint_files;
use asl_testing::test_files;
use checking::{check_files, check_input};
use declaring::declare_file;
use explaining::explain_files;
use graphing::graph_file;
use inferring::{infer_files, verify_files};
use running::run_files;
use sampling::shape_files;
use std::process::ExitCode;
use std::rt::{Env, Files};

fn main(rt: HostRuntime) -> ExitCode {
    ExitCode::from(run(&rt))
}

/// Runs the program and gives its exit status.
fn run<R: Env + Files + Input + Print + Eprint + AllocGlobal + Clone + Drop>(rt: &R) -> u8 {
    let words = match words_or_status(rt) {
        Ok(words) => words,
        Err(status) => return status,
    };
    match request_or_status(rt, &words) {
        Ok(Request::CheckInput) => check_input(rt),
        Ok(Request::CheckFiles(files)) => check_files(rt, &files),
        Ok(Request::Infer(request)) => infer_files(rt, &request),
        Ok(Request::Verify(files)) => verify_files(rt, &files),
        Ok(Request::Run(request)) => run_files(rt, &request),
        Ok(Request::Lint(request)) => lint_files(rt, &request),
        Ok(Request::Explain(request)) => explain_files(rt, &request),
        Ok(Request::Declare(name)) => declare_file(rt, name),
        Ok(Request::Shape(request)) => shape_files(rt, &request),
        Ok(Request::Test(request)) => test_files(rt, &request),
        Ok(Request::Graph(request)) => graph_file(rt, &request),
        Ok(Request::Complete(shell)) => print_completions(rt, shell),
        Err(status) => status,
    }
}
