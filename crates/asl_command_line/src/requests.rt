//! What the command line asks for, read by `clap`.

use crate::commands::{
    ANSWERS, CASE, CERTIFICATE, COVERAGE, DECLARED, DECLARED_FILE, DEFINITION, DENY_WARNINGS, FILE,
    FILES, FORMAT, INPUT, MAX_STEPS, NUMBERED, OPEN, ORDER, SAMPLE, SHAPES, SHELL, STATE, SUITE,
    command_named, program,
};
use crate::endings::refuse;
use asl_files::{LintFormat, LintRequest, is_input};
use asl_results::Format as ReportFormat;
use asl_testing::TestRequest;
use asl_texts::Pick;
use clap::error::ErrorKind;
use clap::{ArgMatches, Error};
use std::alloc::{AllocError, Global};
use std::rt::Env;
use std::{env, io};

/// What the program is asked to do.
#[derive(Drop)]
pub enum Request<'a> {
    /// To check the three lines of standard input.
    CheckInput,
    /// To check the texts in these files.
    CheckFiles(TextFiles<'a>),
    /// To infer a certificate.
    Infer(InferRequest<'a>),
    /// To infer a certificate of the texts in these files, and to check it.
    Verify(MachineFiles<'a>),
    /// To run a machine.
    Run(RunRequest<'a>),
    /// To tell all that is wrong with definitions.
    Lint(LintRequest<'a>),
    /// To explain findings, or what comes to a state.
    Explain(ExplainRequest<'a>),
    /// To declare shapes for the definition in this file.
    Declare(&'a str),
    /// To tell the shape of samples.
    Shape(ShapeRequest<'a>),
    /// To run the cases of test suites.
    Test(TestRequest<'a>),
    /// To print a picture of a machine.
    Graph(GraphRequest<'a>),
    /// To print the completions for a shell.
    Complete(Shell),
}

/// The names of the files with the three texts.
#[derive(Drop)]
pub struct TextFiles<'a> {
    pub definition: &'a str,
    pub declared: &'a str,
    pub certificate: &'a str,
}

/// The names of the files with a definition and the declared shapes.
#[derive(Drop)]
pub struct MachineFiles<'a> {
    pub definition: &'a str,
    pub declared: &'a str,
}

/// What a certificate is inferred of, and whether it lists its shapes.
#[derive(Drop)]
pub struct InferRequest<'a> {
    pub files: MachineFiles<'a>,
    pub numbered: bool,
}

/// What is run, by the names of the files with the texts, and how.
#[derive(Drop)]
pub struct RunRequest<'a> {
    pub definition: &'a str,
    pub declared: Option<&'a str>,
    pub input: &'a str,
    pub answers: &'a str,
    pub order: Pick,
    pub max_steps: u64,
}

/// What is explained, of the texts in these files.
#[derive(Drop)]
pub struct ExplainRequest<'a> {
    pub files: MachineFiles<'a>,
    /// The state that is asked about, in place of the findings.
    pub state: Option<&'a str>,
}

/// Which samples have a shape, and what it says of objects.
#[derive(Drop)]
pub struct ShapeRequest<'a> {
    /// Files, at least one.
    pub names: Vec<&'a str>,
    /// Whether objects may have other fields than the samples have.
    pub is_open: bool,
}

/// Of what a picture is printed, by the names of the files with the texts, and how.
#[derive(Drop)]
pub struct GraphRequest<'a> {
    pub definition: &'a str,
    pub declared: Option<&'a str>,
    pub format: GraphFormat,
    /// Whether the shape of what goes along each edge is told.
    pub shapes: bool,
}

/// For what a picture is written.
#[derive(Clone, Copy)]
pub enum GraphFormat {
    Mermaid,
    Dot,
}

/// A shell that completes the words of a command line.
#[derive(Clone, Copy)]
pub enum Shell {
    Bash,
    Zsh,
    Fish,
}

/// What is told where several files are standard input.
const SEVERAL_INPUTS: &str = "\
'-', which is standard input, can be given for one file only

  tip: './-' is a file of that name";

/// The words of the command line, with the program's own name in front.
///
/// Where one isn't UTF-8, or there is no memory for them, that goes to standard error, and the exit status comes back.
pub fn words_or_status<R: Env + Print + Eprint + AllocGlobal>(rt: &R) -> Result<Vec<String>, u8> {
    match words(rt) {
        Ok(words) => Ok(words),
        Err(error) => Err(refuse(rt, &error)),
    }
}

/// The words of the command line, with the program's own name in front.
///
/// Refused: in clap's words where one isn't UTF-8; OutOfMemory.
fn words<R: Env + AllocGlobal>(rt: &R) -> Result<Vec<String>, Error> {
    match env::args(rt) {
        Ok(words) => Ok(words.collect(rt.alloc())?),
        Err(error) if error.kind() == io::ErrorKind::OutOfMemory => Err(Error::from(AllocError)),
        Err(_) => {
            let mut program = program(rt.alloc())?;
            let fault = "invalid UTF-8 was detected in one or more arguments";
            Err(program.error(ErrorKind::InvalidValue, fault)?)
        }
    }
}

/// What these words ask for.
///
/// What clap refuses, and where several files are standard input, is told on standard error; help and the version, where
/// they are asked for, go to standard output. Then the exit status comes back.
pub fn request_or_status<'a, R: Print + Eprint + AllocGlobal>(
    rt: &R,
    words: &'a [String],
) -> Result<Request<'a>, u8> {
    match asked(rt.alloc(), words) {
        Ok(request) => Ok(request),
        Err(error) => Err(refuse(rt, &error)),
    }
}

/// What these words ask for.
///
/// Refused: as clap does, a request for help or the version included; where several files are standard input;
/// OutOfMemory.
fn asked<'a>(alloc: Global, words: &'a [String]) -> Result<Request<'a>, Error> {
    let matches = program(alloc)?.try_get_matches_from(words)?;
    match matches.subcommand() {
        Some((name, given)) => {
            look_at_inputs(alloc, name, given)?;
            Ok(request_of(alloc, name, given)?)
        }
        None => Ok(Request::CheckInput),
    }
}

/// Refused: in clap's form where several of a command's files are standard input; OutOfMemory.
fn look_at_inputs(alloc: Global, name: &str, given: &ArgMatches<'_>) -> Result<(), Error> {
    if inputs(given) > 1 {
        if let Some(mut command) = command_named(alloc, name)? {
            return Err(command.error(ErrorKind::ArgumentConflict, SEVERAL_INPUTS)?);
        }
    }
    Ok(())
}

/// How many of a command's files are standard input.
fn inputs(given: &ArgMatches<'_>) -> usize {
    FILES
        .iter()
        .map(|argument| inputs_among(given.get_strs(argument).unwrap_or(&[])))
        .fold(0, usize::saturating_add)
}

/// How many of these names are that of standard input.
fn inputs_among(names: &[&str]) -> usize {
    names.iter().filter(|name| is_input(name)).count()
}

/// What the arguments of the command of that name ask for. `clap` gives no other names than those here.
///
/// Refused: OutOfMemory.
fn request_of<'a>(
    alloc: Global,
    name: &str,
    given: &ArgMatches<'a>,
) -> Result<Request<'a>, AllocError> {
    Ok(match name {
        "check" => Request::CheckFiles(text_files(given)),
        "infer" => Request::Infer(infer_request(given)),
        "verify" => Request::Verify(machine_files(given)),
        "run" => Request::Run(run_request(given)),
        "lint" => Request::Lint(lint_request(alloc, given)?),
        "explain" => Request::Explain(explain_request(given)),
        "declare" => Request::Declare(file_named(given, DEFINITION)),
        "shape" => Request::Shape(shape_request(alloc, given)?),
        "test" => Request::Test(test_request(alloc, given)?),
        "graph" => Request::Graph(graph_request(given)),
        "completions" => Request::Complete(shell_of(given)),
        _ => Request::CheckInput,
    })
}

/// The files that the arguments of the command `check` name.
fn text_files<'a>(given: &ArgMatches<'a>) -> TextFiles<'a> {
    TextFiles {
        definition: file_named(given, DEFINITION),
        declared: file_named(given, DECLARED),
        certificate: file_named(given, CERTIFICATE),
    }
}

/// What the arguments of the command `infer` ask for.
fn infer_request<'a>(given: &ArgMatches<'a>) -> InferRequest<'a> {
    InferRequest {
        files: machine_files(given),
        numbered: given.get_flag(NUMBERED),
    }
}

/// The files that the arguments of the commands `infer`, `verify` and `explain` name.
fn machine_files<'a>(given: &ArgMatches<'a>) -> MachineFiles<'a> {
    MachineFiles {
        definition: file_named(given, DEFINITION),
        declared: file_named(given, DECLARED),
    }
}

/// What the arguments of the command `run` ask for. Both options have a default, so each has a value.
fn run_request<'a>(given: &ArgMatches<'a>) -> RunRequest<'a> {
    RunRequest {
        definition: file_named(given, DEFINITION),
        declared: given.get_str(DECLARED_FILE),
        input: file_named(given, INPUT),
        answers: file_named(given, ANSWERS),
        order: match given.get_str(ORDER) {
            Some("last") => Pick::Last,
            _ => Pick::First,
        },
        max_steps: given.get_one(MAX_STEPS).unwrap_or(0),
    }
}

/// What the arguments of the command `lint` ask for. The format has a default, so it has a value.
///
/// Refused: OutOfMemory.
fn lint_request<'a>(alloc: Global, given: &ArgMatches<'a>) -> Result<LintRequest<'a>, AllocError> {
    Ok(LintRequest {
        names: files_named(alloc, given, FILE)?,
        declared: given.get_str(DECLARED_FILE),
        format: match given.get_str(FORMAT) {
            Some("json") => LintFormat::Json,
            Some("sarif") => LintFormat::Sarif,
            Some("github") => LintFormat::Github,
            _ => LintFormat::Text,
        },
        deny_warnings: given.get_flag(DENY_WARNINGS),
    })
}

/// What the arguments of the command `explain` ask for.
fn explain_request<'a>(given: &ArgMatches<'a>) -> ExplainRequest<'a> {
    ExplainRequest {
        files: machine_files(given),
        state: given.get_str(STATE),
    }
}

/// What the arguments of the command `shape` ask for.
///
/// Refused: OutOfMemory.
fn shape_request<'a>(
    alloc: Global,
    given: &ArgMatches<'a>,
) -> Result<ShapeRequest<'a>, AllocError> {
    Ok(ShapeRequest {
        names: files_named(alloc, given, SAMPLE)?,
        is_open: given.get_flag(OPEN),
    })
}

/// What the arguments of the command `test` ask for. The format has a default, so it has a value.
///
/// Refused: OutOfMemory.
fn test_request<'a>(alloc: Global, given: &ArgMatches<'a>) -> Result<TestRequest<'a>, AllocError> {
    Ok(TestRequest {
        names: files_named(alloc, given, SUITE)?,
        case: given.get_str(CASE),
        format: match given.get_str(FORMAT) {
            Some("json") => ReportFormat::Json,
            Some("junit") => ReportFormat::Junit,
            _ => ReportFormat::Text,
        },
        coverage: given.get_flag(COVERAGE),
    })
}

/// What the arguments of the command `graph` ask for. The format has a default, so it has a value.
fn graph_request<'a>(given: &ArgMatches<'a>) -> GraphRequest<'a> {
    GraphRequest {
        definition: file_named(given, DEFINITION),
        declared: given.get_str(DECLARED_FILE),
        format: match given.get_str(FORMAT) {
            Some("dot") => GraphFormat::Dot,
            _ => GraphFormat::Mermaid,
        },
        shapes: given.get_flag(SHAPES),
    }
}

/// The shell that the argument of the command `completions` names. It is required, so it has a value.
fn shell_of(given: &ArgMatches<'_>) -> Shell {
    match given.get_str(SHELL) {
        Some("zsh") => Shell::Zsh,
        Some("fish") => Shell::Fish,
        _ => Shell::Bash,
    }
}

/// The names that clap found for an argument that may have several.
///
/// Refused: OutOfMemory.
fn files_named<'a>(
    alloc: Global,
    matches: &ArgMatches<'a>,
    argument: &str,
) -> Result<Vec<&'a str>, AllocError> {
    let mut names = Vec::new(alloc);
    names.extend_from_slice(matches.get_strs(argument).unwrap_or(&[]))?;
    Ok(names)
}

/// The file name that clap found for an argument. It asks for each, so the empty name, which no file has, isn't met.
fn file_named<'a>(matches: &ArgMatches<'a>, argument: &str) -> &'a str {
    matches.get_str(argument).unwrap_or("")
}
