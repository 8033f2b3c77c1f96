//! The commands of the program with their arguments, as `clap` takes them.

use clap::{Arg, ArgAction, Command, value_parser};
use std::alloc::{AllocError, Global};

/// The version of the program.
const VERSION: &str = "0.1.0";

pub(crate) const DEFINITION: &str = "DEFINITION";

pub(crate) const DECLARED: &str = "DECLARED";

pub(crate) const CERTIFICATE: &str = "CERTIFICATE";

pub(crate) const INPUT: &str = "INPUT";

pub(crate) const ANSWERS: &str = "ANSWERS";

pub(crate) const FILE: &str = "FILE";

pub(crate) const SAMPLE: &str = "SAMPLE";

pub(crate) const SUITE: &str = "SUITE";

pub(crate) const SHELL: &str = "SHELL";

/// The option with the file of the declared shapes.
pub(crate) const DECLARED_FILE: &str = "declared";

/// The arguments that are names of files.
pub(crate) const FILES: [&str; 9] = [
    DEFINITION,
    DECLARED,
    CERTIFICATE,
    INPUT,
    ANSWERS,
    FILE,
    SAMPLE,
    SUITE,
    DECLARED_FILE,
];

/// The option for a list of shapes.
pub(crate) const NUMBERED: &str = "numbered";

pub(crate) const ORDER: &str = "order";

pub(crate) const MAX_STEPS: &str = "max-steps";

pub(crate) const FORMAT: &str = "format";

pub(crate) const DENY_WARNINGS: &str = "deny-warnings";

pub(crate) const STATE: &str = "state";

pub(crate) const OPEN: &str = "open";

pub(crate) const CASE: &str = "case";

pub(crate) const COVERAGE: &str = "coverage";

pub(crate) const SHAPES: &str = "shapes";

/// What stands below the help of the program.
const AFTER_HELP: &str = "\
Without a command, the definition, the declared shapes and the certificate are taken as three lines
of standard input, and checked. Of a command's files one may be -, which is standard input; a file of
that name is ./-.";

/// What stands below the help of the command `check`.
const AFTER_CHECK_HELP: &str = "\
It prints yes, or a line for each finding. The exit status is 0 for a yes, 1 for findings, and 2 where
a text is refused.";

/// What stands below the help of the command `infer`.
const AFTER_INFER_HELP: &str = "\
It prints the certificate on a line, or a finding. The exit status is 0 for a certificate, 1 for a
finding, and 2 where a text is refused.";

/// What stands below the help of the command `verify`.
const AFTER_VERIFY_HELP: &str = "\
It prints yes, or one finding; lint tells all that is wrong at once, and explain why. The
exit status is 0 for a yes, 1 for findings, and 2 where a text is refused.";

/// What stands below the help of the command `run`.
const AFTER_RUN_HELP: &str = "\
The answers are a JSON list of {\"Gives\": VALUE} and {\"Fails\": {\"Error\": TEXT}}; each task takes the
next one, and nothing is called. It prints a line of JSON for each thing that happens. The exit status
is 0 for an output, 1 for a run that fails, 2 where a text is refused, 3 for data that isn't of its
declared shape, and 4 for a run without an end.";

/// What stands below the help of the command `lint`.
const AFTER_LINT_HELP: &str = "\
Without --declared the shapes that are declared for NAME.asl.json or NAME.json are taken from the file
NAME.declared.json beside it. Where there is none, only the structure of the definition is checked.

It prints a line for each error and warning. The exit status is 0 without errors, 1 with errors, and 2
where something can't be read or is no JSON.";

/// What stands below the help of the command `explain`.
const AFTER_EXPLAIN_HELP: &str = "\
For each finding it prints what is wrong, what is there, by which way such data come, and what usually
helps; with --state what comes to that state, and what becomes of it there. The exit status is 0
where there is nothing to explain and for a state, 1 for findings, and 2 where a text is refused or no
state has that name.";

/// What stands below the help of the command `declare`.
const AFTER_DECLARE_HELP: &str = "\
It prints declared shapes in JSON: true, which is any value, for the input and for what each Task state
takes and gives. Put in their place what is known of it. The exit status is 0, and 2 where the
definition is refused.";

/// What stands below the help of the command `shape`.
const AFTER_SHAPE_HELP: &str = "\
Each sample is a JSON value whose numbers are whole. It prints one shape, which every sample has: a
field that some samples lack isn't required. The exit status is 0, and 2 where a sample can't be read.";

/// What stands below the help of the command `test`.
const AFTER_TEST_HELP: &str = "\
A suite is JSON: the names of the files with the definition and the declared shapes, from its own folder
on, and cases, each with an input, answers by state in the order of attempts, and what is expected. It
prints a line for each case. The exit status is 0 where all cases pass, 1 where one doesn't, and 2 where
a suite can't be read or no suite has the case.";

/// What stands below the help of the command `graph`.
const AFTER_GRAPH_HELP: &str = "\
It prints a flowchart for Mermaid, as in a fenced block on GitHub, or a graph for dot. With declared
shapes, states with findings are red, and states to which no data comes are grey. The exit status is 0,
1 where the shapes don't settle, and 2 where a text is refused.";

/// What stands below the help of the command `completions`.
const AFTER_COMPLETIONS_HELP: &str = "\
For bash: asl completions bash > ~/.local/share/bash-completion/completions/asl
For zsh, with ~/.zfunc in $fpath: asl completions zsh > ~/.zfunc/_asl
For fish: asl completions fish > ~/.config/fish/completions/asl.fish";

/// A command: its name, what help says of it in a line and below its arguments, and these.
struct CommandText {
    name: &'static str,
    about: &'static str,
    after: &'static str,
    arguments: &'static [ArgumentText],
}

/// An argument of a command: its name, what it takes, and what help says of it.
struct ArgumentText {
    name: &'static str,
    takes: Takes,
    help: &'static str,
}

/// What an argument takes.
#[derive(Clone, Copy)]
enum Takes {
    /// A value that has to be given.
    One,
    /// Values, of which one at least has to be given.
    Several,
    /// One of these words, which has to be given.
    OneOf(&'static [&'static str]),
    /// It is an option without a value.
    Nothing,
    /// It is an option without a value, for which another option has to be given, too.
    NothingBeside(&'static str),
    /// It is an option with a value, which help calls so.
    Value(&'static str),
    /// It is an option with a value, which help calls so, and which is one of these words; without it, it is the usual one.
    Word {
        value: &'static str,
        words: &'static [&'static str],
        usual: &'static str,
    },
    /// It is an option with a number that is at most that; without it, it is the usual one.
    Number {
        most: i64,
        usual: &'static str,
    },
}

/// The file with the definition.
const A_DEFINITION: ArgumentText = ArgumentText {
    name: DEFINITION,
    takes: Takes::One,
    help: "File with the definition of the state machine",
};

/// The file with the declared shapes.
const DECLARED_SHAPES: ArgumentText = ArgumentText {
    name: DECLARED,
    takes: Takes::One,
    help: "File with the declared shapes",
};

/// The commands, in the order in which help has them.
const COMMANDS: [CommandText; 11] = [
    CommandText {
        name: "check",
        about: "Check a certificate of shapes and print the verdict",
        after: AFTER_CHECK_HELP,
        arguments: &[
            A_DEFINITION,
            DECLARED_SHAPES,
            ArgumentText {
                name: CERTIFICATE,
                takes: Takes::One,
                help: "File with the certificate",
            },
        ],
    },
    CommandText {
        name: "infer",
        about: "Infer a certificate of shapes and print it",
        after: AFTER_INFER_HELP,
        arguments: &[
            A_DEFINITION,
            DECLARED_SHAPES,
            ArgumentText {
                name: NUMBERED,
                takes: Takes::Nothing,
                help: "List each compound shape once, and refer to it by its number",
            },
        ],
    },
    CommandText {
        name: "verify",
        about: "Infer a certificate of shapes and print yes, or why there is none",
        after: AFTER_VERIFY_HELP,
        arguments: &[A_DEFINITION, DECLARED_SHAPES],
    },
    CommandText {
        name: "run",
        about: "Run a state machine and print its trace",
        after: AFTER_RUN_HELP,
        arguments: &[
            A_DEFINITION,
            ArgumentText {
                name: INPUT,
                takes: Takes::One,
                help: "File with the input",
            },
            ArgumentText {
                name: ANSWERS,
                takes: Takes::One,
                help: "File with the answers of the tasks",
            },
            ArgumentText {
                name: DECLARED_FILE,
                takes: Takes::Value("FILE"),
                help: "File with the declared shapes, which the input and the answers must have",
            },
            ArgumentText {
                name: ORDER,
                takes: Takes::Word {
                    value: "ORDER",
                    words: &["first", "last"],
                    usual: "first",
                },
                help: "Which of several places takes its turn",
            },
            ArgumentText {
                name: MAX_STEPS,
                takes: Takes::Number {
                    most: 10000,
                    usual: "1000",
                },
                help: "How many events the run may take, at most 10000",
            },
        ],
    },
    CommandText {
        name: "lint",
        about: "Tell all that is wrong with definitions, and where",
        after: AFTER_LINT_HELP,
        arguments: &[
            ArgumentText {
                name: FILE,
                takes: Takes::Several,
                help: "Definitions, and folders with definitions *.asl.json",
            },
            ArgumentText {
                name: DECLARED_FILE,
                takes: Takes::Value("FILE"),
                help: "File with the declared shapes of all of them",
            },
            ArgumentText {
                name: FORMAT,
                takes: Takes::Word {
                    value: "FORMAT",
                    words: &["text", "json", "sarif", "github"],
                    usual: "text",
                },
                help: "How it is told",
            },
            ArgumentText {
                name: DENY_WARNINGS,
                takes: Takes::Nothing,
                help: "Exit with status 1 for warnings, too",
            },
        ],
    },
    CommandText {
        name: "explain",
        about: "Explain findings: what is there, and by which way it came",
        after: AFTER_EXPLAIN_HELP,
        arguments: &[
            A_DEFINITION,
            DECLARED_SHAPES,
            ArgumentText {
                name: STATE,
                takes: Takes::Value("NAME"),
                help: "Tell what comes to this state, and from where",
            },
        ],
    },
    CommandText {
        name: "declare",
        about: "Print declared shapes to begin with",
        after: AFTER_DECLARE_HELP,
        arguments: &[A_DEFINITION],
    },
    CommandText {
        name: "shape",
        about: "Print the shape that JSON samples have in common",
        after: AFTER_SHAPE_HELP,
        arguments: &[
            ArgumentText {
                name: SAMPLE,
                takes: Takes::Several,
                help: "Files with a sample each",
            },
            ArgumentText {
                name: OPEN,
                takes: Takes::Nothing,
                help: "Let objects have other fields, too, of any shape",
            },
        ],
    },
    CommandText {
        name: "test",
        about: "Run the cases of test suites",
        after: AFTER_TEST_HELP,
        arguments: &[
            ArgumentText {
                name: SUITE,
                takes: Takes::Several,
                help: "Files with a suite each",
            },
            ArgumentText {
                name: CASE,
                takes: Takes::Value("NAME"),
                help: "Run the case of this name alone",
            },
            ArgumentText {
                name: FORMAT,
                takes: Takes::Word {
                    value: "FORMAT",
                    words: &["text", "json", "junit"],
                    usual: "text",
                },
                help: "How it is told",
            },
            ArgumentText {
                name: COVERAGE,
                takes: Takes::Nothing,
                help: "Tell which states, rules, retriers and catchers no case took",
            },
        ],
    },
    CommandText {
        name: "graph",
        about: "Print a picture of a state machine",
        after: AFTER_GRAPH_HELP,
        arguments: &[
            A_DEFINITION,
            ArgumentText {
                name: DECLARED_FILE,
                takes: Takes::Value("FILE"),
                help: "File with the declared shapes, by which findings are shown",
            },
            ArgumentText {
                name: FORMAT,
                takes: Takes::Word {
                    value: "FORMAT",
                    words: &["mermaid", "dot"],
                    usual: "mermaid",
                },
                help: "What it is written for",
            },
            ArgumentText {
                name: SHAPES,
                takes: Takes::NothingBeside(DECLARED_FILE),
                help: "Tell the shape of what goes along each edge",
            },
        ],
    },
    CommandText {
        name: "completions",
        about: "Print the completions of the command line for a shell",
        after: AFTER_COMPLETIONS_HELP,
        arguments: &[ArgumentText {
            name: SHELL,
            takes: Takes::OneOf(&["bash", "zsh", "fish"]),
            help: "The shell",
        }],
    },
];

/// The command line of the program.
pub(crate) fn program<'a>(alloc: Global) -> Result<Command<'a>, AllocError> {
    let mut program = Command::new(alloc, "asl")
        .version(VERSION)
        .about("Check the data flow of workflows in Amazon States Language, and run them")
        .after_help(AFTER_HELP);
    for text in &COMMANDS {
        program = with_command(alloc, program, text)?;
    }
    Ok(program)
}

/// The program with the command of that text.
fn with_command<'a>(
    alloc: Global,
    program: Command<'a>,
    text: &CommandText,
) -> Result<Command<'a>, AllocError> {
    let command = command(alloc, text)?;
    program.subcommand(command)
}

/// The command of that name, named as behind the program's name.
pub(crate) fn command_named<'a>(
    alloc: Global,
    name: &str,
) -> Result<Option<Command<'a>>, AllocError> {
    match COMMANDS.iter().find(|text| text.name == name) {
        Some(text) => Ok(Some(command_behind(alloc, text)?)),
        None => Ok(None),
    }
}

/// The command of that text, named as behind the program's name.
fn command_behind<'a>(alloc: Global, text: &CommandText) -> Result<Command<'a>, AllocError> {
    let name = format!(in alloc; "asl {}", text.name)?;
    command(alloc, text)?.bin_name(&name)
}

/// The command of that text.
fn command<'a>(alloc: Global, text: &CommandText) -> Result<Command<'a>, AllocError> {
    let mut command = Command::new(alloc, text.name)
        .about(text.about)
        .after_help(text.after);
    for argument in text.arguments {
        command = command.arg(argument_of(alloc, argument)?)?;
    }
    Ok(command)
}

/// The argument of that text.
fn argument_of<'a>(alloc: Global, text: &ArgumentText) -> Result<Arg<'a>, AllocError> {
    let argument = Arg::new(alloc, text.name).help(text.help);
    Ok(match text.takes {
        Takes::One => argument.required(true),
        Takes::Several => argument.required(true).num_args(1..),
        Takes::OneOf(words) => argument.required(true).value_parser(words),
        Takes::Nothing => flag(argument, text.name),
        Takes::NothingBeside(other) => flag(argument, text.name).requires_arg(other)?,
        Takes::Value(value) => argument.long(text.name).value_name(value),
        Takes::Word {
            value,
            words,
            usual,
        } => argument
            .long(text.name)
            .value_name(value)
            .value_parser(words)
            .default_value(usual),
        Takes::Number { most, usual } => argument
            .long(text.name)
            .value_name("N")
            .value_parser(value_parser!(u64).range(0..=most))
            .default_value(usual),
    })
}

/// The argument as an option of that name without a value.
fn flag<'a>(argument: Arg<'a>, name: &'a str) -> Arg<'a> {
    argument.long(name).action(ArgAction::SetTrue)
}
